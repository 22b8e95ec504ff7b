//! The laws of histories. The functions do nothing when run: each is the proof of its contract.
ghost use Rattle.wstore.specs.Laws.{ListsAreExact, OneReading, OneReply, OneRun, SameAnswers, SameFiles, SameLists, SameViews, SlotsJoin};

/// What a node knows and a slot holds, as lists, is what is known and held item by item.
pub fn exact_lists()
    ensures { ListsAreExact }
{}

/// A slot that is got was put, and makes the view of its node the join of its view with the slot's.
pub fn slots_join()
    ensures { SlotsJoin }
{}

/// Two nodes of one view, at any two moments of one script or of two with one declaration, put equal files, list the same, and answer
/// the same to every query, where both answer. They have one view where they know the same items, and also where one knows more that
/// is of no account: what a retirement or a floor covers.
pub fn same_knowledge()
    ensures views { SameViews }
    ensures files { SameFiles }
    ensures answers { SameAnswers }
    ensures lists { SameLists }
{}

/// An input has one reading: whatever its commands are answered, they are the same, and so is what is left behind them.
pub fn one_reading()
    ensures { OneReading }
{}

/// A command has one reply that no want of memory has part in: neither the reply nor a message of a piece found none. A
/// slot that was put and is got is of a table that is a declaration, as in each run.
pub fn one_reply()
    ensures { OneReply }
{}

/// An input has one run in which no want of memory has part: the same commands, the same reply to each, and the same
/// rest. So what is written for it is one text, but for memory.
pub fn one_run()
    ensures { OneRun }
{}
