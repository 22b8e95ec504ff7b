//! The law of streams. The function does nothing when run: it is the proof of its contract.
ghost use Rattle.wstream.specs.Laws.{FirstMessage};

/// The messages of a stream do not depend on how it is cut: those of a message's text and a stream behind it are that
/// message, and then those of the stream.
pub fn first_message()
    ensures { FirstMessage }
{}
