//! The laws of files. The functions do nothing when run: each is the proof of its contract.
ghost use Rattle.wexchange.specs.Laws.{OneJudgement, OneText, OneView, OwnJudgement, TextsAlone, WorkedFile};

/// No two views have one file, and no two have one text, in whatever versions.
pub fn one_view()
    ensures file { OneView }
    ensures text { OneText }
{}

/// Bytes are judged in one way, whatever they are: they are a text of one view, or have one first fault. The file of
/// a view is judged to be that view, and bytes are judged to be a view only where they are its file, or where it has no
/// floor its text in version 1. Memory may run out beside all this.
pub fn one_judgement()
    ensures one { OneJudgement }
    ensures own { OwnJudgement }
    ensures alone { TextsAlone }
{}

/// The file of a view with a floor and one live name, byte by byte, its digest too.
pub fn worked_file()
    ensures { WorkedFile }
{}
