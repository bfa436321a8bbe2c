ghost use Rattle.flat_design.specs.Laws.{RoomForEach, RunsWithin, UpdatesStand, PartsKeepStates, WordsKeepStates};

/// Laws for the proofs of callers: a call does nothing.
pub fn runs_stand()
    ensures room { RoomForEach }
    ensures within { RunsWithin }
    ensures updates { UpdatesStand }
    ensures parts { PartsKeepStates }
    ensures words { WordsKeepStates }
{}
