// A law of the definitions.
ghost use Rattle.c_watch.specs.Watching.{VerdictsTell};

/// The verdict is the end of the meaning, with its place, where that fails before the recorded run is over, and else `Met`.
pub fn verdicts_tell()
    ensures { VerdictsTell }
{}
