// What follows of a run from what every command leaves in the files.
ghost use Rattle.kit_core.specs.Leaving.{RunsLeaveFronts};

/// Where a run left fronts, nothing is changed, or it was due and each of its files is as before or holds a front of its frames, its samples or its
/// card, and every other file is as before.
pub fn runs_leave_fronts()
    ensures { RunsLeaveFronts }
{}
