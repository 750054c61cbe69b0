// Laws of the definitions.
ghost use Rattle.play_laws.specs.Played.{PlayedRunsAreTheSources, PlayedRunsComeToAll};
ghost use Rattle.play_laws.specs.Keeping.{WatchDecides, KeptRunsAreTheSources, EndedRunsAreWhole};

/// For every cartridge that was built, every script of the gamepads and every memory card: what the console has done after any number of
/// instructions and frame edges is a part of what the source means, under the answers that the devices gave up to there, and ends as it ends, until
/// the run that is meant strays or has no room for a frame; and the console makes all that is meant.
pub fn played_runs_are_the_sources()
    ensures played { PlayedRunsAreTheSources }
    ensures whole { PlayedRunsComeToAll }
{}

/// Whether that run strays, or has no room for a frame, before the console has done so much, is decided by one bound, one above the number of the
/// console's instructions. Where it does not, all that the console has done is a part of what the source means, or, where its run has ended, the whole.
pub fn kept_runs_are_the_sources()
    ensures decides { WatchDecides }
    ensures follows { KeptRunsAreTheSources }
    ensures whole { EndedRunsAreWhole }
{}
