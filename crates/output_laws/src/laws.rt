// Laws of the files of a run, and of effects that were begun.
ghost use Rattle.output_laws.specs.Begun.{BegunEffectsAreFronts, RunFrontsAreItsFiles};
ghost use Rattle.output_laws.specs.Standing.{CutOutputsAreFronts, OutputsAreTheirBytes};

/// Where the outputs of a run are done, the files of frames and samples hold their headers and then each frame's screen, or samples, and the card's file
/// the card's words. Where they were cut short, each of these files is as before or holds a front of these bytes. Every other file is as before.
pub fn outputs_are_their_bytes()
    ensures whole { OutputsAreTheirBytes }
    ensures fronts { CutOutputsAreFronts }
{}

/// Where effects that create each file once, and add only to files that they created, are done or were cut short at a refused call, each file that they
/// create is as before or holds a front of its bytes, and every other file is as before. Of a run these are the bytes of its frames, samples and card.
pub fn begun_effects_are_fronts()
    ensures begun { BegunEffectsAreFronts }
    ensures runs { RunFrontsAreItsFiles }
{}
