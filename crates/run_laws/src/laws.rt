// Laws of the definitions.
ghost use Rattle.run_laws.specs.Steps.{StepsAreMeant, NoWordIsUndecodable};

/// Where words agree with a meaning, what they have done after any number of steps is a part of what is meant; and until what is meant strays or has no room
/// for a frame, no word is fetched that cannot be decoded.
pub fn steps_are_meant()
    ensures meant { StepsAreMeant }
    ensures decodable { NoWordIsUndecodable }
{}
