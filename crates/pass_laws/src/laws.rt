// Laws of the definitions.
ghost use Rattle.pass_laws.specs.Meeting.{PassesMeet, StraightStays};

/// Words that lowering, settling (promotion and improvement in rounds), safe choices, placing and emitting make of a program agree with it for every bound,
/// answers of ports and memory card, in at most 64 times its work and 64 instructions where it does not stray; they are at most 128 a node of the program, its
/// literals and 64; and each frame fits its function.
pub fn passes_meet()
    ensures { PassesMeet }
{}

/// A function without loops has none in placed code, and calls there only what its tree calls.
pub fn straight_functions_stay_straight()
    ensures { StraightStays }
{}
