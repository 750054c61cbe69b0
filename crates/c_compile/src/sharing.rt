// The register of what is made of an operand, given to the operand too (coalescing).
//
// A choice of places is made better: where a temporary is made only to be the first operand of one operation, it stands at that operation's
// target, so no instruction moves it there, and an argument stands where the call hands it over. Known words that can stand inside the instructions that use
// them are given register 8, which the emitter leaves unused then. What is made is taken only where `is_safe` of reg_choose says that it is safe, so safe
// choices stay safe.
mod arguments;
mod copies;
mod entry;
mod immediates;
mod merge;
mod operands;
mod places;
mod registers;
mod share;
mod singles;
mod slots;
mod spare;
mod upwards;

pub(crate) use share::share_all;
