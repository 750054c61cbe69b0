// Why tokens could not be read.
use kit_base::Failure;

/// What is wrong with the tokens, and how many of them are left, with the one that is named.
#[derive(Clone, Copy)]
pub enum Fault {
    /// No unit goes on so.
    Syntax(usize),
    /// Some unit goes on so, and none with as few trees on a path as are allowed.
    TooDeep(usize),
}

/// Why tokens give nothing: what is wrong with them, or want of memory.
pub type ReadErr = Failure<Fault>;
