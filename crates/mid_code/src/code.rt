// Programs as structured code.
use crate::function::Function;
use kit_base::{Name, Seq};

/// A program: what fills the globals, the functions, the words of the globals, the literals, and the number of main.
#[derive(Drop)]
pub struct Code<P> {
    pub start: Function<P>,
    pub functions: Seq<Function<P>>,
    pub globals: Seq<u32>,
    pub literals: Seq<Name>,
    pub main: u32,
}
