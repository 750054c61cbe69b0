// Typed functions.
use crate::ctype::CType;
use crate::typed::TStmt;
use kit_base::{Name, Seq};

/// A function with a body: the types of its parameters; the sizes in words of the objects of a call in the order of their declarations,
/// parameters first; the numbers of the objects that are made with the call, parameters included, in rising order, which are those in no
/// list of a block, a `for` or a `switch`; the type of its result (`Void` where it has none); its body.
#[derive(Drop)]
pub struct TFunction {
    pub name: Name,
    pub params: Seq<CType>,
    pub locals: Seq<u32>,
    pub made: Seq<u32>,
    pub result: CType,
    pub body: Seq<TStmt>,
}
