// The items of assembly text.
use either::Either;
use kit_base::Name;
use v32_isa::Instr;

/// An immediate: a word, or the label whose address it is.
pub type Imm = Either<u32, Name>;

/// An item of assembly text: a label, which names the address of the next item, an operation, or a
/// datum of one word: a number, or the address of a label.
#[derive(Drop)]
pub enum AsmItem {
    Label(Name),
    Op(Instr<Imm>),
    Integer(u32),
    Pointer(Name),
}
