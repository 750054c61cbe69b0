// What is made of a file.

/// A command that makes one file of another: a cartridge in its second revision, the words of an assembly text, the
/// assembly text of words.
#[derive(Clone, Copy, Debug, PartialEq, Eq)]
pub enum Conversion {
    Migrate,
    Assemble,
    Disassemble,
}
