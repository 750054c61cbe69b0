// The fields of an instruction word.
ghost use Rattle.std.specs.Prelude.{◌≡◌, ◌/◌, ◌%◌, ◌^◌};
ghost use Rattle.v32_isa.specs.Fields.{word_of, AreFields};

/// The fields of an instruction word, from the top bit.
#[derive(Clone, Copy)]
pub struct Fields {
    pub opcode: u32,
    pub flag: u32,
    pub one: u32,
    pub two: u32,
    pub mode: u32,
    pub port: u32,
}

#[inline(always)]
pub fn fields_of(word: u32) -> Fields
    ensures parts { result ≡ record {
      opcode = word / 2 ^ 26;
      flag = word / 2 ^ 25 % 2;
      one = word / 2 ^ 21 % 16;
      two = word / 2 ^ 17 % 16;
      mode = word / 2 ^ 14 % 8;
      port = word % 2 ^ 14;
    } }
    ensures ranges { AreFields result.opcode result.flag result.one result.two result.mode result.port }
{
    Fields {
        opcode: word / 0x0400_0000,
        flag: word / 0x0200_0000 % 2,
        one: word / 0x0020_0000 % 16,
        two: word / 0x0002_0000 % 16,
        mode: word / 0x4000 % 8,
        port: word % 0x4000,
    }
}

/// The word of these fields.
pub fn join_fields(f: Fields) -> u32
    requires { AreFields f.opcode f.flag f.one f.two f.mode f.port }
    ensures { result ≡ word_of f.opcode f.flag f.one f.two f.mode f.port }
{
    f.opcode * 0x0400_0000
        + f.flag * 0x0200_0000
        + f.one * 0x0020_0000
        + f.two * 0x0002_0000
        + f.mode * 0x4000
        + f.port
}
