// What the commands make of one another's files.
ghost use Rattle.std.specs.Prelude.{◌≡◌, List, ℕ, Ok};
ghost use Rattle.asset_pack.specs.Words.{IsBytes};
ghost use Rattle.kit_base.specs.Held.{Held};
ghost use Rattle.kit_tools.specs.Converting.{assembled_due, disassembled_due};
ghost use Rattle.kit_tools.specs.Inputs.{bytes_due};

/// Where `dis` is due the text of a words file, `asm` is due of that text the words file again, byte for byte. The text may stand
/// under another name, among other files.
pub fn disassembly_is_assembled_to_its_file()
    ensures { (words text : List ℕ) (before after : Held) (bytes listing : List ℕ) → IsBytes bytes → bytes_due words before ≡ Ok bytes
        → disassembled_due words before ≡ Ok listing → bytes_due text after ≡ Ok listing → assembled_due text after ≡ Ok bytes }
{}
