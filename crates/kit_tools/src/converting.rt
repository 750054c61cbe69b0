// The commands that make one file of another: `migrate`, `asm` and `dis`.
ghost use Rattle.std.specs.Prelude.{◌≡◌, ◌<◌, ◌≤◌, true, IfSome, IfErr, IfOk, [], ◌∷◌, length, Contains};
ghost use Rattle.kit_base.specs.Counts.{counts};
ghost use Rattle.asset_pack.specs.declared.kind.Kind.TheVariants as kinds;
ghost use Rattle.asset_pack.specs.Reading.{words_in};
ghost use Rattle.cart_format.specs.Cartridge.{is_cart, total};
ghost use Rattle.kit_tools.specs.Carrying.{FailsAt, GivesBy, Leaves};
ghost use Rattle.kit_tools.specs.Causes.{HasCauses, HasCausesOr, IsOwn};
ghost use Rattle.kit_tools.specs.Converting.{assembled_due, disassembled_due, made_due, migrated_due, no_words, text_words_due, convert_due};
ghost use Rattle.kit_tools.specs.Converting.{ConvertsLong};
ghost use Rattle.kit_tools.specs.Inputs.{or_refused};
ghost use Rattle.kit_tools.specs.Migration.{IsLong, in_second, second_due};

use crate::reading::{read_cart_file, read_file};
use crate::refusal::{DueRefusal, Refusal, RefusalCause};
use crate::shown::Shown;
use crate::writing::write_output;
use asm_items::{disassemble, write_asm};
use asm_reader::{AsmErr, AsmFault};
use assembler::assemble_text;
use asset_pack::{AssetErr, AssetFault, read_words, write_words};
use cart_format::{Cart, CartParts, write_cart};
use kit_base::{Files, Name, Seq};
use kit_words::Conversion;
use std::alloc::Global;

/// The cartridge in its second revision: as it is, or with an empty line table.
fn in_second(alloc: Global, cart: Cart) -> Result<Cart, Refusal>
    requires { is_cart cart ≡ true }
    ensures given { GivesBy (λ c. c) result (second_due cart) }
    ensures own { IfErr result (IsOwn (268435456 < total (in_second cart))) }
{
    if cart.revision() == 2 {
        return Ok(cart);
    }
    let CartParts {
        title,
        program,
        textures,
        sounds,
    } = cart.into_parts();
    let (files, rows) = (Vec::new(alloc), Vec::new(alloc));
    match Cart::with_lines(title, program, textures, sounds, files, rows) {
        Some(second) => Ok(second),
        None => Err(Refusal::Cause(RefusalCause::Due(DueRefusal::LongCartridge))),
    }
}

/// The bytes of the cartridge of that file, in its second revision.
#[tactic(auto, using(crate::proofs::Own::own_fails, crate::proofs::Own::own_cause, crate::proofs::Own::wider_causes))]
fn migrated<F: Files>(alloc: Global, files: &mut F, cart: &str) -> Result<Vec<u8>, Refusal>
    ensures held { F.held files.new ≡ F.held files.old }
    ensures told { IfSome (F.held files.old) (λ m. GivesBy (λ v. v.items) result (migrated_due cart.now m)) }
    ensures fails { IfErr result (FailsAt (cart.now ∷ [])) }
    ensures causes { HasCausesOr (IsLong cart.now (F.held files.old)) result (counts F.faults F.misses F.overs files.old)
        (counts F.faults F.misses F.overs files.new) }
{
    let read = read_cart_file(alloc, files, cart)?;
    let second = in_second(alloc, read)?;
    let bytes = write_cart(alloc, &second)?;
    Ok(bytes)
}

/// The words of an assembly text of that name.
#[tactic(auto, using(crate::proofs::Texts::text_words, crate::proofs::Texts::text_refused))]
fn words_of_text(alloc: Global, name: &str, text: &[u8]) -> Result<Seq<u32>, Refusal>
    ensures given { GivesBy (λ w. w) result (text_words_due name.now text.now) }
    ensures own { IfErr result (IsOwn ⊥) }
    ensures few { IfOk result (λ w. length w ≤ 33554432) }
{
    match assemble_text(alloc, text) {
        Ok(words) => Ok(words),
        Err(AsmErr::Cause(AsmFault { code, at })) => {
            let name = Name::new(alloc, name)?;
            Err(Refusal::Cause(RefusalCause::Due(DueRefusal::Bad {
                code,
                name,
                line: Some(at),
            })))
        }
        Err(AsmErr::Memory) => Err(Refusal::Memory),
    }
}

/// The words file of the assembly text of that file.
#[tactic(auto, using(crate::proofs::Own::own_fails, crate::proofs::Own::own_cause))]
fn assembled<F: Files>(alloc: Global, files: &mut F, text: &str) -> Result<Vec<u8>, Refusal>
    ensures held { F.held files.new ≡ F.held files.old }
    ensures told { IfSome (F.held files.old) (λ m. GivesBy (λ v. v.items) result (assembled_due text.now m)) }
    ensures fails { IfErr result (FailsAt (text.now ∷ [])) }
    ensures causes { HasCauses result (counts F.faults F.misses F.overs files.old) (counts F.faults F.misses F.overs files.new) }
{
    let bytes = read_file(alloc, files, text)?;
    let words = words_of_text(alloc, text, &bytes)?;
    let file = write_words(alloc, words.as_slice())?;
    Ok(file)
}

/// The words of that words file.
fn words_of_file(alloc: Global, name: &str, bytes: &[u8]) -> Result<Vec<u32>, Refusal>
    ensures given { GivesBy (λ v. v.items) result (or_refused (no_words name.now) (words_in kinds.Words bytes.now)) }
    ensures own { IfErr result (IsOwn ⊥) }
{
    match read_words(alloc, bytes) {
        Ok(words) => Ok(words),
        Err(AssetErr::Cause(AssetFault { code })) => {
            let name = Name::new(alloc, name)?;
            Err(Refusal::Cause(RefusalCause::Due(DueRefusal::Bad {
                code,
                name,
                line: None,
            })))
        }
        Err(AssetErr::Memory) => Err(Refusal::Memory),
    }
}

/// The assembly text of the words file of that name.
#[tactic(auto, using(crate::proofs::Own::own_fails, crate::proofs::Own::own_cause))]
fn disassembled<F: Files>(alloc: Global, files: &mut F, words: &str) -> Result<Vec<u8>, Refusal>
    ensures held { F.held files.new ≡ F.held files.old }
    ensures told { IfSome (F.held files.old) (λ m. GivesBy (λ v. v.items) result (disassembled_due words.now m)) }
    ensures fails { IfErr result (FailsAt (words.now ∷ [])) }
    ensures causes { HasCauses result (counts F.faults F.misses F.overs files.old) (counts F.faults F.misses F.overs files.new) }
{
    let bytes = read_file(alloc, files, words)?;
    let list = words_of_file(alloc, words, &bytes)?;
    let items = disassemble(alloc, &list)?;
    let text = write_asm(alloc, &items)?;
    Ok(text)
}

/// What is made of that file.
#[tactic(auto, using(crate::proofs::Conversions::migrated_causes, crate::proofs::Conversions::other_causes))]
fn made<F: Files>(
    alloc: Global,
    files: &mut F,
    conversion: Conversion,
    source: &str,
) -> Result<Vec<u8>, Refusal>
    ensures held { F.held files.new ≡ F.held files.old }
    ensures told { IfSome (F.held files.old) (λ m. GivesBy (λ v. v.items) result (made_due conversion source.now m)) }
    ensures fails { IfErr result (FailsAt (source.now ∷ [])) }
    ensures causes { HasCausesOr (ConvertsLong conversion source.now (F.held files.old)) result (counts F.faults F.misses F.overs files.old)
        (counts F.faults F.misses F.overs files.new) }
{
    match conversion {
        Conversion::Migrate => migrated(alloc, files, source),
        Conversion::Assemble => assembled(alloc, files, source),
        Conversion::Disassemble => disassembled(alloc, files, source),
    }
}

/// `migrate cart migrated`, `asm text words`, `dis words text`. There is no text to put after it.
#[tactic(auto, using(crate::proofs::Own::wider_causes))]
pub fn convert_command<F: Files>(
    alloc: Global,
    files: &mut F,
    conversion: Conversion,
    source: &str,
    target: &str,
) -> Result<Shown, Refusal>
    ensures told { IfSome (F.held files.old) (λ m. Leaves result (convert_due conversion source.now target.now m) (Contains (source.now ∷ [])) m
        (F.held files.new)) }
    ensures causes { HasCausesOr (ConvertsLong conversion source.now (F.held files.old)) result (counts F.faults F.misses F.overs files.old)
        (counts F.faults F.misses F.overs files.new) }
{
    let bytes = made(alloc, files, conversion, source)?;
    write_output(alloc, files, target, &bytes)?;
    Ok(Shown::Nothing)
}
