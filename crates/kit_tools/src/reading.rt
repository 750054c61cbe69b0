// Reading the files that a command names.
ghost use Rattle.std.specs.Prelude.{◌≡◌, ◌≤◌, true, [], ◌∷◌, length, Some, IfSome, IfOk, IfErr};
ghost use Rattle.std.specs.Option.{option_map, ForSome};
ghost use Rattle.line_text.specs.Lines.{lines_of};
ghost use Rattle.line_text.specs.Reading.{read_from};
ghost use Rattle.run_files.specs.Answers.{answer_step};
ghost use Rattle.cpu_core.specs.Space.{words_of};
ghost use Rattle.kit_tools.specs.Tracing.{card_names};
ghost use Rattle.cart_format.specs.Cartridge.{is_cart};
ghost use Rattle.cart_format.specs.Reading.{cart_of};
ghost use Rattle.kit_base.specs.Outside.{due};
ghost use Rattle.kit_base.specs.Counts.{counts};
ghost use Rattle.kit_tools.specs.Carrying.{GivesBy, FailsAt};
ghost use Rattle.kit_tools.specs.Causes.{HasCauses, IsOwn};
ghost use Rattle.kit_tools.specs.Inputs.{answers_due, card_due, card_in, cart_due, no_answers, no_cart, or_refused, unread};

use crate::refusal::{DueRefusal, Refusal, RefusalCause, no_cart, unread};
use cart_format::{Cart, CartErr, read_cart};
use kit_base::{FileErr, Files, Name};
use run_files::{AnswerErr, CardErr, read_answers, read_card};
use std::alloc::Global;

/// The bytes of a file that a word names.
pub fn read_file<F: Files>(alloc: Global, files: &mut F, name: &str) -> Result<Vec<u8>, Refusal>
    ensures held { F.held files.new ≡ F.held files.old }
    ensures told { IfSome (F.held files.old) (λ m. GivesBy (λ v. v.items) result (or_refused (unread name.now) (due m name.now))) }
    ensures limit { IfOk result (λ v. length v.items ≤ 268435456) }
    ensures fails { IfErr result (FailsAt (name.now ∷ [])) }
    ensures causes { HasCauses result (counts F.faults F.misses F.overs files.old) (counts F.faults F.misses F.overs files.new) }
{
    match files.read(alloc, name) {
        Ok(bytes) => Ok(bytes),
        Err(FileErr::Memory) => Err(Refusal::Memory),
        Err(error) => {
            let name = Name::new(alloc, name)?;
            Err(unread(name, error))
        }
    }
}

/// The cartridge of that text.
fn cart_of_text(alloc: Global, name: &str, text: &[u8]) -> Result<Cart, Refusal>
    ensures given { GivesBy (λ c. c) result (or_refused (no_cart name.now) (cart_of text.now)) }
    ensures limits { IfOk result (λ c. is_cart c ≡ true) }
    ensures own { IfErr result (IsOwn ⊥) }
{
    match read_cart(alloc, text) {
        Ok(cart) => Ok(cart),
        Err(CartErr::Memory) => Err(Refusal::Memory),
        Err(CartErr::Cause(fault)) => {
            let own = Name::new(alloc, name)?;
            Err(no_cart(own, fault))
        }
    }
}

/// The cartridge of a file that a word names.
#[tactic(auto, using(crate::proofs::Own::own_fails, crate::proofs::Own::own_cause))]
pub fn read_cart_file<F: Files>(alloc: Global, files: &mut F, name: &str) -> Result<Cart, Refusal>
    ensures held { F.held files.new ≡ F.held files.old }
    ensures told { IfSome (F.held files.old) (λ m. GivesBy (λ c. c) result (cart_due name.now m)) }
    ensures fails { IfErr result (FailsAt (name.now ∷ [])) }
    ensures causes { HasCauses result (counts F.faults F.misses F.overs files.old) (counts F.faults F.misses F.overs files.new) }
    ensures limits { IfOk result (λ c. is_cart c ≡ true) }
{
    let text = read_file(alloc, files, name)?;
    cart_of_text(alloc, name, &text)
}

/// The answers of that text.
fn answers_of_text(alloc: Global, name: &str, text: &[u8]) -> Result<Vec<u32>, Refusal>
    requires { length text.now ≤ 268435456 }
    ensures given { GivesBy (λ v. v.items) result (or_refused (no_answers name.now) (read_from answer_step 1 [] (lines_of text.now))) }
    ensures own { IfErr result (IsOwn ⊥) }
{
    match read_answers(alloc, text) {
        Ok(answers) => Ok(answers),
        Err(AnswerErr::At { line }) => {
            let own = Name::new(alloc, name)?;
            Err(Refusal::Cause(RefusalCause::Due(DueRefusal::Bad {
                code: 111,
                name: own,
                line: Some(u64::from(line)),
            })))
        }
        Err(AnswerErr::Memory) => Err(Refusal::Memory),
    }
}

/// The answers of a file that a word names.
#[tactic(auto, using(crate::proofs::Own::own_fails, crate::proofs::Own::own_cause))]
pub fn read_answers_file<F: Files>(
    alloc: Global,
    files: &mut F,
    name: &str,
) -> Result<Vec<u32>, Refusal>
    ensures held { F.held files.new ≡ F.held files.old }
    ensures told { IfSome (F.held files.old) (λ m. GivesBy (λ v. v.items) result (answers_due name.now m)) }
    ensures fails { IfErr result (FailsAt (name.now ∷ [])) }
    ensures causes { HasCauses result (counts F.faults F.misses F.overs files.old) (counts F.faults F.misses F.overs files.new) }
{
    let text = read_file(alloc, files, name)?;
    answers_of_text(alloc, name, &text)
}

/// The words of the card of those bytes.
fn card_of_bytes(alloc: Global, name: &str, bytes: &[u8]) -> Result<Vec<u32>, Refusal>
    requires { length bytes.now ≤ 268435456 }
    ensures given { GivesBy (λ v. v.items) result (card_in name.now bytes.now) }
    ensures own { IfErr result (IsOwn ⊥) }
    ensures room { IfOk result (λ v. length v.items ≡ 0x40000) }
{
    match read_card(alloc, bytes) {
        Ok(words) => Ok(words),
        Err(CardErr::At { code }) => {
            let name = Name::from_bytes(alloc, name.as_bytes())?;
            Err(Refusal::Cause(RefusalCause::Due(DueRefusal::Bad {
                code,
                name,
                line: None,
            })))
        }
        Err(CardErr::Memory) => Err(Refusal::Memory),
    }
}

/// The words of the card file that a word names.
#[tactic(auto, using(crate::proofs::Own::own_fails, crate::proofs::Own::own_cause))]
fn read_named_card<F: Files>(alloc: Global, files: &mut F, name: &str) -> Result<Vec<u32>, Refusal>
    ensures held { F.held files.new ≡ F.held files.old }
    ensures told { IfSome (F.held files.old) (λ m. GivesBy (λ v. Some v.items) result (card_due (Some name.now) m)) }
    ensures fails { IfErr result (FailsAt (name.now ∷ [])) }
    ensures causes { HasCauses result (counts F.faults F.misses F.overs files.old) (counts F.faults F.misses F.overs files.new) }
    ensures room { IfOk result (λ v. length v.items ≡ 0x40000) }
{
    let bytes = read_file(alloc, files, name)?;
    card_of_bytes(alloc, name, &bytes)
}

/// The words of the card file, where a word names one.
pub fn read_card_file<F: Files>(
    alloc: Global,
    files: &mut F,
    name: Option<&str>,
) -> Result<Option<Vec<u32>>, Refusal>
    ensures held { F.held files.new ≡ F.held files.old }
    ensures told { IfSome (F.held files.old) (λ m. GivesBy words_of result (card_due (option_map (λ word. word.now) name.entry) m)) }
    ensures fails { IfErr result (FailsAt (card_names (option_map (λ word. word.now) name.entry))) }
    ensures causes { HasCauses result (counts F.faults F.misses F.overs files.old) (counts F.faults F.misses F.overs files.new) }
    ensures room { IfOk result (λ card. ForSome card (λ v. length v.items ≡ 0x40000)) }
{
    match name {
        None => Ok(None),
        Some(name) => match read_named_card(alloc, files, name) {
            Ok(words) => Ok(Some(words)),
            Err(refusal) => Err(refusal),
        },
    }
}
