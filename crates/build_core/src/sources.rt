// A project's source, read and typed.
ghost use Rattle.std.specs.Prelude.{◌≡◌, ◌≤◌, IfOk, IfErr, IfSome, IsUtf8, length};
ghost use Rattle.kit_base.specs.Counts.{counts};
ghost use Rattle.c_tree.specs.View.{unit};
ghost use Rattle.c_check.specs.Whole.{WellTyped};
ghost use Rattle.c_types.specs.Programs.{ProgramT};
ghost use Rattle.build_core.specs.Fronts.{AcceptsSource, IsCheckedOf};
ghost use Rattle.build_core.specs.Causes.{HasReadCauses};
ghost use Rattle.build_core.specs.Checked.{IsOfRules, MissesOnly};
ghost use Rattle.build_core.specs.Gathered.{IsRead, ReadsSource, TypesSource};
ghost use Rattle.build_core.specs.Reached.{FailsAt};
ghost use Rattle.build_core.specs.Starts.{starts_of};
ghost use Rattle.c_front.specs.Causes.{IsWithin};
ghost use Rattle.c_front.specs.Over.{over};
ghost use Rattle.c_front.specs.Reached.{IsReadFor};

use crate::checked::Checked;
use crate::checking::{typed, unread};
use crate::error::BuildErr;
use c_facts::laws::functions_are_bodies;
use c_front::{Parsed, Places, read_unit};
use c_tree::{Item, Unit};
use kit_base::{Memory, Name, Reads};
use std::alloc::Global;

/// How many tokens there are.
pub fn token_count(places: &Places) -> u32
    requires few { length places.now.tokens ≤ 200000 }
    ensures { result ≡ length places.now.tokens }
{
    places.tokens.as_slice().len() as u32
}

/// The number of the first token of each function's definition.
fn starts_of(alloc: Global, parsed: &Unit) -> Result<Vec<u32>, Memory>
    ensures { IfOk result (λ v. v.items ≡ starts_of (unit parsed.now)) }
{
    let mut starts = Vec::new(alloc);
    'each: for item in parsed.items.as_slice() {
        match item {
            Item::Function {
                body: Some(_),
                span,
                ..
            } => starts.push(span.first)?,
            Item::Function { body: None, .. }
            | Item::Record { .. }
            | Item::Enum { .. }
            | Item::Typedef(..)
            | Item::Vars(..) => {}
        }
    }
    Ok(starts)
}

/// The typed program of a unit, with the places of its tokens.
fn source_of(alloc: Global, parsed: Parsed) -> Result<Checked, BuildErr>
    requires within { IsWithin parsed }
    requires read { IsRead parsed }
    ensures typed { TypesSource parsed result }
    ensures only { (p : ProgramT) → WellTyped (unit parsed.unit) p → IsCheckedOf p result }
    ensures content { IfErr result IsOfRules }
{
    functions_are_bodies();
    let program = match typed(alloc, &parsed) {
        Ok(program) => program,
        Err(refusal) => return Err(refusal),
    };
    let starts = match starts_of(alloc, &parsed.unit) {
        Ok(starts) => starts,
        Err(_) => return Err(BuildErr::Memory),
    };
    Ok(Checked {
        program,
        places: parsed.places,
        starts,
    })
}

/// The source of that name, read and typed.
#[tactic(auto, using(crate::proofs::Starting::is_read))]
pub fn read_source<F: Reads>(alloc: Global, files: &mut F, name: &Name) -> Result<Checked, BuildErr>
    requires { IsUtf8 name.now }
    ensures held { F.held files.new ≡ F.held files.old }
    ensures told { IfSome (F.held files.old) (λ m. ReadsSource m name.now result) }
    ensures reached { IfSome (F.held files.old) (λ m. FailsAt (IsReadFor (over m) name.now) result) }
    ensures accepts { IfSome (F.held files.old) (λ m. AcceptsSource m name.now result) }
    ensures kinds { IfErr result (MissesOnly name.now) }
    ensures causes { HasReadCauses result (counts F.faults F.misses F.overs files.old) (counts F.faults F.misses F.overs files.new) }
{
    match read_unit(alloc, files, name.as_str()) {
        Ok(parsed) => source_of(alloc, parsed),
        Err(error) => Err(unread(error)),
    }
}
