// The stack of the open scopes; the innermost is the last.
ghost use Rattle.std.specs.Prelude.{◌≡◌, true, not, is_some, map, OnOk, IfOk};
ghost use Rattle.c_types.specs.View.{ctype};
ghost use Rattle.c_exprs.specs.Env.{find};
ghost use Rattle.c_exprs.specs.View.{scope};
ghost use Rattle.c_stmts.specs.State.{innermost, closed, declare};

use c_exprs::{Local, Scope};
use c_types::CType;
use kit_base::{Memory, Name};
use std::alloc::Global;

/// The innermost scope, taken out; an empty one where none is open.
#[tactic(auto, using(crate::proofs::Stack::stack_steps))]
fn take_inner(alloc: Global, scopes: &mut Vec<Scope>) -> Scope
    ensures inner { scope result ≡ innermost (map scope scopes.old.items) }
    ensures outer { map scope scopes.new.items ≡ closed (map scope scopes.old.items) }
{
    match scopes.pop() {
        Some(scope) => scope,
        None => Scope::new(alloc),
    }
}

/// Closes the innermost scope, and gives the numbers of its objects. The error is want of memory.
pub(crate) fn close(alloc: Global, scopes: &mut Vec<Scope>) -> Result<Vec<u32>, Memory>
    ensures made { IfOk result (λ r. r.items ≡ map (λ e. e.1.number) (innermost (map scope scopes.old.items))) }
    ensures outer { map scope scopes.new.items ≡ closed (map scope scopes.old.items) }
{
    let inner = take_inner(alloc, scopes);
    inner.numbers(alloc)
}

/// Whether the innermost scope does not have the name.
pub(crate) fn is_new(name: &Name, scopes: &[Scope]) -> bool
    ensures new { result ≡ not (is_some (find name.now (innermost (map scope scopes.now)))) }
{
    match scopes.last() {
        Some(inner) => inner.find(name).is_none(),
        None => true,
    }
}

/// Declares an object in the innermost scope, which does not have its name yet. The error is want of memory.
pub(crate) fn declare(
    alloc: Global,
    scopes: &mut Vec<Scope>,
    name: &Name,
    number: u32,
    ty: CType,
) -> Result<(), Memory>
    requires new { not (is_some (find name.now (innermost (map scope scopes.old.items)))) ≡ true }
    ensures declared { OnOk result (map scope scopes.new.items ≡ declare name.now (record { number = number; ty = ctype ty }) (map scope scopes.old.items)) }
{
    let name = name.copy()?;
    let mut inner = take_inner(alloc, scopes);
    inner.add(name, Local { number, ty })?;
    scopes.push(inner)?;
    Ok(())
}
