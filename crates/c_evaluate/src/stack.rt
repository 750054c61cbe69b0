// The frames that wait.
ghost use Rattle.std.specs.Prelude.{◌≡◌, ◌∷◌, [], OnOk, MatchOption, IfSome, IfNone};
ghost use Rattle.c_evaluate.specs.inner.FocusView.{frame, stack_of};

use crate::frame::Frame;
use std::alloc::AllocError;

#[inline(always)]
#[tactic(auto, using(crate::proofs::Stacks::pushed))]
pub(crate) fn push<'a>(stack: &mut Vec<Frame<'a>>, f: Frame<'a>) -> Result<(), AllocError>
    ensures { OnOk result (stack_of stack.new.items ≡ frame f.entry ∷ stack_of stack.old.items) }
{
    stack.push(f)?;
    Ok(())
}

#[inline(always)]
#[tactic(auto, using(crate::proofs::Stacks::pushed, crate::proofs::Stacks::none_left))]
pub(crate) fn pop<'a>(stack: &mut Vec<Frame<'a>>) -> Option<Frame<'a>>
    ensures { MatchOption result ((stack_of stack.old.items ≡ []) × (stack_of stack.new.items ≡ [])) (λ f. stack_of stack.old.items ≡ frame f
        ∷ stack_of stack.new.items) }
{
    match stack.pop() {
        None => None,
        Some(f) => Some(f),
    }
}

/// The first of some things, and the rest.
#[inline(always)]
pub(crate) fn next<T>(xs: &[T]) -> Option<(&T, &[T])>
    ensures some { IfSome result (λ x. xs.now ≡ x.0.now ∷ x.1.now) }
    ensures none { IfNone result (xs.now ≡ []) }
{
    xs.split_first()
}
