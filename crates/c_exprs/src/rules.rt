// The rules of types, asked at nodes.
ghost use Rattle.std.specs.Prelude.{◌≡◌, map};
ghost use Rattle.c_types.specs.View.{ctype, layout};
ghost use Rattle.c_rules.specs.Rules.{judged};
ghost use Rattle.c_rules.specs.Nodes.{unary_rule, binary_rule, assign_rule, compound_rule, step_rule, index_rule, cast_rule, size_rule, array_rule};
ghost use Rattle.c_exprs.specs.Faults.{at_node};
ghost use Rattle.c_exprs.specs.Nodes.{value_rule};
ghost use Rattle.kit_base.specs.Gives.{Gives};

use crate::error::{CheckErr, at_node, placed};
use crate::names::Globals;
use c_rules::{
    Code, Counted, array_type, assign_type, binary_type, cast_type, compound_type, fits,
    index_type, is_whole, step_type, type_size, unary_type,
};
use c_tree::{BinOp, Span, StepOp, UnOp};
use c_types::{CType, Layout, is_structure};
use std::alloc::Global;

/// Whether the value of a type may be asked for: that of a structure or union where it is declared whole and has at most 4,096
/// words, any other.
#[tactic(auto, unfolding(crate::specs::Nodes::value_rule))]
pub fn check_value(layouts: &[Layout], whole: &[bool], ty: &CType) -> Result<(), Code>
    ensures judged { result ≡ judged (value_rule (map layout layouts.now) whole.now (ctype ty.now)) }
{
    if !is_structure(ty) {
        return Ok(());
    }
    if !is_whole(whole, ty) {
        return Err(Code::InfiniteType);
    }
    if fits(layouts, 4_096, ty) {
        Ok(())
    } else {
        Err(Code::TooLarge)
    }
}

#[tactic(auto, unfolding(crate::specs::Faults::at_node))]
pub(crate) fn value_at(globals: &Globals, span: Span, ty: &CType) -> Result<(), CheckErr>
    ensures { Gives (λ x. x) result (at_node span (value_rule (map layout globals.now.layouts.items) globals.now.whole.items (ctype ty.now))) }
{
    placed(span, check_value(&globals.layouts, &globals.whole, ty))
}

#[tactic(auto, using(crate::proofs::Placing::given_at))]
pub(crate) fn unary_at(
    alloc: Global,
    span: Span,
    op: UnOp,
    ty: &CType,
    place: bool,
) -> Result<CType, CheckErr>
    ensures { Gives ctype result (at_node span (unary_rule op (ctype ty.now) place)) }
{
    at_node(span, unary_type(alloc, op, ty, place))
}

#[tactic(auto, using(crate::proofs::Placing::given_at))]
pub(crate) fn binary_at(
    alloc: Global,
    globals: &Globals,
    span: Span,
    op: BinOp,
    a: &CType,
    b: &CType,
) -> Result<CType, CheckErr>
    ensures { Gives ctype result (at_node span (binary_rule globals.now.whole.items op (ctype a.now) (ctype b.now))) }
{
    at_node(span, binary_type(alloc, &globals.whole, op, a, b))
}

#[tactic(auto, using(crate::proofs::Placing::given_at))]
pub(crate) fn assign_at(
    globals: &Globals,
    span: Span,
    to: &CType,
    place: bool,
    from: &CType,
) -> Result<CType, CheckErr>
    ensures { Gives ctype result (at_node span (assign_rule (map layout globals.now.layouts.items) globals.now.whole.items (ctype to.now) place
        (ctype from.now))) }
{
    let answer = assign_type(&globals.layouts, &globals.whole, to, place, from);
    at_node(span, answer)
}

#[tactic(auto, using(crate::proofs::Placing::given_at))]
pub(crate) fn compound_at(
    alloc: Global,
    globals: &Globals,
    span: Span,
    op: BinOp,
    to: &CType,
    place: bool,
    from: &CType,
) -> Result<CType, CheckErr>
    ensures { Gives ctype result (at_node span (compound_rule globals.now.whole.items op (ctype to.now) place (ctype from.now))) }
{
    at_node(
        span,
        compound_type(alloc, &globals.whole, op, to, place, from),
    )
}

#[tactic(auto, using(crate::proofs::Placing::given_at))]
pub(crate) fn step_at(
    alloc: Global,
    globals: &Globals,
    span: Span,
    op: StepOp,
    to: &CType,
    place: bool,
) -> Result<CType, CheckErr>
    ensures { Gives ctype result (at_node span (step_rule globals.now.whole.items op (ctype to.now) place)) }
{
    at_node(span, step_type(alloc, &globals.whole, op, to, place))
}

#[tactic(auto, using(crate::proofs::Placing::given_at))]
pub(crate) fn index_at(
    globals: &Globals,
    span: Span,
    a: &CType,
    b: &CType,
) -> Result<CType, CheckErr>
    ensures { Gives ctype result (at_node span (index_rule globals.now.whole.items (ctype a.now) (ctype b.now))) }
{
    at_node(span, index_type(&globals.whole, a, b))
}

#[tactic(auto, using(crate::proofs::Placing::given_at))]
pub(crate) fn cast_at(span: Span, from: &CType, to: &CType) -> Result<CType, CheckErr>
    ensures { Gives ctype result (at_node span (cast_rule (ctype from.now) (ctype to.now))) }
{
    at_node(span, cast_type(from, to))
}

#[tactic(auto, unfolding(crate::specs::Faults::at_node))]
pub(crate) fn size_at(globals: &Globals, span: Span, ty: CType) -> Result<u32, CheckErr>
    ensures { Gives (λ x. x) result (at_node span (size_rule (map layout globals.now.layouts.items) globals.now.whole.items (ctype ty))) }
{
    placed(span, type_size(&globals.layouts, &globals.whole, &ty))
}

#[tactic(auto, using(crate::proofs::Placing::given_at))]
pub(crate) fn array_at(
    alloc: Global,
    globals: &Globals,
    span: Span,
    of: Counted,
    count: u32,
) -> Result<Counted, CheckErr>
    ensures { Gives (λ r. ctype r.ty) result (at_node span (array_rule (map layout globals.now.layouts.items) globals.now.whole.items (ctype of.ty) count)) }
{
    let answer = array_type(alloc, &globals.layouts, &globals.whole, of, count);
    at_node(span, answer)
}
