// The trees of names and members, and types by name.
ghost use Rattle.std.specs.Prelude.{◌≡◌, map, option_map, slice_get, IfOk};
ghost use Rattle.c_types.specs.Types.{ArrayY, IntY};
ghost use Rattle.c_types.specs.Typed.{Typed, MemberK, ArrowK};
ghost use Rattle.c_types.specs.View.{ctype, layout, named, texpr};
ghost use Rattle.c_types.specs.Kinds.{decayed, pointed};
ghost use Rattle.kit_base.specs.declared.failure.Failure.TheVariants.{Cause};
ghost use Rattle.c_exprs.specs.Faults.{at, placed};
ghost use Rattle.c_exprs.specs.Nodes.{name_tree, named_type, layout_of, layout_behind, member_in, member_at, arrow_at, type_of_typed};
ghost use Rattle.c_exprs.specs.View.{ctx};
ghost use Rattle.kit_base.specs.Gives.{Gives};

use crate::error::{CheckErr, Fault, keeping};
use crate::intrinsics::is_intrinsic;
use crate::names::{Decl, Globals, Scope, find_local};
use crate::nodes::is_place;
use c_rules::{Code, Counted, copy_counted, is_array};
use c_tree::Span;
use c_types::{CType, Layout, Member, TExpr, TKind, copy_type};
use kit_base::Name;
use std::alloc::Global;

/// The code at a node of this span.
pub(crate) fn refused(span: Span, code: Code) -> CheckErr
    ensures { result ≡ Cause (at span code) }
{
    CheckErr::Cause(Fault { code, span })
}

pub(crate) fn node(kind: TKind, ty: CType, span: Span) -> TExpr
    ensures { result ≡ record { kind = kind; ty = ty; span = span } }
{
    TExpr { kind, ty, span }
}

#[tactic(auto, unfolding(crate::specs::Nodes::name_tree))]
pub(crate) fn name_tree(
    globals: &Globals,
    scopes: &[Scope],
    name: &Name,
    span: Span,
) -> Result<TExpr, CheckErr>
    ensures { Gives texpr result (placed span (name_tree (ctx globals.now scopes.now) name.now span)) }
{
    if let Some(local) = find_local(name, scopes) {
        let ty = copy_type(&local.ty)?;
        return Ok(node(TKind::Local(local.number), ty, span));
    }
    match globals.find(name) {
        Some(Decl::Alias(_)) => Err(refused(span, Code::Twice)),
        Some(Decl::Constant(n)) => Ok(node(TKind::Number(*n), CType::Int, span)),
        Some(Decl::Object(number, ty)) => {
            let ty = copy_type(ty)?;
            Ok(node(TKind::Global(*number), ty, span))
        }
        Some(Decl::Function(_, _)) => Err(refused(span, Code::WrongType)),
        None => {
            if is_intrinsic(name.bytes()) {
                Err(refused(span, Code::WrongType))
            } else {
                Err(refused(span, Code::UnknownName))
            }
        }
    }
}

#[tactic(auto, unfolding(crate::specs::Nodes::named_type))]
pub(crate) fn named_type(
    globals: &Globals,
    scopes: &[Scope],
    name: &Name,
    span: Span,
) -> Result<Counted, CheckErr>
    ensures { Gives (λ r. ctype r.ty) result (placed span (named_type (ctx globals.now scopes.now) name.now)) }
{
    match globals.find(name) {
        Some(Decl::Alias(counted)) => Ok(copy_counted(counted)?),
        Some(Decl::Constant(_)) => Err(refused(span, Code::Twice)),
        Some(Decl::Object(_, _)) => Err(refused(span, Code::Twice)),
        Some(Decl::Function(_, _)) => Err(refused(span, Code::Twice)),
        None => Err(refused(span, Code::UnknownName)),
    }
}

fn layout_numbered(layouts: &[Layout], number: u32) -> Option<&Layout>
    ensures { option_map (λ l. layout l.now) result ≡ slice_get (map layout layouts.now) number }
{
    layouts.get(number as usize)
}

fn layout_of<'a>(layouts: &'a [Layout], ty: &CType) -> Option<&'a Layout>
    ensures { option_map (λ l. layout l.now) result ≡ layout_of (map layout layouts.now) (ctype ty.now) }
{
    match ty {
        CType::Struct(number) => layout_numbered(layouts, *number),
        CType::Union(number) => layout_numbered(layouts, *number),
        CType::Void
        | CType::Int
        | CType::Bool
        | CType::Enum(_)
        | CType::Pointer(_)
        | CType::Array(_, _) => None,
    }
}

/// The layout of what a pointer, or an array's value, leads to.
fn layout_behind<'a>(layouts: &'a [Layout], ty: &CType) -> Option<&'a Layout>
    ensures { option_map (λ l. layout l.now) result ≡ layout_behind (map layout layouts.now) (pointed (decayed (ctype ty.now))) }
{
    match ty {
        CType::Pointer(to) => layout_of(layouts, to.ty()),
        CType::Array(of, _) => layout_of(layouts, of.ty()),
        CType::Void
        | CType::Int
        | CType::Bool
        | CType::Enum(_)
        | CType::Struct(_)
        | CType::Union(_) => None,
    }
}

/// The member of that name.
fn member_in<'a>(found: Option<&'a Layout>, name: &Name, span: Span) -> Result<&'a Member, CheckErr>
    ensures { Gives (λ m. named name.now m.now) result (placed span (member_in name.now (option_map (λ l. layout l.now) found.entry))) }
{
    let Some(one) = found else {
        return Err(refused(span, Code::WrongType));
    };
    match one.member(name) {
        Some(member) => Ok(member),
        None => Err(refused(span, Code::UnknownName)),
    }
}

/// The offset and the type of `x.name`, whose tree is made of them.
fn member_of(
    layouts: &[Layout],
    x: &TExpr,
    name: &Name,
    span: Span,
) -> Result<(u32, CType), CheckErr>
    ensures { Gives (λ r. Typed (MemberK (texpr x.now) r.0) (ctype r.1) span) result
        (placed span (member_at span (texpr x.now) (member_in name.now (layout_of (map layout layouts.now) (type_of_typed (texpr x.now)))))) }
{
    let member = member_in(layout_of(layouts, &x.ty), name, span)?;
    if !is_place(x) && is_array(&member.ty) {
        return Err(refused(span, Code::NotAPlace));
    }
    let ty = copy_type(&member.ty)?;
    Ok((member.offset, ty))
}

/// The tree of `x.name`.
pub(crate) fn member_tree(
    alloc: Global,
    layouts: &[Layout],
    x: TExpr,
    name: &Name,
    span: Span,
) -> Result<TExpr, CheckErr>
    ensures { Gives texpr result (placed span (member_at span (texpr x) (member_in name.now (layout_of (map layout layouts.now) (type_of_typed (texpr x)))))) }
{
    let found = member_of(layouts, &x, name, span);
    let (x, (offset, ty)) = keeping(x, found)?;
    let (ty, x) = keeping(ty, Box::new(alloc, x))?;
    Ok(node(TKind::Member(x, offset), ty, span))
}

/// The offset and the type of `x->name`, whose tree is made of them.
fn arrow_of(
    layouts: &[Layout],
    x: &TExpr,
    name: &Name,
    span: Span,
) -> Result<(u32, CType), CheckErr>
    ensures { Gives (λ r. Typed (ArrowK (texpr x.now) r.0) (ctype r.1) span) result
        (placed span (arrow_at span (texpr x.now)
        (member_in name.now (layout_behind (map layout layouts.now) (pointed (decayed (type_of_typed (texpr x.now)))))))) }
{
    let member = member_in(layout_behind(layouts, &x.ty), name, span)?;
    let ty = copy_type(&member.ty)?;
    Ok((member.offset, ty))
}

/// The tree of `x->name`.
pub(crate) fn arrow_tree(
    alloc: Global,
    layouts: &[Layout],
    x: TExpr,
    name: &Name,
    span: Span,
) -> Result<TExpr, CheckErr>
    ensures { Gives texpr result (placed span
        (arrow_at span (texpr x) (member_in name.now (layout_behind (map layout layouts.now) (pointed (decayed (type_of_typed (texpr x)))))))) }
{
    let found = arrow_of(layouts, &x, name, span);
    let (x, (offset, ty)) = keeping(x, found)?;
    let (ty, x) = keeping(ty, Box::new(alloc, x))?;
    Ok(node(TKind::Arrow(x, offset), ty, span))
}
