// The items of a unit.
ghost use Rattle.std.specs.Prelude.{◌≡◌, ℕ, ◌+◌, ◌≤◌, map, option_map, Some, None, length};
ghost use Rattle.c_tree.specs.Count.{item_nodes, unit_nodes};
ghost use Rattle.c_tree.specs.Tree.{RecordD, EnumD, TypedefD, VarsD};
ghost use Rattle.c_tree.specs.View.{expr, item, type, var};
ghost use Rattle.kit_base.specs.Gives.{Gives};
ghost use Rattle.c_check.specs.inner.ItemTyping.{item as read_by, items as all_read_by};
ghost use Rattle.c_check.specs.inner.Steps.{counted_record, spent};
ghost use Rattle.c_check.specs.View.{un};

use crate::declaring::{declare, enter_enum, enter_record, is_free, record_number};
use crate::enumerators::read_enumerators;
use crate::functions::read_function;
use crate::globals::read_objects;
use crate::members::{members_declared, read_members, set_layout};
use crate::parts::counted_at;
use crate::reading::Reading;
use c_exprs::{CheckErr, Decl, demanded, placed};
use c_rules::Code;
use c_tree::{Expr, Item, Span, TypeTree, Var};
use kit_base::Name;
use std::alloc::Global;

/// A structure or union by its name alone.
#[tactic(auto, unfolding(crate::specs::inner::ItemTyping::item))]
fn read_record_name(
    alloc: Global,
    reading: &mut Reading,
    span: Span,
    is_union: bool,
    name: &Name,
) -> Result<(), CheckErr>
    requires few { spent (un reading.old) ≤ 200000 }
    ensures { Gives (λ r. (r, un reading.new)) result (read_by (un reading.old) (RecordD is_union name.now None span)) }
{
    enter_record(alloc, reading, is_union, name)?;
    let number = record_number(reading, is_union, name);
    placed(span, number)?;
    Ok(())
}

/// A structure or union with its members, whose words are counted as far as memory holds them.
#[tactic(auto, unfolding(crate::specs::inner::Steps::counted_record))]
fn read_counted(
    alloc: Global,
    reading: &mut Reading,
    span: Span,
    is_union: bool,
    name: &Name,
    all: &[Var],
) -> Result<(), CheckErr>
    requires few { spent (un reading.old) ≤ 200000 }
    ensures { Gives (λ r. (r, un reading.new)) result (counted_record (un reading.old) is_union name.now (map var all.now) span) }
{
    enter_record(alloc, reading, is_union, name)?;
    let members = read_members(alloc, reading, is_union, all)?;
    let declared = members_declared(reading, is_union, name, &members);
    let number = placed(span, declared)?;
    set_layout(reading, number, members);
    Ok(())
}

/// A structure or union with its members.
#[tactic(auto, using(crate::proofs::Held::record_so))]
fn read_record(
    alloc: Global,
    reading: &mut Reading,
    span: Span,
    is_union: bool,
    name: &Name,
    all: &[Var],
) -> Result<(), CheckErr>
    requires few { spent (un reading.old) ≤ 200000 }
    ensures { Gives (λ r. (r, un reading.new)) result (read_by (un reading.old) (RecordD is_union name.now (Some (map var all.now)) span)) }
{
    read_counted(alloc, reading, span, is_union, name, all)
}

#[tactic(auto, unfolding(crate::specs::inner::ItemTyping::item))]
fn read_enum(
    alloc: Global,
    reading: &mut Reading,
    span: Span,
    name: &Name,
    values: &[(Name, Option<Expr>)],
) -> Result<(), CheckErr>
    requires few { spent (un reading.old) ≤ 200000 }
    ensures { Gives (λ r. (r, un reading.new)) result (read_by (un reading.old) (EnumD name.now (map (λ v. (v.0, option_map expr v.1)) values.now) span)) }
{
    let fresh = is_free(&reading.globals, name);
    enter_enum(reading, name)?;
    read_enumerators(alloc, reading, span, values)?;
    demanded(span, Code::Twice, fresh)
}

#[tactic(auto, unfolding(crate::specs::inner::ItemTyping::item))]
fn read_typedef(
    alloc: Global,
    reading: &mut Reading,
    span: Span,
    ty: &TypeTree,
    name: &Name,
) -> Result<(), CheckErr>
    ensures { Gives (λ r. (r, un reading.new)) result (read_by (un reading.old) (TypedefD (type ty.now) name.now span)) }
{
    let fresh = is_free(&reading.globals, name);
    let counted = counted_at(alloc, reading, span, ty)?;
    demanded(span, Code::Twice, fresh)?;
    declare(reading, name, Decl::Alias(counted))?;
    Ok(())
}

/// Reads an item.
fn read_item(alloc: Global, reading: &mut Reading, one: &Item) -> Result<(), CheckErr>
    requires few { spent (un reading.old) + item_nodes (item one.now) ≤ 200000 }
    ensures { Gives (λ r. (r, un reading.new)) result (read_by (un reading.old) (item one.now)) }
{
    match one {
        Item::Record {
            is_union,
            name,
            members: None,
            span,
        } => read_record_name(alloc, reading, *span, *is_union, name),
        Item::Record {
            is_union,
            name,
            members: Some(members),
            span,
        } => read_record(alloc, reading, *span, *is_union, name, members.as_slice()),
        Item::Enum { name, values, span } => {
            read_enum(alloc, reading, *span, name, values.as_slice())
        }
        Item::Typedef(ty, name, span) => read_typedef(alloc, reading, *span, ty, name),
        Item::Vars(vars, span) => read_objects(alloc, reading, *span, vars.as_slice()),
        Item::Function {
            result,
            name,
            params,
            body,
            span,
        } => read_function(alloc, reading, *span, result, name, params, body),
    }
}

/// Reads the items of a unit.
pub(crate) fn read_items(alloc: Global, reading: &mut Reading, all: &[Item]) -> Result<(), CheckErr>
    requires few { spent (un reading.old) + unit_nodes (map item all.now) ≤ 200000 }
    ensures { Gives (λ r. (r, un reading.new)) result (all_read_by (un reading.old) (map item all.now)) }
{
    for one in all {
        read_item(alloc, reading, one)?;
    }
    Ok(())
}
