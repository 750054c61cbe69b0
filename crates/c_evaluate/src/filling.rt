// Initialisers.
ghost use Rattle.std.specs.Prelude.{◌≡◌, ◌<◌, ◌+◌, ◌-◌, ◌*◌, map, length, option_map, slice_get, IfSome, IfNone};
ghost use Rattle.c_types.specs.Typed.{NoI, MoreI};
ghost use Rattle.c_types.specs.View.{ctype, tinit, tvar};
ghost use Rattle.obj_mem.specs.Queries.{further};
ghost use Rattle.c_meaning.specs.Outcomes.{nowhere};
ghost use Rattle.c_types.specs.Parts.{part_type};
ghost use Rattle.c_meaning.specs.Setting.{words};
ghost use Rattle.c_meaning.specs.Initialisers.{object_of};
ghost use Rattle.kit_base.specs.Gives.{Gives};
ghost use Rattle.c_evaluate.specs.inner.Results.{Leads};
ghost use Rattle.c_evaluate.specs.inner.FocusView.{at, items_from, stack_of};
ghost use Rattle.c_evaluate.specs.inner.SettingView.{setting_of};
ghost use Rattle.c_types.specs.View.{or_void};
ghost use Rattle.c_evaluate.specs.inner.StoreView.{store_of};
ghost use Rattle.c_evaluate.specs.inner.Storing.{one_in, text_in, rest_in};
ghost use Rattle.c_evaluate.specs.inner.Steps.{vars_of, items_of, fill};

use crate::cells::{Destination, cells, located, stored};
use crate::frame::{Focus, Frame};
use crate::operators::converted;
use crate::setting::Setting;
use crate::stack::{next, push};
use crate::stop::Stop;
use crate::store::{Store, released, spend};
use c_tree::Span;
use c_types::{CType, TInit, TVar};
use obj_mem::{Cell, Refusal, further, local_cell};

pub(crate) fn nowhere() -> Span
    ensures { result ≡ nowhere }
{
    Span { first: 0, last: 0 }
}

/// Fills a place of a type with one value.
pub(crate) fn one<'a>(
    s: &Setting<'a>,
    n: u32,
    ty: &CType,
    p: Cell,
    c: Cell,
    store: &mut Store<'a>,
) -> Result<(), Stop>
    ensures { Gives (λ _. store_of store.new) result (one_in (setting_of s.now) n (ctype ty.now) p c (store_of store.old)) }
{
    let z = located(nowhere(), converted(ty, c))?;
    let to = Destination {
        ty,
        span: nowhere(),
        place: p,
    };
    stored(s, n, 1, &to, z, store)?;
    released(store, ty, z);
    Ok(())
}

/// Copies a text, and sets the cells behind it to 0.
fn text<'a>(
    s: &Setting<'a>,
    n: u32,
    number: u32,
    size: u32,
    p: Cell,
    store: &mut Store<'a>,
) -> Result<(), Stop>
    ensures { Gives (λ _. store_of store.new) result (text_in (setting_of s.now) n number size p (store_of store.old)) }
{
    let words = s.literal_words(number) as u64;
    cells(nowhere(), 1, n, words, Some(s.literal_at(number)), p, store)?;
    cells(
        nowhere(),
        1,
        n,
        u64::from(size).saturating_sub(words),
        None,
        far_on(p, words),
        store,
    )
}

/// The pointer `words` words further on.
#[tactic(auto, using(crate::proofs::Wrapping::far_on))]
fn far_on(p: Cell, words: u64) -> Cell
    ensures { result ≡ further p words }
{
    further(p, (words % 0x1_0000_0000) as u32)
}

/// How many words the elements of an array from a number on have.
fn words_left<'a>(s: &Setting<'a>, of: &CType, len: u32, k: usize) -> u64
    ensures { result ≡ words (setting_of s.now) (ctype of.now) * (len - k) }
{
    let left = (len as usize).saturating_sub(k) as u32;
    u64::from(s.words(of)) * u64::from(left)
}

/// Sets the elements of an array from a number on to 0.
fn rest<'a>(
    s: &Setting<'a>,
    n: u32,
    ty: Option<&CType>,
    k: usize,
    p: Cell,
    store: &mut Store<'a>,
) -> Result<(), Stop>
    ensures { Gives (λ _. store_of store.new) result (rest_in (setting_of s.now) n (or_void ty.entry) k p (store_of store.old)) }
{
    let Some(one) = ty else {
        return Ok(());
    };
    match one {
        CType::Array(of, len) => cells(
            nowhere(),
            1,
            n,
            words_left(s, of.ty(), *len, k),
            None,
            p,
            store,
        ),
        CType::Void | CType::Int | CType::Bool | CType::Enum(_) => Ok(()),
        CType::Struct(_) | CType::Union(_) | CType::Pointer(_) => Ok(()),
    }
}

/// The object of a variable.
fn object_of<'a>(global: bool, number: u32, store: &Store<'a>) -> Result<Cell, Refusal>
    ensures { result ≡ object_of global number (store_of store.now) }
{
    if global {
        return Ok(Cell::Ptr {
            object: u64::from(number),
            offset: 0,
        });
    }
    local_cell(&store.locals, number as usize)
}

/// On to the next variable.
pub(crate) fn vars<'a>(
    n: u32,
    vs: &'a [TVar],
    stack: &mut Vec<Frame<'a>>,
    store: &mut Store<'a>,
) -> Result<Focus<'a>, Stop>
    ensures { Leads (λ x. at x (stack_of stack.new.items) (store_of store.new)) result
        (vars_of n (map tvar vs.now) (stack_of stack.old.items) (store_of store.old)) }
{
    match next(vs) {
        None => Ok(Focus::Full),
        Some((v, rest)) => {
            let p = located(nowhere(), object_of(v.global, v.object, store))?;
            spend(store, 1);
            push(stack, Frame::Vars(n, rest))?;
            Ok(Focus::Fill(n, &v.init, Some(&v.ty), p))
        }
    }
}

/// The words of a type, where there is one.
fn words_of<'a>(s: &Setting<'a>, ty: Option<&CType>) -> u32
    ensures { result ≡ words (setting_of s.now) (or_void ty.entry) }
{
    match ty {
        None => 0,
        Some(one) => s.words(one),
    }
}

/// The type of a part, where there is one.
fn part_of<'a>(s: &Setting<'a>, ty: Option<&'a CType>, k: usize) -> Option<&'a CType>
    ensures { or_void result ≡ part_type (setting_of s.now).layouts (or_void ty.entry) k }
{
    match ty {
        None => None,
        Some(one) => s.part_type(one, k),
    }
}

fn get_item(all: &[TInit], k: usize) -> Option<&TInit>
    ensures { option_map (λ i. i.now) result ≡ slice_get all.now k }
{
    all.get(k)
}

/// The item of a number.
#[tactic(auto, using(crate::proofs::Items::item_there, crate::proofs::Items::no_item, crate::proofs::Items::item_within))]
fn item_at(all: &[TInit], k: usize) -> Option<&TInit>
    ensures some { IfSome result (λ i. items_from all.now k ≡ MoreI (tinit i.now) (items_from all.now (k + 1))) }
    ensures none { IfNone result (items_from all.now k ≡ NoI) }
    ensures bound { IfSome result (λ _. k < length all.now) }
{
    match get_item(all, k) {
        None => None,
        Some(i) => Some(i),
    }
}

/// The items that a structure or an array of a type, where there is one, is filled in with.
#[derive(Clone, Copy)]
pub(crate) struct ItemList<'a> {
    pub(crate) items: &'a [TInit],
    pub(crate) ty: Option<&'a CType>,
}

/// On to the item of a number.
pub(crate) fn items<'a>(
    s: &Setting<'a>,
    n: u32,
    of: &ItemList<'a>,
    k: usize,
    p: Cell,
    stack: &mut Vec<Frame<'a>>,
    store: &mut Store<'a>,
) -> Result<Focus<'a>, Stop>
    ensures { Leads (λ x. at x (stack_of stack.new.items) (store_of store.new)) result
        (items_of (setting_of s.now) n (items_from of.now.items.now k) (or_void of.now.ty) k p (stack_of stack.old.items) (store_of store.old)) }
{
    match item_at(of.items, k) {
        None => {
            rest(s, n, of.ty, k, p, store)?;
            Ok(Focus::Full)
        }
        Some(i) => {
            let part = part_of(s, of.ty, k);
            let behind = further(p, words_of(s, part));
            push(stack, Frame::Items(n, of.items, of.ty, k + 1, behind))?;
            Ok(Focus::Fill(n, i, part, p))
        }
    }
}

/// Begins an initialiser.
#[tactic(auto, unfolding(crate::specs::inner::Steps::fill))]
pub(crate) fn fill<'a>(
    s: &Setting<'a>,
    n: u32,
    i: &'a TInit,
    ty: Option<&'a CType>,
    p: Cell,
    stack: &mut Vec<Frame<'a>>,
    store: &mut Store<'a>,
) -> Result<Focus<'a>, Stop>
    ensures { Leads (λ x. at x (stack_of stack.new.items) (store_of store.new)) result
        (fill (setting_of s.now) n (tinit i.now) (or_void ty.entry) p (stack_of stack.old.items) (store_of store.old)) }
{
    match i {
        TInit::One(x) => {
            push(stack, Frame::One(n, ty, x, p))?;
            Ok(Focus::Eval(n, x))
        }
        TInit::Text(number) => {
            text(s, n, *number, words_of(s, ty), p, store)?;
            Ok(Focus::Full)
        }
        TInit::List(all) => {
            let of = ItemList {
                items: all.as_slice(),
                ty,
            };
            items(s, n, &of, 0, p, stack, store)
        }
    }
}
