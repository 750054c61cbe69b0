// What a run has made so far.
ghost use Rattle.std.specs.Prelude.{◌≡◌, IfOk, OnOk, ◌<◌, ◌+◌, ◌^◌, Some, [], length};
ghost use Rattle.c_types.specs.View.{ctype};
ghost use Rattle.obj_mem.specs.declared.cell.ObjectKind.TheVariants.{Local};
ghost use Rattle.obj_mem.specs.Objects.{made, end_object};
ghost use Rattle.obj_mem.specs.Stores.{end_local, fresh, fresh_all, end_all, with_temporary, next_object, entered, with_objects};
ghost use Rattle.obj_mem.specs.View.{objects};
ghost use Rattle.c_meaning.specs.Cells.{end_temporary, released};
ghost use Rattle.c_evaluate.specs.inner.Machine.{caller_of, back_in};
ghost use Rattle.c_evaluate.specs.inner.SettingView.{setting_of};
ghost use Rattle.c_evaluate.specs.inner.StoreView.{store_of, caller};
ghost use Rattle.c_evaluate.specs.inner.Swift.{passed};

use crate::frame::Caller;
use crate::setting::Setting;
use crate::stack::next;
use c_types::{CType, is_structure};
use kit_base::Memory;
use obj_mem::{Cell, ObjectKind, Objects, end_local, fresh_local, make_unwritten};
use std::alloc::Global;

/// The objects, the answers left, the function that is called, the objects of its locals, and the words of the frames in use; and a vector that
/// the next call can put its arguments into. Beside them the work so far, which no clause tells: it is counted where the definitions spend, and tested.
#[derive(Drop)]
pub(crate) struct Store<'a> {
    pub(crate) objects: Objects,
    pub(crate) answers: &'a [u32],
    pub(crate) function: Option<u32>,
    pub(crate) locals: Vec<Option<u64>>,
    pub(crate) used: u32,
    pub(crate) spare: Vec<Cell>,
    pub(crate) work: u64,
}

/// Counts so much work more.
#[inline(always)]
pub(crate) fn spend<'a>(store: &mut Store<'a>, units: u64)
    ensures same { store_of store.new ≡ store_of store.old }
{
    store.work = store.work.saturating_add(units);
}

/// Makes an object that is no local.
pub(crate) fn temporary<'a>(
    s: &Setting<'a>,
    store: &mut Store<'a>,
    size: u32,
) -> Result<Cell, Memory>
    ensures made { OnOk result (store_of store.new ≡ with_temporary size (store_of store.old)) }
    ensures place { IfOk result (λ p. p ≡ next_object (store_of store.old)) }
{
    let object = make_unwritten(s.alloc, &mut store.objects, size)?;
    Ok(Cell::Ptr { object, offset: 0 })
}

/// Makes a local anew.
fn fresh<'a>(s: &Setting<'a>, store: &mut Store<'a>, k: u32) -> Result<(), Memory>
    ensures { OnOk result (store_of store.new ≡ fresh (setting_of s.now).sizes k (store_of store.old)) }
{
    let words = s.local_words(store.function, k);
    fresh_local(
        s.alloc,
        &mut store.objects,
        &mut store.locals,
        k as usize,
        words,
    )
}

/// Makes locals anew, in order.
pub(crate) fn fresh_all<'a>(
    s: &Setting<'a>,
    store: &mut Store<'a>,
    ks: &[u32],
) -> Result<(), Memory>
    ensures { OnOk result (store_of store.new ≡ fresh_all (setting_of s.now).sizes ks.now (store_of store.old)) }
{
    'locals: for k in ks {
        fresh(s, store, *k)?;
    }
    Ok(())
}

/// Ends locals.
pub(crate) fn end_all<'a>(store: &mut Store<'a>, ks: &[u32])
    ensures { store_of store.new ≡ end_all ks.now (store_of store.old) }
{
    'locals: for k in ks {
        end_local(&mut store.objects, &store.locals, *k as usize);
    }
}

/// Ends the object that a structure stands in.
pub(crate) fn end_temporary<'a>(store: &mut Store<'a>, c: Cell)
    ensures { store_of store.new ≡ end_temporary c (store_of store.old) }
{
    match c {
        Cell::Ptr { object, .. } => store.objects.end(object),
        Cell::Unwritten | Cell::Num(_) | Cell::Null => {}
    }
}

/// A value of a type was used.
#[inline(always)]
pub(crate) fn released<'a>(store: &mut Store<'a>, ty: &CType, c: Cell)
    ensures { store_of store.new ≡ released (ctype ty.now) c (store_of store.old) }
{
    if is_structure(ty) {
        end_temporary(store, c);
    }
}

/// An object is made, and ends.
fn passed_one<'a>(s: &Setting<'a>, store: &mut Store<'a>) -> Result<(), Memory>
    ensures { OnOk result (store_of store.new
        ≡ with_objects (end_object (made (store_of store.old).objects Local []) (length (store_of store.old).objects)) (store_of store.old)) }
{
    let object = store.objects.count();
    store.objects.make(ObjectKind::Local, Vec::new(s.alloc))?;
    store.objects.end(object);
    Ok(())
}

/// So it is for each argument of a call that comes at once.
pub(crate) fn passed<'a>(
    s: &Setting<'a>,
    store: &mut Store<'a>,
    args: &[Cell],
) -> Result<(), Memory>
    ensures { OnOk result (store_of store.new ≡ passed args.now (store_of store.old)) }
{
    let mut left = args;
    'each: while let Some((_, later)) = next(left) {
        passed_one(s, store)?;
        left = later;
    }
    Ok(())
}

/// A vector without arguments, which is the one that was kept.
#[inline(always)]
pub(crate) fn no_arguments<'a>(s: &Setting<'a>, store: &mut Store<'a>) -> Vec<Cell>
    ensures none { result.items ≡ [] }
    ensures same { store_of store.new ≡ store_of store.old }
{
    let mut values = std::mem::replace(&mut store.spare, Vec::new(s.alloc));
    values.clear();
    values
}

/// Keeps the vector of a call that is done.
#[inline(always)]
pub(crate) fn keep_arguments<'a>(store: &mut Store<'a>, values: Vec<Cell>)
    ensures same { store_of store.new ≡ store_of store.old }
{
    store.spare = values;
}

/// Into a function whose locals are not made yet. What is kept of the caller is answered.
pub(crate) fn enter<'a>(
    s: &Setting<'a>,
    store: &mut Store<'a>,
    f: u32,
    frame: u32,
) -> Result<Caller, Memory>
    requires room { store.old.used + (frame + 2) < 2 ^ 32 }
    requires words { frame ≡ (setting_of s.now).sizes.frame f }
    ensures caller { IfOk result (λ c. caller c ≡ caller_of (store_of store.old)) }
    ensures entered { OnOk result (store_of store.new ≡ entered (setting_of s.now).sizes f (store_of store.old)) }
{
    let made = Vec::from_elem(s.alloc, None, s.local_count(f))?;
    let outer = std::mem::replace(&mut store.locals, made);
    let caller = Caller {
        objects: store.objects.count(),
        function: store.function,
        locals: outer,
        used: store.used,
    };
    store.function = Some(f);
    store.used = store.used + (frame + 2);
    Ok(caller)
}

/// Back in the caller.
pub(crate) fn back<'a>(store: &mut Store<'a>, c: Caller)
    ensures { store_of store.new ≡ back_in (caller c) (store_of store.old) }
{
    let Caller {
        objects,
        function,
        locals,
        used,
    } = c;
    store.objects.end_from(objects);
    store.function = function;
    store.locals = locals;
    store.used = used;
}
