// What came of an expression, used.
ghost use Rattle.std.specs.Prelude.{◌≡◌};
ghost use Rattle.c_types.specs.View.{texpr};
ghost use Rattle.kit_base.specs.Gives.{Gives};
ghost use Rattle.c_evaluate.specs.inner.SettingView.{setting_of};
ghost use Rattle.c_evaluate.specs.inner.StoreView.{store_of};
ghost use Rattle.c_evaluate.specs.inner.Storing.{taken, tested_in, dropped_in, placed_in};

use crate::cells::{fetched, located};
use crate::frame::Outcome;
use crate::operators::is_true;
use crate::setting::Setting;
use crate::stop::Stop;
use crate::store::{Store, released};
use c_meaning::End;
use c_tree::Span;
use c_types::TExpr;
use obj_mem::Cell;

/// Its value.
#[inline(always)]
pub(crate) fn taken<'a>(
    s: &Setting<'a>,
    n: u32,
    x: &TExpr,
    v: Outcome,
    store: &mut Store<'a>,
) -> Result<Cell, Stop>
    ensures { Gives (λ c. (c, store_of store.new)) result (taken (setting_of s.now) n (texpr x.now) v (store_of store.old)) }
{
    match v {
        Outcome::Value(c) => Ok(c),
        Outcome::Place(p) => fetched(s, n, &x.ty, x.span, p, store),
        Outcome::Nothing => Err(Stop::Cause(End::Stray(x.span))),
    }
}

/// Whether it is true.
#[inline(always)]
pub(crate) fn tested<'a>(
    s: &Setting<'a>,
    n: u32,
    x: &TExpr,
    v: Outcome,
    store: &mut Store<'a>,
) -> Result<bool, Stop>
    ensures { Gives (λ b. (b, store_of store.new)) result (tested_in (setting_of s.now) n (texpr x.now) v (store_of store.old)) }
{
    let c = taken(s, n, x, v, store)?;
    located(x.span, is_true(&store.objects, &x.ty, c))
}

/// Its value is dropped; a call may have returned none.
#[inline(always)]
pub(crate) fn dropped<'a>(
    s: &Setting<'a>,
    n: u32,
    x: &TExpr,
    v: Outcome,
    store: &mut Store<'a>,
) -> Result<(), Stop>
    ensures { Gives (λ _. store_of store.new) result (dropped_in (setting_of s.now) n (texpr x.now) v (store_of store.old)) }
{
    match v {
        Outcome::Value(c) => {
            released(store, &x.ty, c);
            Ok(())
        }
        Outcome::Place(p) => {
            let c = fetched(s, n, &x.ty, x.span, p, store)?;
            released(store, &x.ty, c);
            Ok(())
        }
        Outcome::Nothing => Ok(()),
    }
}

/// Its place.
#[inline(always)]
pub(crate) fn placed(span: Span, v: Outcome) -> Result<Cell, Stop>
    ensures { Gives (λ p. p) result (placed_in span v) }
{
    match v {
        Outcome::Place(p) => Ok(p),
        Outcome::Value(_) | Outcome::Nothing => Err(Stop::Cause(End::Stray(span))),
    }
}
