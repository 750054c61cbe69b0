// Functions over registers and slots.
ghost use Rattle.std.specs.Prelude.{◌≡◌, ◌<◌, ◌^◌, IfOk, map, length};
ghost use Rattle.mid_code.specs.Functions.{function};
ghost use Rattle.mid_code.specs.View.{spots};
ghost use Rattle.reg_frames.specs.inner.Placing.{placing, placed_function, placed_functions, frame_size, frame_sizes, spots_of, all_spots};
ghost use Rattle.reg_frames.specs.Placeable.{places_of, first_of, later, IsPlaceable, ArePlaceable};
ghost use Rattle.reg_frames.specs.inner.Moved.{stands};

use crate::code::{place_all, place_nodes};
use crate::layout::{begins, rising, total};
use crate::places::Places;
use crate::renumber::renumber;
use crate::slices::{copy_words, next};
use kit_base::{Memory, Seq};
use mid_code::{Choice, Function, Spots, Where};
use std::alloc::Global;

/// A function over registers and slots, the size of its frame, and where the words of the frame stand.
#[derive(Drop)]
pub(crate) struct PlacedFunction {
    pub(crate) function: Function<Where>,
    pub(crate) size: u32,
    pub(crate) spots: Spots,
}

#[tactic(auto, using(crate::proofs::Movedly::nodes_moves))]
fn place_code(alloc: Global, f: &Function<u32>, p: &Places) -> Result<Function<Where>, Memory>
    ensures { IfOk result (λ r. function r ≡ placed_function (stands p.now) (function f.now)) }
{
    let params = place_all(alloc, p, f.params.as_slice())?;
    let locals = copy_words(alloc, f.locals.as_slice())?;
    let body = place_nodes(alloc, p, f.body.as_slice())?;
    Ok(Function {
        temps: f.temps,
        params: Seq::from_vec(params),
        locals: Seq::from_vec(locals),
        result: f.result,
        body: Seq::from_vec(body),
    })
}

/// The function by the choice.
#[tactic(auto, using(crate::proofs::Placedly::function_by))]
pub(crate) fn place_function(
    alloc: Global,
    f: &Function<u32>,
    at: &[Where],
) -> Result<PlacedFunction, Memory>
    requires placeable { IsPlaceable (function f.now) at.now }
    ensures function { IfOk result (λ r. function r.function ≡ placed_function (placing at.now) (function f.now)) }
    ensures size { IfOk result (λ r. r.size ≡ frame_size at.now (function f.now)) }
    ensures spots { IfOk result (λ r. spots r.spots ≡ spots_of at.now (function f.now)) }
{
    let (p, slots) = renumber(alloc, at)?;
    let function = place_code(alloc, f, &p)?;
    let size = slots + total(f.locals.as_slice());
    let spots = Spots {
        slots: Seq::from_vec(rising(alloc, slots)?),
        locals: Seq::from_vec(begins(alloc, slots, f.locals.as_slice())?),
        own: Seq::from_vec(Vec::new(alloc)),
    };
    Ok(PlacedFunction {
        function,
        size,
        spots,
    })
}

/// The functions by their choices, with their frames.
#[derive(Drop)]
pub(crate) struct PlacedFunctions {
    pub(crate) functions: Vec<Function<Where>>,
    pub(crate) sizes: Vec<u32>,
    pub(crate) spots: Vec<Spots>,
}

/// The places of the first choice, none where there is none, and the choices behind it.
pub(crate) fn first<'a>(choices: &'a [Choice]) -> (&'a [Where], &'a [Choice])
    ensures first { result.0.now ≡ first_of (places_of choices.now) }
    ensures later { places_of result.1.now ≡ later (places_of choices.now) }
{
    match next(choices) {
        Some((choice, after)) => (choice.at.as_slice(), after),
        None => (&[], choices),
    }
}

/// Each function by the choice of its number.
pub(crate) fn place_functions(
    alloc: Global,
    functions: &[Function<u32>],
    choices: &[Choice],
) -> Result<PlacedFunctions, Memory>
    requires placeable { ArePlaceable (map function functions.now) (places_of choices.now) }
    ensures functions { IfOk result (λ r. map function r.functions.items ≡ placed_functions (places_of choices.now) (map function functions.now)) }
    ensures sizes { IfOk result (λ r. r.sizes.items ≡ frame_sizes (places_of choices.now) (map function functions.now)) }
    ensures spots { IfOk result (λ r. map spots r.spots.items ≡ all_spots (places_of choices.now) (map function functions.now)) }
{
    let mut found = PlacedFunctions {
        functions: Vec::new(alloc),
        sizes: Vec::new(alloc),
        spots: Vec::new(alloc),
    };
    let mut left = functions;
    let mut chosen = choices;
    while let Some((f, more)) = next(left) {
        let (at, after) = first(chosen);
        let placed = place_function(alloc, f, at)?;
        found.functions.push(placed.function)?;
        found.sizes.push(placed.size)?;
        found.spots.push(placed.spots)?;
        left = more;
        chosen = after;
    }
    Ok(found)
}
