// Choices whose operands share the places of targets.
ghost use Rattle.std.specs.Prelude.{◌≡◌, ◌∷◌, [], IfOk, IfSome, IfNone, true, map};
ghost use Rattle.mid_code.specs.Functions.{function};
ghost use Rattle.mid_code.specs.Invariants.{AllOf};
ghost use Rattle.mid_code.specs.Choices.{AreSafe, EachSafe};
ghost use Rattle.mid_code.specs.Whole.{mid};
ghost use Rattle.mid_code.specs.Safe.{IsSafe, SparesSlots, IsRegister, AllPlaces};
ghost use Rattle.reg_choose.specs.Each.{EachSpares, AllSpare, places_in, IsNamed};

use crate::sharing::arguments::Callees;
use crate::sharing::copies::{
    Wish, first_way, has_pair, is_open, open_wishes, second_way, wishes_of,
};
use crate::sharing::entry::merge_params;
use crate::sharing::merge::{merge_nodes, put};
use crate::sharing::registers::adds_no_slot;
use crate::sharing::singles::{Count, counts, singles};
use crate::sharing::slots::{has_slot, have_call, most_named};
use crate::sharing::spare::leave_register;
use kit_base::{Memory, Seq};
use mid_code::laws::mid_code_is_sound;
use mid_code::{Choice, Function, Mid, Where};
use reg_choose::is_safe;
use std::alloc::Global;

/// Functions of more temporaries are left as they are: each try is a walk over the body.
const MOST_LIFTED: u32 = 1024;

fn copy(alloc: Global, at: &[Where]) -> Result<Choice, Memory>
    ensures { IfOk result (λ c. c.at ≡ at.now) }
{
    Ok(Choice {
        at: Seq::from_vec(at.to_vec(alloc)?),
    })
}

/// The choice in which immediate operands stand in register 8 alone, and first operands at the places of targets. Nothing rests on it: it is tested.
fn merged(
    alloc: Global,
    f: &Function<u32>,
    given: &[Where],
    functions: &[Function<u32>],
    choices: &[Choice],
) -> Result<Choice, Memory> {
    let counts = counts(alloc, f)?;
    let mut single = singles(alloc, counts.as_slice())?;
    let mut at = given.to_vec(alloc)?;
    let spares = leave_register(
        alloc,
        f.body.as_slice(),
        counts.as_slice(),
        single.as_mut_slice(),
        at.as_mut_slice(),
    )?;
    let callees = Callees {
        functions,
        choices,
        spares,
    };
    merge_nodes(
        single.as_slice(),
        at.as_mut_slice(),
        f.body.as_slice(),
        callees,
    );
    Ok(Choice {
        at: Seq::from_vec(at),
    })
}

/// The choice in which parameters, too, stand at the places of the locals that take them, where there are such. It is tested as well.
fn entered(alloc: Global, f: &Function<u32>, given: &[Where]) -> Result<Option<Choice>, Memory> {
    let counts = counts(alloc, f)?;
    let single = singles(alloc, counts.as_slice())?;
    let mut at = given.to_vec(alloc)?;
    let merged = merge_params(
        single.as_slice(),
        at.as_mut_slice(),
        f.params.as_slice(),
        f.body.as_slice(),
    );
    if merged {
        Ok(Some(Choice {
            at: Seq::from_vec(at),
        }))
    } else {
        Ok(None)
    }
}

/// Whether another choice may be taken in the place of the given one: it is safe, and has no slot where that has none.
fn serves(alloc: Global, f: &Function<u32>, given: &[Where], other: &Choice) -> Result<bool, Memory>
    requires named { IsNamed (function f.now) }
    ensures safe { IfOk result (λ b. b ≡ true → IsSafe (function f.now) other.now.at) }
    ensures slots { IfOk result (λ b. b ≡ true → AllPlaces IsRegister given.now → AllPlaces IsRegister other.now.at) }
{
    if !adds_no_slot(given, other.at.as_slice()) {
        return Ok(false);
    }
    is_safe(alloc, f, other)
}

/// The choice in which parameters share places too, where it serves, else the one given.
fn share_entry(alloc: Global, f: &Function<u32>, given: Choice) -> Result<Choice, Memory>
    requires named { IsNamed (function f.now) }
    requires safe { IsSafe (function f.now) given.at }
    requires spares { SparesSlots (function f.now) given.at }
    ensures safe { IfOk result (λ c. IsSafe (function f.now) c.at) }
    ensures spares { IfOk result (λ c. SparesSlots (function f.now) c.at) }
{
    if f.params.as_slice().is_empty() {
        return Ok(given);
    }
    let Some(other) = entered(alloc, f, given.at.as_slice())? else {
        return Ok(given);
    };
    if serves(alloc, f, given.at.as_slice(), &other)? {
        Ok(other)
    } else {
        Ok(given)
    }
}

/// The choice in which a temporary stands in a register, where one of the first eight serves, else the one given.
fn in_register(alloc: Global, f: &Function<u32>, given: Choice, t: u32) -> Result<Choice, Memory>
    requires named { IsNamed (function f.now) }
    requires safe { IsSafe (function f.now) given.at }
    requires spares { SparesSlots (function f.now) given.at }
    ensures safe { IfOk result (λ c. IsSafe (function f.now) c.at) }
    ensures spares { IfOk result (λ c. SparesSlots (function f.now) c.at) }
{
    for r in 0..8 {
        let mut at = given.at.as_slice().to_vec(alloc)?;
        put(at.as_mut_slice(), t, Where::Reg(r));
        let other = Choice {
            at: Seq::from_vec(at),
        };
        if serves(alloc, f, given.at.as_slice(), &other)? {
            return Ok(other);
        }
    }
    Ok(given)
}

/// The choice in which the two temporaries in slots of which most is named stand in registers, where some serve. In a function without calls a temporary is
/// in a slot where more than nine spans meet, though it may be live at few places of its span; over a call no register keeps its word.
fn lifted(alloc: Global, f: &Function<u32>, given: Choice) -> Result<Choice, Memory>
    requires named { IsNamed (function f.now) }
    requires safe { IsSafe (function f.now) given.at }
    requires spares { SparesSlots (function f.now) given.at }
    ensures safe { IfOk result (λ c. IsSafe (function f.now) c.at) }
    ensures spares { IfOk result (λ c. SparesSlots (function f.now) c.at) }
{
    if f.temps > MOST_LIFTED || !has_slot(given.at.as_slice()) || have_call(f.body.as_slice()) {
        return Ok(given);
    }
    let counts = counts(alloc, f)?;
    let Some(t) = most_named(given.at.as_slice(), counts.as_slice(), None) else {
        return Ok(given);
    };
    let first = in_register(alloc, f, given, t)?;
    let Some(u) = most_named(first.at.as_slice(), counts.as_slice(), Some(t)) else {
        return Ok(first);
    };
    in_register(alloc, f, first, u)
}

/// The choice in which a wish is met, where one of the two ways to it serves, else the one given.
fn wished(
    alloc: Global,
    f: &Function<u32>,
    given: Choice,
    counts: &[Count],
    single: &[bool],
    w: Wish,
) -> Result<Choice, Memory>
    requires named { IsNamed (function f.now) }
    requires safe { IsSafe (function f.now) given.at }
    requires spares { SparesSlots (function f.now) given.at }
    ensures safe { IfOk result (λ c. IsSafe (function f.now) c.at) }
    ensures spares { IfOk result (λ c. SparesSlots (function f.now) c.at) }
{
    if !is_open(given.at.as_slice(), w) {
        return Ok(given);
    }
    if let Some(at) = first_way(alloc, single, given.at.as_slice(), w)? {
        let other = Choice {
            at: Seq::from_vec(at),
        };
        if serves(alloc, f, given.at.as_slice(), &other)? {
            return Ok(other);
        }
    }
    let Some(at) = second_way(alloc, counts, single, given.at.as_slice(), w)? else {
        return Ok(given);
    };
    let other = Choice {
        at: Seq::from_vec(at),
    };
    if serves(alloc, f, given.at.as_slice(), &other)? {
        Ok(other)
    } else {
        Ok(given)
    }
}

/// The choice in which the wishes are met one after another, where that serves.
fn all_wished(
    alloc: Global,
    f: &Function<u32>,
    given: Choice,
    counts: &[Count],
    single: &[bool],
    wishes: &[Wish],
) -> Result<Choice, Memory>
    requires named { IsNamed (function f.now) }
    requires safe { IsSafe (function f.now) given.at }
    requires spares { SparesSlots (function f.now) given.at }
    ensures safe { IfOk result (λ c. IsSafe (function f.now) c.at) }
    ensures spares { IfOk result (λ c. SparesSlots (function f.now) c.at) }
{
    let mut best = given;
    'wishes: for w in wishes {
        best = wished(alloc, f, best, counts, single, *w)?;
    }
    Ok(best)
}

/// The choice with fewer copies between registers, for functions whose locals may be held in temporaries: where fewer wishes stand open in it.
fn coalesced(
    alloc: Global,
    f: &Function<u32>,
    given: Choice,
    functions: &[Function<u32>],
    choices: &[Choice],
) -> Result<Choice, Memory>
    requires named { IsNamed (function f.now) }
    requires safe { IsSafe (function f.now) given.at }
    requires spares { SparesSlots (function f.now) given.at }
    ensures safe { IfOk result (λ c. IsSafe (function f.now) c.at) }
    ensures spares { IfOk result (λ c. SparesSlots (function f.now) c.at) }
{
    if !has_pair(f) || f.temps > MOST_LIFTED {
        return Ok(given);
    }
    let counts = counts(alloc, f)?;
    let single = singles(alloc, counts.as_slice())?;
    let callees = Callees {
        functions,
        choices,
        spares: false,
    };
    let wishes = wishes_of(alloc, f, given.at.as_slice(), callees)?;
    let start = copy(alloc, given.at.as_slice())?;
    let other = all_wished(
        alloc,
        f,
        start,
        counts.as_slice(),
        single.as_slice(),
        wishes.as_slice(),
    )?;
    let before = open_wishes(given.at.as_slice(), wishes.as_slice());
    if open_wishes(other.at.as_slice(), wishes.as_slice()) < before {
        Ok(other)
    } else {
        Ok(given)
    }
}

/// The choice for one function: temporaries leave slots where that serves; then the one in which operands share places where it serves; then the same of
/// parameters; then copies between registers are spared.
fn share(
    alloc: Global,
    f: &Function<u32>,
    given: &[Where],
    functions: &[Function<u32>],
    choices: &[Choice],
) -> Result<Choice, Memory>
    requires named { IsNamed (function f.now) }
    requires safe { IsSafe (function f.now) given.now }
    requires spares { SparesSlots (function f.now) given.now }
    ensures safe { IfOk result (λ c. IsSafe (function f.now) c.at) }
    ensures spares { IfOk result (λ c. SparesSlots (function f.now) c.at) }
{
    let start = lifted(alloc, f, copy(alloc, given)?)?;
    let other = merged(alloc, f, start.at.as_slice(), functions, choices)?;
    let shared = if serves(alloc, f, start.at.as_slice(), &other)? {
        share_entry(alloc, f, other)?
    } else {
        share_entry(alloc, f, start)?
    };
    coalesced(alloc, f, shared, functions, choices)
}

/// The first function and those behind it.
fn next(fs: &[Function<u32>]) -> Option<(&Function<u32>, &[Function<u32>])>
    ensures some { IfSome result (λ x. fs.now ≡ x.0.now ∷ x.1.now) }
    ensures none { IfNone result (fs.now ≡ []) }
{
    fs.split_first()
}

/// The first choice and those behind it.
fn next_choice(cs: &[Choice]) -> Option<(&Choice, &[Choice])>
    ensures some { IfSome result (λ x. cs.now ≡ x.0.now ∷ x.1.now) }
    ensures none { IfNone result (cs.now ≡ []) }
{
    cs.split_first()
}

fn share_each(
    alloc: Global,
    start: &Function<u32>,
    fs: &[Function<u32>],
    choices: &[Choice],
) -> Result<Vec<Choice>, Memory>
    requires start { IsNamed (function start.now) }
    requires named { AllOf IsNamed (map function fs.now) }
    requires safe { EachSafe (function start.now ∷ map function fs.now) (places_in choices.now) }
    requires spares { EachSpares (function start.now ∷ map function fs.now) (places_in choices.now) }
    ensures safe { IfOk result (λ v. EachSafe (function start.now ∷ map function fs.now) (places_in v.items)) }
    ensures spares { IfOk result (λ v. EachSpares (function start.now ∷ map function fs.now) (places_in v.items)) }
{
    let mut found = Vec::new(alloc);
    let Some((first, others)) = next_choice(choices) else {
        return Ok(found);
    };
    found.push(share(alloc, start, first.at.as_slice(), fs, &[])?)?;
    let mut rest = fs;
    let mut given = others;
    'functions: while let Some((f, after)) = next(rest) {
        let Some((choice, behind)) = next_choice(given) else {
            break;
        };
        let next = share(alloc, f, choice.at.as_slice(), fs, found.as_slice())?;
        found.push(next)?;
        rest = after;
        given = behind;
    }
    Ok(found)
}

/// The choices for a program, that of the start first, in which operands share the places of targets. A temporary goes to the place of an operation's target
/// where that operation is the only one that uses it, as its first operand, and works on its target or is a load; where one operation alone makes it,
/// in the same list
/// and at most 64 nodes before; and where nothing that either of them uses beside stands in the way at that place, nor is named in between. Both places are
/// registers, or both are slots. Of each function the given choice stays where the other one would not be safe. The error is want of memory, and then the
/// choices given are dropped.
pub fn share_all(alloc: Global, m: &Mid, choices: Vec<Choice>) -> Result<Vec<Choice>, Memory>
    requires safe { AreSafe (mid m.now) (places_in choices.items) }
    requires spares { AllSpare (mid m.now) (places_in choices.items) }
    ensures safe { IfOk result (λ v. AreSafe (mid m.now) (places_in v.items)) }
    ensures spares { IfOk result (λ v. AllSpare (mid m.now) (places_in v.items)) }
{
    mid_code_is_sound(m);
    let of = m.code();
    share_each(
        alloc,
        &of.start,
        of.functions.as_slice(),
        choices.as_slice(),
    )
}
