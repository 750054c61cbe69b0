// What operations do.
ghost use Rattle.std.specs.Prelude.{◌≡◌};
ghost use Rattle.obj_mem.specs.declared.cell.Cell.TheVariants.{Ptr};
ghost use Rattle.obj_mem.specs.View.{objects};
ghost use Rattle.kit_base.specs.declared.event.Event.TheVariants.{Wait};
ghost use Rattle.v32_isa.specs.declared.instruction.Two.TheVariants.{IEQ, INE};
ghost use Rattle.v32_isa.specs.Arithmetic.{two_of};
ghost use Rattle.obj_mem.specs.Queries.{then_ask, truth, offsets, word_of, word_or_fault, write};
ghost use Rattle.obj_mem.specs.Stores.{end_one, fresh};
ghost use Rattle.obj_mem.specs.Worlds.{happened, on_store};
ghost use Rattle.mid_code.specs.States.{distance, in_world, input, one_word, output, pointers_tested, stepped, temporaries, to, to_objects, two_words};
ghost use Rattle.mid_code.specs.Meaning.{On};
ghost use Rattle.mid_evaluate.specs.inner.Answers.{Does};
ghost use Rattle.mid_evaluate.specs.inner.Once.{asked_of, performed, weight_of};
ghost use Rattle.mid_evaluate.specs.View.{sizes, state_of};

use crate::answer::Ending;
use crate::setting::Setting;
use crate::state::{State, cell, end_one, fresh, happen, put_in};
use crate::stop::Stop;
use kit_base::{Event, word_of_bool};
use mid_code::Op;
use obj_mem::{
    Cell, Objects, Refusal, apart, equal_pointers, local_cell, offsets, read, step, word_of, write,
};
use v32_isa::{One, Two, one_word, two_word};

// ---- answers

/// An answer goes into its target; a refusal ends the run.
fn put_answer<'a>(m: &mut State<'a>, t: u32, answer: Result<Cell, Refusal>) -> Result<(), Stop>
    ensures { Does result (state_of m.new) (to temporaries t answer (state_of m.old)) }
{
    match answer {
        Ok(c) => {
            put_in(m, t, c)?;
            Ok(())
        }
        Err(Refusal::Strays) => Err(Stop::Cause(Ending::Stray)),
        Err(Refusal::Faults(number)) => Err(Stop::Cause(Ending::Fault(number))),
    }
}

fn one(o: One, a: Cell) -> Result<Cell, Refusal>
    ensures { result ≡ one_word o a }
{
    let x = word_of(a)?;
    match one_word(o, x) {
        None => Err(Refusal::Strays),
        Some(word) => Ok(Cell::Num(word)),
    }
}

fn word_or_fault(word: Option<u32>) -> Result<Cell, Refusal>
    ensures { result ≡ word_or_fault word }
{
    match word {
        None => Err(Refusal::Faults(6)),
        Some(x) => Ok(Cell::Num(x)),
    }
}

fn two(o: Two, a: Cell, b: Cell) -> Result<Cell, Refusal>
    ensures { result ≡ two_words o a b }
{
    let x = word_of(a)?;
    let y = word_of(b)?;
    word_or_fault(two_word(o, x, y))
}

fn truth(b: bool) -> Cell
    ensures { result ≡ truth b }
{
    Cell::Num(word_of_bool(b))
}

/// Whether two pointers are equal, as a word.
fn same(os: &Objects, p: Cell, q: Cell) -> Result<Cell, Refusal>
    ensures { result ≡ pointers_tested IEQ (objects os.now) p q }
{
    let b = equal_pointers(os, p, q)?;
    Ok(truth(b))
}

/// Whether two pointers differ, as a word.
fn different(os: &Objects, p: Cell, q: Cell) -> Result<Cell, Refusal>
    ensures { result ≡ pointers_tested INE (objects os.now) p q }
{
    let b = equal_pointers(os, p, q)?;
    Ok(truth(!b))
}

fn ordered(o: Two, os: &Objects, p: Cell, q: Cell) -> Result<Cell, Refusal>
    ensures { result ≡ then_ask (offsets (objects os.now) p q) (λ at. word_or_fault (two_of o at.0 at.1)) }
{
    let (i, j) = offsets(os, p, q)?;
    word_or_fault(two_word(o, i, j))
}

/// A comparison of pointers.
fn test(o: Two, os: &Objects, p: Cell, q: Cell) -> Result<Cell, Refusal>
    ensures { result ≡ pointers_tested o (objects os.now) p q }
{
    match o {
        Two::IEQ => same(os, p, q),
        Two::INE => different(os, p, q),
        Two::IGT => ordered(Two::IGT, os, p, q),
        Two::IGE => ordered(Two::IGE, os, p, q),
        Two::ILT => ordered(Two::ILT, os, p, q),
        Two::ILE => ordered(Two::ILE, os, p, q),
        Two::AND => ordered(Two::AND, os, p, q),
        Two::OR => ordered(Two::OR, os, p, q),
        Two::XOR => ordered(Two::XOR, os, p, q),
        Two::SHL => ordered(Two::SHL, os, p, q),
        Two::IADD => ordered(Two::IADD, os, p, q),
        Two::ISUB => ordered(Two::ISUB, os, p, q),
        Two::IMUL => ordered(Two::IMUL, os, p, q),
        Two::IDIV => ordered(Two::IDIV, os, p, q),
        Two::IMOD => ordered(Two::IMOD, os, p, q),
        Two::IMIN => ordered(Two::IMIN, os, p, q),
        Two::IMAX => ordered(Two::IMAX, os, p, q),
    }
}

fn step_by(p: Cell, n: Cell) -> Result<Cell, Refusal>
    ensures { result ≡ stepped p n }
{
    let x = word_of(n)?;
    step(p, x)
}

fn distance(os: &Objects, p: Cell, q: Cell) -> Result<Cell, Refusal>
    ensures { result ≡ distance (objects os.now) p q }
{
    let words = apart(os, p, q)?;
    Ok(Cell::Num(words))
}

fn global_cell(number: u32) -> Cell
    ensures { result ≡ Ptr number 0 }
{
    Cell::Ptr {
        object: u64::from(number),
        offset: 0,
    }
}

/// How far the pointer in p is behind that in q.
fn put_distance<'a>(m: &mut State<'a>, t: u32, p: u32, q: u32) -> Result<(), Stop>
    ensures { Does result (state_of m.new) (asked_of t distance p q (state_of m.old)) }
{
    let objects = &m.world.store.objects;
    let answer = distance(objects, cell(&m.cells, p), cell(&m.cells, q));
    put_answer(m, t, answer)
}

/// Compares the pointers in p and q.
fn put_test<'a>(m: &mut State<'a>, o: Two, t: u32, p: u32, q: u32) -> Result<(), Stop>
    ensures { Does result (state_of m.new) (asked_of t (pointers_tested o) p q (state_of m.old)) }
{
    let objects = &m.world.store.objects;
    let answer = test(o, objects, cell(&m.cells, p), cell(&m.cells, q));
    put_answer(m, t, answer)
}

// ---- operations that change the world

fn store<'a>(m: &mut State<'a>, p: Cell, c: Cell) -> Result<(), Stop>
    ensures { Does result (state_of m.new) (to_objects (write (state_of m.old).world.store.objects p c) (state_of m.old)) }
{
    match write(&mut m.world.store.objects, p, c) {
        Ok(()) => Ok(()),
        Err(Refusal::Strays) => Err(Stop::Cause(Ending::Stray)),
        Err(Refusal::Faults(number)) => Err(Stop::Cause(Ending::Fault(number))),
    }
}

/// Takes the first answer left.
fn input<'a>(m: &mut State<'a>, t: u32, port: u32) -> Result<(), Stop>
    ensures { Does result (state_of m.new) (input temporaries t port (state_of m.old).world.store.answers (state_of m.old)) }
{
    let answers = m.world.store.answers;
    match answers.split_first() {
        None => Err(Stop::Cause(Ending::Starved)),
        Some((word, rest)) => {
            m.world.store.answers = rest;
            happen(&mut m.world, Event::In(port, *word))?;
            put_in(m, t, Cell::Num(*word))?;
            Ok(())
        }
    }
}

fn output<'a>(m: &mut State<'a>, port: u32, c: Cell) -> Result<(), Stop>
    ensures { Does result (state_of m.new) (output port (word_of c) (state_of m.old)) }
{
    match word_of(c) {
        Ok(x) => {
            happen(&mut m.world, Event::Out(port, x))?;
            Ok(())
        }
        Err(Refusal::Strays) => Err(Stop::Cause(Ending::Stray)),
        Err(Refusal::Faults(number)) => Err(Stop::Cause(Ending::Fault(number))),
    }
}

fn wait<'a>(m: &mut State<'a>) -> Result<(), Stop>
    ensures { Does result (state_of m.new) (On (in_world (happened Wait (state_of m.old).world) (state_of m.old))) }
{
    happen(&mut m.world, Event::Wait)?;
    Ok(())
}

fn fresh_local<'a>(s: &Setting<'a>, m: &mut State<'a>, k: u32) -> Result<(), Stop>
    ensures { Does result (state_of m.new) (On (in_world (on_store (fresh (sizes s.now) k) (state_of m.old).world) (state_of m.old))) }
{
    fresh(s, &mut m.world.store, k)?;
    Ok(())
}

fn end_local<'a>(m: &mut State<'a>, k: u32) -> Result<(), Stop>
    ensures { Does result (state_of m.new) (On (in_world (on_store (end_one k) (state_of m.old).world) (state_of m.old))) }
{
    end_one(&mut m.world.store, k);
    Ok(())
}

/// Does an operation that is no call.
pub(crate) fn perform<'a>(s: &Setting<'a>, m: &mut State<'a>, o: &Op<u32>) -> Result<(), Stop>
    ensures { Does result (state_of m.new) (performed (sizes s.now) o.now (state_of m.old)) }
{
    match o {
        Op::Const(t, word) => put_answer(m, *t, Ok(Cell::Num(*word))),
        Op::Null(t) => put_answer(m, *t, Ok(Cell::Null)),
        Op::Move(t, a) => {
            let c = cell(&m.cells, *a);
            put_answer(m, *t, Ok(c))
        }
        Op::One(o, t, a) => {
            let answer = one(*o, cell(&m.cells, *a));
            put_answer(m, *t, answer)
        }
        Op::Two(o, t, a, b) => {
            let answer = two(*o, cell(&m.cells, *a), cell(&m.cells, *b));
            put_answer(m, *t, answer)
        }
        Op::Global(t, number) => put_answer(m, *t, Ok(global_cell(*number))),
        Op::Local(t, number) => {
            let answer = local_cell(&m.world.store.locals, *number as usize);
            put_answer(m, *t, answer)
        }
        Op::Literal(t, number) => put_answer(m, *t, Ok(s.literal_at(*number))),
        Op::Card(t) => put_answer(m, *t, Ok(s.card_at())),
        Op::Step(t, p, n) => {
            let answer = step_by(cell(&m.cells, *p), cell(&m.cells, *n));
            put_answer(m, *t, answer)
        }
        Op::Apart(t, p, q) => put_distance(m, *t, *p, *q),
        Op::PtrTest(o, t, p, q) => put_test(m, *o, *t, *p, *q),
        Op::Load(t, p) => {
            let answer = read(&m.world.store.objects, cell(&m.cells, *p));
            put_answer(m, *t, answer)
        }
        Op::Store(p, a) => {
            let place = cell(&m.cells, *p);
            let c = cell(&m.cells, *a);
            store(m, place, c)
        }
        Op::Fresh(k) => fresh_local(s, m, *k),
        Op::End(k) => end_local(m, *k),
        Op::Call(_, _, _) => Err(Stop::Cause(Ending::Stray)),
        Op::In(t, port) => input(m, *t, *port),
        Op::Out(port, a) => {
            let c = cell(&m.cells, *a);
            output(m, *port, c)
        }
        Op::Wait => wait(m),
        Op::Halt => Err(Stop::Cause(Ending::Halted)),
    }
}

/// What an operation counts as work.
pub(crate) fn weight_of(o: &Op<u32>) -> u64
    ensures { result ≡ weight_of o.now }
{
    match o {
        Op::Fresh(_) => 0,
        Op::End(_) => 0,
        Op::Const(_, _) => 8,
        Op::Null(_) => 8,
        Op::Move(_, _) => 8,
        Op::One(_, _, _) => 8,
        Op::Two(_, _, _, _) => 8,
        Op::Global(_, _) => 8,
        Op::Local(_, _) => 8,
        Op::Literal(_, _) => 8,
        Op::Card(_) => 8,
        Op::Step(_, _, _) => 8,
        Op::Apart(_, _, _) => 8,
        Op::PtrTest(_, _, _, _) => 8,
        Op::Load(_, _) => 8,
        Op::Store(_, _) => 8,
        Op::Call(_, _, _) => 8,
        Op::In(_, _) => 8,
        Op::Out(_, _) => 8,
        Op::Wait => 8,
        Op::Halt => 8,
    }
}
