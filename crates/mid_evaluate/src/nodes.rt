// Lists of nodes.
ghost use Rattle.std.specs.Prelude.{◌≡◌, Some};
ghost use Rattle.mid_code.specs.Functions.{node, nodes};
ghost use Rattle.mid_code.specs.Meaning.{below, block_done, called};
ghost use Rattle.mid_code.specs.States.{word_tested};
ghost use Rattle.mid_evaluate.specs.inner.Answers.{Leads, went};
ghost use Rattle.mid_evaluate.specs.inner.Once.{block, call_parts, choice, looped, node_once, op_once, ran, taken, turn_left};
ghost use Rattle.mid_evaluate.specs.View.{code_of, lang, state_of};

use crate::answer::Ending;
use crate::calls::{call_parts, enter, leave};
use crate::flow::Flow;
use crate::operations::{perform, weight_of};
use crate::setting::Setting;
use crate::state::{State, cell, give, spend};
use crate::stop::Stop;
use mid_code::{Node, Op};
use obj_mem::Cell;

/// Which way a choice goes by its cell; none where it is no word.
fn taken(c: Cell) -> Option<bool>
    ensures { result ≡ taken (word_tested c) }
{
    match c {
        Cell::Num(x) => Some(x != 0),
        Cell::Unwritten | Cell::Ptr { .. } | Cell::Null => None,
    }
}

/// How a block ends, whose body ended so.
fn leave_block<'a>(m: &State<'a>, flow: Flow) -> Result<Flow, Stop>
    ensures { Leads result (state_of m.now) (block_done (went flow (state_of m.now))) }
{
    match flow {
        Flow::Next => Ok(Flow::Next),
        Flow::Leaves(k) => {
            if k == 0 {
                Ok(Flow::Next)
            } else {
                Ok(Flow::Leaves(k - 1))
            }
        }
        Flow::Repeats(k) => {
            if k == 0 {
                Err(Stop::Cause(Ending::Stray))
            } else {
                Ok(Flow::Repeats(k - 1))
            }
        }
        Flow::Returns => Ok(Flow::Returns),
    }
}

/// How a loop goes on, where it does not begin its next turn.
fn leave_turn(flow: Flow) -> Option<Flow>
    ensures { result ≡ turn_left flow }
{
    match flow {
        Flow::Next => Some(Flow::Next),
        Flow::Leaves(k) => {
            if k == 0 {
                Some(Flow::Next)
            } else {
                Some(Flow::Leaves(k - 1))
            }
        }
        Flow::Repeats(k) => {
            if k == 0 {
                None
            } else {
                Some(Flow::Repeats(k - 1))
            }
        }
        Flow::Returns => Some(Flow::Returns),
    }
}

/// Calls a function. The bound is asked first, and then whether it has room.
#[cycle(nodes)]
pub(crate) fn call<'a>(
    s: &Setting<'a>,
    m: &mut State<'a>,
    n: u32,
    t: Option<u32>,
    f: u32,
    args: &[u32],
) -> Result<Flow, Stop>
    ensures { Leads result (state_of m.new) (called (lang s.now) n (below (lang s.now) n) t f args.now (state_of m.old)) }
{
    if n == 0 {
        return Err(Stop::Cause(Ending::OutOfBound));
    }
    let caller = enter(s, m, f, args)?;
    let flow = run_nodes(s, m, n - 1, s.body(f))?;
    leave(m, caller, t, flow)
}

/// A loop: each further turn has one less of the bound.
#[cycle(nodes)]
fn run_loop<'a>(
    s: &Setting<'a>,
    m: &mut State<'a>,
    n: u32,
    body: &[Node<u32>],
) -> Result<Flow, Stop>
    ensures { Leads result (state_of m.new) (looped (code_of s.now) s.now.frames.now n (nodes body.now) (state_of m.old)) }
{
    let mut left = n;
    'turns: loop {
        spend(m, 8)?;
        let flow = run_nodes(s, m, left, body)?;
        match leave_turn(flow) {
            Some(out) => return Ok(out),
            None => {}
        }
        if left == 0 {
            return Err(Stop::Cause(Ending::OutOfBound));
        }
        left -= 1;
    }
}

#[cycle(nodes)]
fn run_choice<'a>(
    s: &Setting<'a>,
    m: &mut State<'a>,
    n: u32,
    p: u32,
    a: &[Node<u32>],
    b: &[Node<u32>],
) -> Result<Flow, Stop>
    ensures { Leads result (state_of m.new) (choice (code_of s.now) s.now.frames.now n p (nodes a.now) (nodes b.now) (state_of m.old)) }
{
    let way = taken(cell(&m.cells, p));
    spend(m, 8)?;
    match way {
        None => Err(Stop::Cause(Ending::Stray)),
        Some(true) => run_nodes(s, m, n, a),
        Some(false) => run_nodes(s, m, n, b),
    }
}

#[cycle(nodes)]
fn run_block<'a>(
    s: &Setting<'a>,
    m: &mut State<'a>,
    n: u32,
    body: &[Node<u32>],
) -> Result<Flow, Stop>
    ensures { Leads result (state_of m.new) (block (code_of s.now) s.now.frames.now n (nodes body.now) (state_of m.old)) }
{
    spend(m, 8)?;
    let flow = run_nodes(s, m, n, body)?;
    leave_block(m, flow)
}

#[cycle(nodes)]
fn run_operation<'a>(s: &Setting<'a>, m: &mut State<'a>, n: u32, o: &Op<u32>) -> Result<Flow, Stop>
    ensures { Leads result (state_of m.new) (op_once (code_of s.now) s.now.frames.now n o.now (call_parts o.now) (state_of m.old)) }
{
    match call_parts(o) {
        None => {
            spend(m, weight_of(o))?;
            perform(s, m, o)?;
            Ok(Flow::Next)
        }
        Some(c) => {
            spend(m, 8 + 4 * c.args.len() as u64)?;
            call(s, m, n, c.target, c.function, c.args)
        }
    }
}

#[cycle(nodes)]
fn run_node<'a>(s: &Setting<'a>, m: &mut State<'a>, n: u32, x: &Node<u32>) -> Result<Flow, Stop>
    ensures { Leads result (state_of m.new) (node_once (code_of s.now) s.now.frames.now n (node x.now) (state_of m.old)) }
{
    match x {
        Node::Do(o) => run_operation(s, m, n, o),
        Node::Choose(p, a, b) => run_choice(s, m, n, *p, a.as_slice(), b.as_slice()),
        Node::Block(b) => run_block(s, m, n, b.as_slice()),
        Node::Loop(b) => run_loop(s, m, n, b.as_slice()),
        Node::Leave(k) => {
            spend(m, 8)?;
            Ok(Flow::Leaves(*k))
        }
        Node::Again(k) => {
            spend(m, 8)?;
            Ok(Flow::Repeats(*k))
        }
        Node::Return(p) => {
            spend(m, 8)?;
            give(m, *p);
            Ok(Flow::Returns)
        }
    }
}

/// Nodes, one after another, with a bound on the calls and loop turns that are nested.
#[cycle(nodes)]
pub(crate) fn run_nodes<'a>(
    s: &Setting<'a>,
    m: &mut State<'a>,
    n: u32,
    xs: &[Node<u32>],
) -> Result<Flow, Stop>
    ensures { Leads result (state_of m.new) (ran (code_of s.now) s.now.frames.now n (nodes xs.now) (state_of m.old)) }
{
    for x in xs {
        match run_node(s, m, n, x)? {
            Flow::Next => {}
            Flow::Leaves(k) => return Ok(Flow::Leaves(k)),
            Flow::Repeats(k) => return Ok(Flow::Repeats(k)),
            Flow::Returns => return Ok(Flow::Returns),
        }
    }
    Ok(Flow::Next)
}
