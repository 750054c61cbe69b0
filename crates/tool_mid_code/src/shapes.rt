// Programs of a shape and a size.
use crate::made::mid_of;
use kit_base::{Memory, Seq};
use mid_code::{Code, Function, Mid, Node, Op};
use std::alloc::Global;
use v32_isa::Two;

/// What the functions of a program are like.
#[derive(Clone, Copy, Drop)]
pub enum Shape {
    /// One function, in which each temporary is the sum of the one before it and the first.
    Chain,
    /// One function, all of whose temporaries are live before they are added.
    Wide,
    /// One function of locals, each of which takes the value of the one before it.
    Locals,
    /// So many functions with a local each, of which each calls the one before it.
    Calls,
}

fn put(nodes: &mut Vec<Node<u32>>, o: Op<u32>) -> Result<(), Memory> {
    nodes.push(Node::Do(o))?;
    Ok(())
}

fn chain(alloc: Global, count: u32) -> Result<Vec<Node<u32>>, Memory> {
    let mut nodes = Vec::new(alloc);
    put(&mut nodes, Op::Const(0, 1))?;
    for i in 1..count {
        put(&mut nodes, Op::Two(Two::IADD, i, i.wrapping_sub(1), 0))?;
    }
    nodes.push(Node::Return(Some(count.wrapping_sub(1))))?;
    Ok(nodes)
}

fn wide(alloc: Global, count: u32) -> Result<Vec<Node<u32>>, Memory> {
    let mut nodes = Vec::new(alloc);
    for i in 0..count {
        put(&mut nodes, Op::Const(i, i))?;
    }
    for i in 1..count {
        put(&mut nodes, Op::Two(Two::IADD, 0, 0, i))?;
    }
    nodes.push(Node::Return(Some(0)))?;
    Ok(nodes)
}

/// Makes a local anew, writes a temporary into it and reads it.
fn through_local(nodes: &mut Vec<Node<u32>>, local: u32, from: u32) -> Result<(), Memory> {
    let p = from.wrapping_add(1);
    let q = from.wrapping_add(2);
    put(nodes, Op::Fresh(local))?;
    put(nodes, Op::Local(p, local))?;
    put(nodes, Op::Store(p, from))?;
    put(nodes, Op::Local(q, local))?;
    put(nodes, Op::Load(from.wrapping_add(3), q))
}

fn locals(alloc: Global, count: u32) -> Result<Vec<Node<u32>>, Memory> {
    let mut nodes = Vec::new(alloc);
    put(&mut nodes, Op::Const(0, 1))?;
    for k in 0..count {
        through_local(&mut nodes, k, k.wrapping_mul(3))?;
    }
    nodes.push(Node::Return(Some(count.wrapping_mul(3))))?;
    Ok(nodes)
}

fn caller(alloc: Global, before: Option<u32>) -> Result<Vec<Node<u32>>, Memory> {
    let mut nodes = Vec::new(alloc);
    put(&mut nodes, Op::Const(0, 1))?;
    through_local(&mut nodes, 0, 0)?;
    put(&mut nodes, Op::Const(4, 2))?;
    if let Some(f) = before {
        put(
            &mut nodes,
            Op::Call(Some(4), f, Seq::from_vec(Vec::new(alloc))),
        )?;
    }
    put(&mut nodes, Op::Two(Two::IADD, 5, 3, 4))?;
    nodes.push(Node::Return(Some(5)))?;
    Ok(nodes)
}

/// A function without parameters that gives a result, with `locals` locals of one word.
pub fn function_of(
    alloc: Global,
    temps: u32,
    locals: usize,
    body: Vec<Node<u32>>,
) -> Result<Function<u32>, Memory> {
    Ok(Function {
        temps,
        params: Seq::from_vec(Vec::new(alloc)),
        locals: Seq::from_vec(Vec::from_elem(alloc, 1, locals)?),
        result: true,
        body: Seq::from_vec(body),
    })
}

/// A program of these functions, of which main has this number; none where it is no mid code of this kind.
pub fn program_of(
    alloc: Global,
    functions: Vec<Function<u32>>,
    main: u32,
) -> Result<Option<Mid>, Memory> {
    let start = Function {
        temps: 0,
        params: Seq::from_vec(Vec::new(alloc)),
        locals: Seq::from_vec(Vec::new(alloc)),
        result: false,
        body: Seq::from_vec(Vec::new(alloc)),
    };
    Ok(mid_of(Code {
        start,
        functions: Seq::from_vec(functions),
        globals: Seq::from_vec(Vec::new(alloc)),
        literals: Seq::from_vec(Vec::new(alloc)),
        main,
    }))
}

fn callers(alloc: Global, count: u32) -> Result<Vec<Function<u32>>, Memory> {
    let mut functions = Vec::new(alloc);
    for i in 0..count {
        let body = caller(alloc, if i == 0 { None } else { Some(i - 1) })?;
        functions.push(function_of(alloc, 6, 1, body)?)?;
    }
    Ok(functions)
}

fn single(alloc: Global, f: Function<u32>) -> Result<Vec<Function<u32>>, Memory> {
    let mut functions = Vec::new(alloc);
    functions.push(f)?;
    Ok(functions)
}

/// A program of a shape with `count` temporaries, locals or functions; none where there are none or too many.
pub fn shaped(alloc: Global, shape: Shape, count: u32) -> Result<Option<Mid>, Memory> {
    let functions = match shape {
        Shape::Chain => single(alloc, function_of(alloc, count, 0, chain(alloc, count)?)?)?,
        Shape::Wide => single(alloc, function_of(alloc, count, 0, wide(alloc, count)?)?)?,
        Shape::Locals => single(alloc, local_function(alloc, count)?)?,
        Shape::Calls => callers(alloc, count)?,
    };
    let main = match shape {
        Shape::Calls => count.wrapping_sub(1),
        _ => 0,
    };
    program_of(alloc, functions, main)
}

fn local_function(alloc: Global, count: u32) -> Result<Function<u32>, Memory> {
    let temps = count.wrapping_mul(3).wrapping_add(1);
    function_of(alloc, temps, count as usize, locals(alloc, count)?)
}
