// A pass over a made-up program.
use kit_base::{Memory, Seq};
use line_text::decimal_word;
use mid_code::{Choice, Mid, Where};
use mid_improve::{improve, is_settled};
use mid_scalars::promote;
use reg_choose::choose_all;
use reg_frames::place;
use std::alloc::Global;
use tool_mid_code::{Shape, is_safe_at, shaped};

/// What is done.
#[derive(Clone, Copy, Drop)]
pub enum Pass {
    None,
    Promote,
    Improve,
    Settled,
    Choose,
    Safe,
    Shared,
    Place,
}

/// A pass over a program of a shape and a size, so many times.
#[derive(Clone, Copy, Drop)]
pub struct Work {
    pub shape: Shape,
    pub count: u32,
    pub pass: Pass,
    pub times: u32,
}

fn shape_of(word: &str) -> Option<Shape> {
    match word {
        "chain" => Some(Shape::Chain),
        "wide" => Some(Shape::Wide),
        "locals" => Some(Shape::Locals),
        "calls" => Some(Shape::Calls),
        _ => None,
    }
}

fn pass_of(word: &str) -> Option<Pass> {
    match word {
        "none" => Some(Pass::None),
        "promote" => Some(Pass::Promote),
        "improve" => Some(Pass::Improve),
        "settled" => Some(Pass::Settled),
        "choose" => Some(Pass::Choose),
        "safe" => Some(Pass::Safe),
        "shared" => Some(Pass::Shared),
        "place" => Some(Pass::Place),
        _ => None,
    }
}

/// The work; none where the arguments are none.
pub fn words_of(words: &[String]) -> Option<Work> {
    let [shape, count, pass, times] = words else {
        return None;
    };
    let shape = shape_of(shape.as_str())?;
    let count = decimal_word(count.as_str().as_bytes())?;
    let pass = pass_of(pass.as_str())?;
    let times = decimal_word(times.as_str().as_bytes())?;
    Some(Work {
        shape,
        count,
        pass,
        times,
    })
}

/// Whether the choices behind the first, which is that of the start, are safe for the functions.
fn all_safe(alloc: Global, m: &Mid, choices: &[Choice]) -> Result<bool, Memory> {
    let mut all = true;
    let mut k: usize = 0;
    for c in choices {
        if k > 0 {
            all = all && is_safe_at(alloc, m, k.wrapping_sub(1), c)?;
        }
        k = k.wrapping_add(1);
    }
    Ok(all)
}

/// Whether it is safe for each function that all its temporaries share one register.
fn all_shared(alloc: Global, m: &Mid) -> Result<bool, Memory> {
    let mut all = true;
    let mut k: usize = 0;
    for f in m.code().functions.as_slice() {
        let at = Vec::from_elem(alloc, Where::Reg(0), f.temps as usize)?;
        let choice = Choice {
            at: Seq::from_vec(at),
        };
        all = all && is_safe_at(alloc, m, k, &choice)?;
        k = k.wrapping_add(1);
    }
    Ok(all)
}

/// What came of a pass over the program.
fn done(alloc: Global, m: Mid, pass: Pass) -> Result<bool, Memory> {
    match pass {
        Pass::None => Ok(true),
        Pass::Promote => {
            let promoted = promote(alloc, m)?;
            Ok(promoted.code().functions.as_slice().len() > 0)
        }
        Pass::Improve => {
            let improved = improve(alloc, m)?;
            Ok(improved.code().functions.as_slice().len() > 0)
        }
        Pass::Settled => is_settled(alloc, &m),
        Pass::Choose => Ok(choose_all(alloc, &m)?.len() > 1),
        Pass::Safe => {
            let choices = choose_all(alloc, &m)?;
            all_safe(alloc, &m, choices.as_slice())
        }
        Pass::Shared => all_shared(alloc, &m),
        Pass::Place => {
            let choices = choose_all(alloc, &m)?;
            let placed = place(alloc, &m, choices.as_slice())?;
            Ok(placed.code().functions.as_slice().len() > 0)
        }
    }
}

fn once(alloc: Global, work: Work) -> Result<bool, Memory> {
    match shaped(alloc, work.shape, work.count)? {
        Some(m) => done(alloc, m, work.pass),
        None => Ok(false),
    }
}

/// What came of the work.
pub fn repeated(alloc: Global, work: Work) -> &'static str {
    let mut all = true;
    for _ in 0..work.times {
        match once(alloc, work) {
            Ok(good) => all = all && good,
            Err(_) => return "no memory",
        }
    }
    if all { "done" } else { "not done" }
}
