// A chain of functions, compiled.
use c_check::{Program, check};
use c_compile::compile;
use c_front::read_unit;
use kit_base::{FilesInMemory, Memory, Name, Seq};
use line_text::decimal_word;
use mid_lower::lower;
use std::alloc::Global;

/// What is done with the program.
#[derive(Clone, Copy, Drop)]
pub enum Pass {
    None,
    Lower,
    Compile,
}

/// How many functions, what is done, and how often.
#[derive(Clone, Copy, Drop)]
pub struct Work {
    count: u32,
    pass: Pass,
    times: u32,
}

/// What the words ask for.
pub fn words_of(words: &[String]) -> Option<Work> {
    let [count, pass, times] = words else {
        return None;
    };
    let pass = match pass.as_str() {
        "none" => Pass::None,
        "lower" => Pass::Lower,
        "compile" => Pass::Compile,
        _ => return None,
    };
    Some(Work {
        count: decimal_word(count.as_str().as_bytes())?,
        pass,
        times: decimal_word(times.as_str().as_bytes())?,
    })
}

/// The text of a chain of functions.
fn chain(alloc: Global, count: u32) -> Result<Vec<u8>, Memory> {
    let mut text = Vec::from_slice(alloc, b"int f0(int x) { return x; }\n")?;
    let mut before = 0;
    for k in 1..count {
        let line = format!(in alloc;
            "int f{}(int x) {{ return f{}(x) ^ (x + {}); }}\n",
            k, before, k
        )?;
        text.extend_from_slice(line.as_bytes())?;
        before = k;
    }
    let last = format!(in alloc;
        "void main() {{ port_out(GPU_ClearColor, f{}(1)); }}\n",
        before
    )?;
    text.extend_from_slice(last.as_bytes())?;
    Ok(text)
}

fn carry_out(alloc: Global, program: &Program, pass: Pass) -> Result<(), Memory> {
    match pass {
        Pass::None => {}
        Pass::Lower => drop(lower(alloc, program)?),
        Pass::Compile => drop(compile(alloc, program)?),
    }
    Ok(())
}

/// Does the work; how many functions the program has, none where it is none or memory ran out.
pub fn done(alloc: Global, work: Work) -> Option<usize> {
    let text = chain(alloc, work.count).ok()?;
    let mut held = Vec::new(alloc);
    held.push((Name::new(alloc, "main.c").ok()?, Seq::from_vec(text)))
        .ok()?;
    if !FilesInMemory::are_distinct(&held) {
        return None;
    }
    let mut files = FilesInMemory::new(alloc, held, Vec::new(alloc));
    let parsed = read_unit(alloc, &mut files, "main.c").ok()?;
    let program = check(alloc, &parsed.unit).ok()?;
    for _ in 0..work.times {
        carry_out(alloc, &program, work.pass).ok()?;
    }
    Some(program.functions().len())
}
