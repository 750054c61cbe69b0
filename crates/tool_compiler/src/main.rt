//! Work of the compiler's parts for measuring.
//!
//! `tool_compiler sources expand FUNCTIONS FILES` expands a source of so many functions of twenty tokens each that includes so many files, each
//! of which includes one header, and puts how many tokens come out and how many files were read. `tool_compiler sources parse FUNCTIONS FILES`
//! parses those tokens as well, and puts how many items they are. `tool_compiler meaning WORK BOUND` runs a loop of arithmetic, calls, accesses
//! to an array or blocks by the evaluator, with frames of 16 words, until the bound is used up, and puts how it ended.
//! `tool_compiler passes SHAPE COUNT PASS TIMES` makes a program of mid code of a shape and a size so many times and does a pass over it each
//! time. `tool_compiler compile COUNT none|lower|compile TIMES` makes a chain of so many functions, each of which calls the one before it, lowers
//! or compiles it so many times, and puts how many functions it has. It promises nothing beyond safety; what the parts give is promised by their
//! crates.
#![tactic(auto)]

mod compiling;
mod meaning;
mod passes;
mod sources;

use crate::sources::Told;
use std::{env, io};

fn main(rt: HostRuntime) -> io::Result<()> {
    let mut words = Vec::new(rt.alloc());
    for word in env::args(&rt)?.skip(1) {
        words.push(word)?;
    }
    if let [part, given @ ..] = words.as_slice() {
        match part.as_str() {
            "sources" => return put_sources(&rt, given),
            "meaning" => return put_meaning(&rt, given),
            "passes" => return put_passes(&rt, given),
            "compile" => return put_compiled(&rt, given),
            _ => {}
        }
    }
    println!(rt; "usage: tool_compiler sources, meaning, passes or compile, and its words")
}

fn put_sources(rt: &HostRuntime, words: &[String]) -> io::Result<()> {
    let Some(work) = sources::work_of(words) else {
        return println!(rt; "usage: tool_compiler sources expand|parse FUNCTIONS FILES");
    };
    match sources::done(rt.alloc(), work) {
        Some((tokens, Told::Files(files))) => println!(rt; "tokens {tokens} files {files}"),
        Some((tokens, Told::Items(items))) => println!(rt; "tokens {tokens} items {items}"),
        None => println!(rt; "none"),
    }
}

fn put_meaning(rt: &HostRuntime, words: &[String]) -> io::Result<()> {
    let Some((work, bound)) = meaning::words_of(words) else {
        return println!(rt; "usage: tool_compiler meaning arithmetic|calls|accesses|blocks BOUND");
    };
    println!(rt; "{}", meaning::outcome(rt.alloc(), work, bound))
}

fn put_passes(rt: &HostRuntime, words: &[String]) -> io::Result<()> {
    let Some(work) = passes::words_of(words) else {
        return println!(rt;
            "usage: tool_compiler passes chain|wide|locals|calls COUNT none|promote|choose|safe|shared|place TIMES"
        );
    };
    println!(rt; "{}", passes::repeated(rt.alloc(), work))
}

fn put_compiled(rt: &HostRuntime, words: &[String]) -> io::Result<()> {
    let Some(work) = compiling::words_of(words) else {
        return println!(rt; "usage: tool_compiler compile COUNT none|lower|compile TIMES");
    };
    match compiling::done(rt.alloc(), work) {
        Some(functions) => println!(rt; "{functions}"),
        None => println!(rt; "none"),
    }
}
