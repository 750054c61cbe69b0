// The texts of a program made up from a number.
ghost use Rattle.std.specs.Prelude.{◌≡◌, ◌≤◌, IfOk, length};
ghost use Rattle.gen_source.specs.Source.{project_text, function_head, function_call, function_end, function_line, function_lines, main_line, source_text};

use kit_base::{Memory, join_pieces};
use std::alloc::{AllocError, Global};

/// The text of the project: its title is `gen`, its one source `gen.c`.
#[tactic(auto, unfolding(crate::specs::Source::project_text))]
pub fn project_text() -> &'static [u8]
    ensures text { result.now ≡ project_text }
    ensures size { length result.now ≤ 64 }
{
    b"title gen\nsource gen.c\n"
}

/// The head of the function of a number.
#[tactic(auto, unfolding(crate::specs::Source::function_head))]
fn function_head(alloc: Global, own: u32) -> Result<Vec<u8>, AllocError>
    ensures { IfOk result (λ v. v.items ≡ function_head own) }
{
    let own = format!(in alloc; "{}", own)?;
    join_pieces(alloc, &[b"int f", own.as_bytes(), b"(int x)"])
}

/// The call of the function of a number.
#[tactic(auto, unfolding(crate::specs::Source::function_call))]
fn function_call(alloc: Global, below: u32) -> Result<Vec<u8>, AllocError>
    ensures { IfOk result (λ v. v.items ≡ function_call below) }
{
    let below = format!(in alloc; "{}", below)?;
    join_pieces(alloc, &[b" { return f", below.as_bytes(), b"(x)"])
}

/// The end of the function of a number.
#[tactic(auto, unfolding(crate::specs::Source::function_end))]
fn function_end(alloc: Global, own: u32) -> Result<Vec<u8>, AllocError>
    ensures { IfOk result (λ v. v.items ≡ function_end own) }
{
    let own = format!(in alloc; "{}", own)?;
    join_pieces(alloc, &[b" ^ (x + ", own.as_bytes(), b"); }\n"])
}

/// The line of the function of a number, which calls the one of another.
#[tactic(auto, unfolding(crate::specs::Source::function_line))]
fn function_line(alloc: Global, own: u32, below: u32) -> Result<Vec<u8>, AllocError>
    ensures { IfOk result (λ v. v.items ≡ function_line own below) }
{
    let head = function_head(alloc, own)?;
    let call = function_call(alloc, below)?;
    let end = function_end(alloc, own)?;
    join_pieces(alloc, &[&head, &call, &end])
}

/// The lines of `count` functions, behind the first one.
#[tactic(auto, using(crate::proofs::Lines::one_more))]
fn functions(alloc: Global, count: u32) -> Result<Vec<u8>, AllocError>
    ensures { IfOk result (λ v. v.items ≡ function_lines count) }
{
    let mut out = Vec::new(alloc);
    'lines: for k in 0..count {
        let line = function_line(alloc, k + 1, k)?;
        out.extend_from_slice(&line)?;
    }
    Ok(out)
}

/// The line of `main`, which calls the function of that number.
#[tactic(auto, unfolding(crate::specs::Source::main_line))]
fn main_line(alloc: Global, last: u32) -> Result<Vec<u8>, AllocError>
    ensures { IfOk result (λ v. v.items ≡ main_line last) }
{
    let last = format!(in alloc; "{}", last)?;
    join_pieces(
        alloc,
        &[
            b"void main() { port_out(GPU_ClearColor, f",
            last.as_bytes(),
            b"(7)); }\n",
        ],
    )
}

/// The source of a program of `count` functions, of which each calls the one before it, and of `main`, which calls the last with 7 and puts
/// what it gives; of none it is that of one. The error is want of memory.
#[tactic(auto, unfolding(crate::specs::Source::source_text))]
pub fn source_text(alloc: Global, count: u32) -> Result<Vec<u8>, Memory>
    ensures { IfOk result (λ v. v.items ≡ source_text count) }
{
    let last = count.saturating_sub(1);
    let functions = functions(alloc, last)?;
    let main = main_line(alloc, last)?;
    Ok(join_pieces(
        alloc,
        &[b"int f0(int x) { return x + 1; }\n", &functions, &main],
    )?)
}
