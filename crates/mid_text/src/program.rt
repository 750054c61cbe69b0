// The text of functions and programs.
ghost use Rattle.std.specs.Prelude.{◌≡◌, ◌≤◌, ◌++◌, codes, map, length, IfOk, OnOk};
ghost use Rattle.std.specs.String.{string_bytes};
ghost use Rattle.std.specs.Fmt.{decimal};
ghost use Rattle.mid_code.specs.Functions.{function};
ghost use Rattle.mid_code.specs.View.{code};
ghost use Rattle.mid_code.specs.Whole.{mid};
ghost use Rattle.mid_text.specs.Text.{gives_text, counted_text, head_text, data_text, function_text, functions_text, literals_text, enclosed, code_text};

use crate::nodes::put_body;
use crate::pieces::{put, put_bytes, put_enclosed, put_number};
use kit_base::{Memory, Name};
use mid_code::{Code, Function, Mid};
use std::alloc::Global;

fn put_gives(out: &mut String, gives: bool) -> Result<(), Memory>
    ensures { OnOk result (string_bytes out.new ≡ string_bytes out.old ++ gives_text gives) }
{
    if gives { put(out, ", gives") } else { Ok(()) }
}

fn put_counted(out: &mut String, temps: u32, params: &[u32]) -> Result<(), Memory>
    ensures { OnOk result (string_bytes out.new ≡ string_bytes out.old ++ counted_text temps params.now) }
{
    put(out, ", temps ")?;
    put_number(out, u64::from(temps))?;
    put(out, ", params ")?;
    put_enclosed(out, params)
}

fn put_locals(out: &mut String, locals: &[u32]) -> Result<(), Memory>
    ensures { OnOk result (string_bytes out.new ≡ string_bytes out.old ++ (codes ", locals " ++ enclosed locals.now)) }
{
    put(out, ", locals ")?;
    put_enclosed(out, locals)
}

fn put_head(out: &mut String, f: &Function<u32>) -> Result<(), Memory>
    ensures { OnOk result (string_bytes out.new ≡ string_bytes out.old ++ head_text (function f.now)) }
{
    put_counted(out, f.temps, f.params.as_slice())?;
    put_locals(out, f.locals.as_slice())?;
    put_gives(out, f.result)
}

fn put_start(alloc: Global, out: &mut String, f: &Function<u32>) -> Result<(), Memory>
    ensures { OnOk result (string_bytes out.new ≡ string_bytes out.old ++ function_text (codes "start") (function f.now)) }
{
    put(out, "start")?;
    put_head(out, f)?;
    put(out, "\n")?;
    put_body(alloc, out, f.body.as_slice())
}

fn put_function(alloc: Global, out: &mut String, k: u64, f: &Function<u32>) -> Result<(), Memory>
    ensures { OnOk result (string_bytes out.new ≡ string_bytes out.old ++ function_text (codes "function " ++ decimal k) (function f.now)) }
{
    put(out, "function ")?;
    put_number(out, k)?;
    put_head(out, f)?;
    put(out, "\n")?;
    put_body(alloc, out, f.body.as_slice())
}

/// Adds functions under their numbers.
fn put_functions(alloc: Global, out: &mut String, fs: &[Function<u32>]) -> Result<(), Memory>
    ensures { OnOk result (string_bytes out.new ≡ string_bytes out.old ++ functions_text 0 (map function fs.now)) }
{
    'functions: for (k, f) in fs.iter().enumerate() {
        put_function(alloc, out, k as u64, f)?;
    }
    Ok(())
}

fn put_globals(out: &mut String, globals: &[u32]) -> Result<(), Memory>
    ensures { OnOk result (string_bytes out.new ≡ string_bytes out.old ++ (codes "globals " ++ enclosed globals.now ++ codes "\n")) }
{
    put(out, "globals ")?;
    put_enclosed(out, globals)?;
    put(out, "\n")
}

fn put_literal(out: &mut String, text: &Name) -> Result<(), Memory>
    ensures { OnOk result (string_bytes out.new ≡ string_bytes out.old ++ (codes "literal " ++ enclosed text.now ++ codes "\n")) }
{
    put(out, "literal ")?;
    put_bytes(out, text.bytes())?;
    put(out, "\n")
}

fn put_literals(out: &mut String, texts: &[Name]) -> Result<(), Memory>
    ensures { OnOk result (string_bytes out.new ≡ string_bytes out.old ++ literals_text texts.now) }
{
    'texts: for text in texts {
        put_literal(out, text)?;
    }
    Ok(())
}

fn put_main(out: &mut String, main: u32) -> Result<(), Memory>
    ensures { OnOk result (string_bytes out.new ≡ string_bytes out.old ++ (codes "main " ++ decimal main ++ codes "\n")) }
{
    put(out, "main ")?;
    put_number(out, u64::from(main))?;
    put(out, "\n")
}

fn put_data(out: &mut String, x: &Code<u32>) -> Result<(), Memory>
    ensures { OnOk result (string_bytes out.new ≡ string_bytes out.old ++ data_text (code x.now)) }
{
    put_globals(out, x.globals.as_slice())?;
    put_literals(out, x.literals.as_slice())?;
    put_main(out, x.main)
}

fn put_code(alloc: Global, out: &mut String, x: &Code<u32>) -> Result<(), Memory>
    ensures { OnOk result (string_bytes out.new ≡ string_bytes out.old ++ code_text (code x.now)) }
{
    put_start(alloc, out, &x.start)?;
    put_functions(alloc, out, x.functions.as_slice())?;
    put_data(out, x)
}

/// The text of mid code: the start and the functions, a line for each node, the words of the globals, the bytes of the literals, the number
/// of `main`. The error is want of memory.
pub fn write_mid(alloc: Global, m: &Mid) -> Result<String, Memory>
    ensures { IfOk result (λ s. string_bytes s ≡ code_text (mid m.now)) }
{
    let mut out = String::new(alloc);
    put_code(alloc, &mut out, m.code())?;
    Ok(out)
}
