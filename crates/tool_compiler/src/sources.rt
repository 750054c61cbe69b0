// A source of functions, and the files that it includes.
ghost use Rattle.std.specs.Prelude.{◌≡◌, length};

use c_lex::Token;
use c_parse::parse;
use c_prep::expand;
use kit_base::{FilesInMemory, Name, Seq};
use line_text::decimal_word;
use std::alloc::Global;

/// What is done with the source.
#[derive(Clone, Copy, Drop)]
pub enum Work {
    Expand,
    Parse,
}

/// How many files were read, or how many items there are.
#[derive(Clone, Copy, Drop)]
pub enum Told {
    Files(usize),
    Items(usize),
}

/// What is done, how many functions the source has, and how many files it includes; none where the arguments are none.
pub fn work_of(words: &[String]) -> Option<(Work, u32, u32)> {
    let [work, functions, includes] = words else {
        return None;
    };
    let work = match work.as_str() {
        "expand" => Work::Expand,
        "parse" => Work::Parse,
        _ => return None,
    };
    let functions = decimal_word(functions.as_str().as_bytes())?;
    let includes = decimal_word(includes.as_str().as_bytes())?;
    Some((work, functions, includes))
}

/// The source: a line for each file that it includes, then its functions; none for want of memory.
fn source(alloc: Global, functions: u32, includes: u32) -> Option<String> {
    let mut text = String::new(alloc);
    for k in 0..includes {
        writeln!(text, "#include \"file{k}\"").ok()?;
    }
    text.push_str("int f0(int x) { return x + 1; }\n").ok()?;
    for k in 1..functions {
        let below = k - 1;
        writeln!(
            text,
            "int f{k}(int x) {{ return f{below}(x) ^ (x + {k}); }}"
        )
        .ok()?;
    }
    Some(text)
}

fn hold(alloc: Global, held: &mut Vec<(Name, Seq<u8>)>, name: &str, text: &str) -> Option<()> {
    let bytes = Vec::from_slice(alloc, text.as_bytes()).ok()?;
    let name = Name::new(alloc, name).ok()?;
    held.push((name, Seq::from_vec(bytes))).ok()
}

/// The files of that source: each that it includes includes the one header; none for want of memory.
fn files(alloc: Global, functions: u32, includes: u32) -> Option<FilesInMemory> {
    let mut held = Vec::new(alloc);
    hold(
        alloc,
        &mut held,
        "source",
        source(alloc, functions, includes)?.as_str(),
    )?;
    let header = "#ifndef HEADER\n#define HEADER\n#define red 0xFF0000FF\nint shown;\n#endif\n";
    hold(alloc, &mut held, "header", header)?;
    for k in 0..includes {
        let mut name = String::new(alloc);
        write!(name, "file{k}").ok()?;
        hold(alloc, &mut held, name.as_str(), "#include \"header\"\n")?;
    }
    if !FilesInMemory::are_distinct(&held) {
        return None;
    }
    Some(FilesInMemory::new(alloc, held, Vec::new(alloc)))
}

/// How many items the tokens are; none where they are none, or memory ran out.
fn items(alloc: Global, tokens: &[Token]) -> Option<usize> {
    if tokens.len() > 200000 {
        return None;
    }
    let unit = parse(alloc, tokens).ok()?;
    Some(unit.items.as_slice().len())
}

/// How many tokens come out, and what else is told; none where there is no unit, or memory ran out.
pub fn done(alloc: Global, (work, functions, includes): (Work, u32, u32)) -> Option<(usize, Told)> {
    let mut files = files(alloc, functions, includes)?;
    let mut names = Vec::new(alloc);
    let tokens = expand(alloc, &mut files, "source", &mut names).ok()?;
    let told = match work {
        Work::Expand => Told::Files(names.len()),
        Work::Parse => Told::Items(items(alloc, &tokens)?),
    };
    Some((tokens.len(), told))
}
