// The command that the words name.
ghost use Rattle.std.specs.Prelude.{◌≡◌, [], ◌∷◌, IfOk, None, not, option_map, string_bytes};
ghost use Rattle.std.specs.List.{list_all};
ghost use Rattle.std.specs.Str.{bytes_eq};
ghost use Rattle.clap.specs.Words.{found_of, rows_of, subcommand_rows_of};
ghost use Rattle.clap.specs.Walk.{first_of};
ghost use Rattle.clap.specs.declared.error.kind.ErrorKind.TheVariants.{OutOfMemory};
ghost use Rattle.kit_words.specs.Forms.{Builds, Checks, Converts, Generates, Plays, Runs, TellsBounds, Traces, Watches, are_different, card_of};
ghost use Rattle.kit_words.specs.Forms.{is_number, is_word, source_name};
ghost use Rattle.kit_words.specs.Command.{command_of, is_number_if_there, texts};
ghost use Rattle.kit_words.specs.inner.CommandLine.{checked, command_in, form_in, given_to, texts_of};
ghost use Rattle.kit_words.specs.Created.{created_names, number_word, run_names};
ghost use Rattle.kit_words.specs.Parsed.{command_from, run_words_from};

use crate::command_line::command_line;
use crate::conversion::Conversion;
use clap::ArgMatches;
use clap::error::ErrorKind;
use kit_base::Memory;
use std::alloc::Global;

/// The words of a run.
#[derive(Clone, Copy)]
pub struct RunWords<'a> {
    pub cart: &'a str,
    pub pads: &'a str,
    pub frames: &'a str,
    pub samples: &'a str,
    pub count: &'a str,
    pub card: Option<&'a str>,
}

/// The words of a run whose source is followed.
#[derive(Clone, Copy)]
pub struct WatchWords<'a> {
    pub project: &'a str,
    pub cart: &'a str,
    pub map: &'a str,
    pub pads: &'a str,
    pub count: &'a str,
    pub card: Option<&'a str>,
}

/// A command, with the words that it was given.
#[derive(Clone, Copy)]
pub enum Command<'a> {
    Build {
        project: &'a str,
        cart: &'a str,
        map: &'a str,
    },
    Convert {
        conversion: Conversion,
        source: &'a str,
        target: &'a str,
    },
    Trace {
        cart: &'a str,
        answers: &'a str,
        card: Option<&'a str>,
        steps: &'a str,
    },
    Run(RunWords<'a>),
    Play {
        project: &'a str,
        map: &'a str,
        words: RunWords<'a>,
    },
    Watch(WatchWords<'a>),
    Bounds {
        project: &'a str,
        cart: &'a str,
        map: &'a str,
        text: &'a str,
    },
    Check {
        project: &'a str,
    },
    Gen {
        number: &'a str,
        project: &'a str,
        cart: &'a str,
        map: &'a str,
    },
}

/// The file of the source that `gen` makes up.
pub const SOURCE_NAME: &str = "gen.c";

/// Whether an argument may be a name or a number.
fn is_word(word: &str) -> bool
    ensures { result ≡ is_word word.now }
{
    match word.as_bytes() {
        [] => false,
        [first, ..] => *first != b'-',
    }
}

fn are_words(arguments: &[String]) -> bool
    ensures { result ≡ list_all (λ word. is_word (string_bytes word)) arguments.now }
{
    arguments.iter().all(|word| is_word(word.as_str()))
}

/// The word that was given for an argument.
#[tactic(auto, using(crate::proofs::Given::first_rows))]
fn word_of<'a>(given: &ArgMatches<'a>, id: &str) -> Option<&'a str>
    ensures { option_map (λ word. word.now) result ≡ first_of id.now (rows_of (found_of given.now)) }
{
    given.get_str(id)
}

/// Whether all of the word is decimal digits.
fn is_number(word: &str) -> bool
    ensures { result ≡ is_number word.now }
{
    word.as_bytes()
        .iter()
        .all(|byte| b'0' <= *byte && *byte <= b'9')
}

/// Whether the word of the command that has to be a number is one.
fn has_number(command: &Command<'_>) -> bool
    ensures { result ≡ is_number_if_there (number_word (command_from command.now)) }
{
    match *command {
        Command::Build { .. } => true,
        Command::Convert { .. } => true,
        Command::Trace { steps, .. } => is_number(steps),
        Command::Run(words) => is_number(words.count),
        Command::Play { words, .. } => is_number(words.count),
        Command::Watch(words) => is_number(words.count),
        Command::Bounds { .. } => true,
        Command::Check { .. } => true,
        Command::Gen { number, .. } => is_number(number),
    }
}

/// Whether the name is none of the others.
fn differs_from(name: &str, others: &[&str]) -> bool
    ensures { result ≡ list_all (λ other. not (bytes_eq name.now other.now)) others.now }
{
    others.iter().all(|other| name != *other)
}

/// Whether no two of the names are spelled alike.
#[tactic(auto, using(crate::proofs::Different::one_more))]
fn are_different(names: &[&str]) -> bool
    ensures { result ≡ are_different (texts_of names.now) }
{
    match names.split_first() {
        None => true,
        Some((first, after)) => differs_from(first, after) && are_different(after),
    }
}

/// Whether the files that a run creates are different ones.
fn run_differs(words: &RunWords<'_>) -> bool
    ensures { result ≡ are_different (run_names (run_words_from words.now)) }
{
    match words.card {
        None => are_different(&[words.frames, words.samples]),
        Some(card) => are_different(&[words.frames, words.samples, card]),
    }
}

/// Whether the cartridge, the map and the files that the run creates are different ones.
fn play_differs(map: &str, words: &RunWords<'_>) -> bool
    ensures { result ≡ are_different (words.now.cart.now ∷ map.now ∷ run_names (run_words_from words.now)) }
{
    match words.card {
        None => are_different(&[words.cart, map, words.frames, words.samples]),
        Some(card) => are_different(&[words.cart, map, words.frames, words.samples, card]),
    }
}

/// Whether the source, the project, the cartridge and the map are different files.
#[tactic(auto, unfolding(crate::specs::Forms::are_different))]
fn gen_differs(project: &str, cart: &str, map: &str) -> bool
    ensures { result ≡ are_different (source_name ∷ project.now ∷ cart.now ∷ map.now ∷ []) }
{
    differs_from(SOURCE_NAME, &[project, cart, map]) && are_different(&[project, cart, map])
}

/// Whether the files that the command creates are different ones.
fn created_differ(command: &Command<'_>) -> bool
    ensures { result ≡ are_different (created_names (command_from command.now)) }
{
    match *command {
        Command::Build { cart, map, .. } => are_different(&[cart, map]),
        Command::Convert { target, .. } => are_different(&[target]),
        Command::Trace { .. } => are_different(&[]),
        Command::Run(words) => run_differs(&words),
        Command::Play { map, words, .. } => play_differs(map, &words),
        Command::Watch(words) => are_different(&[words.cart, words.map]),
        Command::Bounds {
            cart,
            map,
            text,
            ..
        } => are_different(&[cart, map, text]),
        Command::Check { .. } => are_different(&[]),
        Command::Gen {
            project,
            cart,
            map,
            ..
        } => gen_differs(project, cart, map),
    }
}

/// The command, where its number is one and the files that it creates are different ones.
#[tactic(auto, unfolding(crate::specs::Command::tested))]
fn checked<'a>(command: Command<'a>) -> Option<Command<'a>>
    ensures { option_map command_from result ≡ checked (command_from command.entry) }
{
    if has_number(&command) && created_differ(&command) {
        Some(command)
    } else {
        None
    }
}

fn build_in<'a>(given: &ArgMatches<'a>) -> Option<Command<'a>>
    ensures { option_map command_from result ≡ given_to Builds (rows_of (found_of given.now)) }
{
    let project = word_of(given, "project")?;
    let cart = word_of(given, "cart")?;
    let map = word_of(given, "map")?;
    checked(Command::Build { project, cart, map })
}

fn convert_in<'a>(conversion: Conversion, given: &ArgMatches<'a>) -> Option<Command<'a>>
    ensures { option_map command_from result ≡ given_to (Converts conversion) (rows_of (found_of given.now)) }
{
    let source = word_of(given, "source")?;
    let target = word_of(given, "target")?;
    checked(Command::Convert {
        conversion,
        source,
        target,
    })
}

/// The card file of that word.
fn card_of(word: &str) -> Option<&str>
    ensures { option_map (λ name. name.now) result ≡ card_of word.now }
{
    if word == "none" { None } else { Some(word) }
}

fn trace_in<'a>(given: &ArgMatches<'a>) -> Option<Command<'a>>
    ensures { option_map command_from result ≡ given_to Traces (rows_of (found_of given.now)) }
{
    let cart = word_of(given, "cart")?;
    let answers = word_of(given, "answers")?;
    let card = word_of(given, "card")?;
    let steps = word_of(given, "steps")?;
    let card = card_of(card);
    checked(Command::Trace {
        cart,
        answers,
        card,
        steps,
    })
}

fn run_in<'a>(given: &ArgMatches<'a>) -> Option<Command<'a>>
    ensures { option_map command_from result ≡ given_to Runs (rows_of (found_of given.now)) }
{
    let cart = word_of(given, "cart")?;
    let pads = word_of(given, "pads")?;
    let frames = word_of(given, "frames")?;
    let samples = word_of(given, "samples")?;
    let count = word_of(given, "count")?;
    let card = word_of(given, "card")?;
    let card = card_of(card);
    checked(Command::Run(RunWords {
        cart,
        pads,
        frames,
        samples,
        count,
        card,
    }))
}

fn play_in<'a>(given: &ArgMatches<'a>) -> Option<Command<'a>>
    ensures { option_map command_from result ≡ given_to Plays (rows_of (found_of given.now)) }
{
    let project = word_of(given, "project")?;
    let cart = word_of(given, "cart")?;
    let map = word_of(given, "map")?;
    let pads = word_of(given, "pads")?;
    let frames = word_of(given, "frames")?;
    let samples = word_of(given, "samples")?;
    let count = word_of(given, "count")?;
    let card = word_of(given, "card")?;
    let card = card_of(card);
    checked(Command::Play {
        project,
        map,
        words: RunWords {
            cart,
            pads,
            frames,
            samples,
            count,
            card,
        },
    })
}

fn watch_in<'a>(given: &ArgMatches<'a>) -> Option<Command<'a>>
    ensures { option_map command_from result ≡ given_to Watches (rows_of (found_of given.now)) }
{
    let project = word_of(given, "project")?;
    let cart = word_of(given, "cart")?;
    let map = word_of(given, "map")?;
    let pads = word_of(given, "pads")?;
    let count = word_of(given, "count")?;
    let card = word_of(given, "card")?;
    let card = card_of(card);
    checked(Command::Watch(WatchWords {
        project,
        cart,
        map,
        pads,
        count,
        card,
    }))
}

fn bounds_in<'a>(given: &ArgMatches<'a>) -> Option<Command<'a>>
    ensures { option_map command_from result ≡ given_to TellsBounds (rows_of (found_of given.now)) }
{
    let project = word_of(given, "project")?;
    let cart = word_of(given, "cart")?;
    let map = word_of(given, "map")?;
    let text = word_of(given, "text")?;
    checked(Command::Bounds {
        project,
        cart,
        map,
        text,
    })
}

fn check_in<'a>(given: &ArgMatches<'a>) -> Option<Command<'a>>
    ensures { option_map command_from result ≡ given_to Checks (rows_of (found_of given.now)) }
{
    let project = word_of(given, "project")?;
    checked(Command::Check { project })
}

fn gen_in<'a>(given: &ArgMatches<'a>) -> Option<Command<'a>>
    ensures { option_map command_from result ≡ given_to Generates (rows_of (found_of given.now)) }
{
    let number = word_of(given, "number")?;
    let project = word_of(given, "project")?;
    let cart = word_of(given, "cart")?;
    let map = word_of(given, "map")?;
    checked(Command::Gen {
        number,
        project,
        cart,
        map,
    })
}

#[tactic(auto, unfolding(crate::specs::inner::CommandLine::form_in, crate::specs::Forms::form_named))]
fn form_in<'a>(name: &str, given: &ArgMatches<'a>) -> Option<Command<'a>>
    ensures { option_map command_from result ≡ form_in name.now (rows_of (found_of given.now)) }
{
    if name == "build" {
        build_in(given)
    } else if name == "check" {
        check_in(given)
    } else if name == "migrate" {
        convert_in(Conversion::Migrate, given)
    } else if name == "asm" {
        convert_in(Conversion::Assemble, given)
    } else if name == "dis" {
        convert_in(Conversion::Disassemble, given)
    } else if name == "run" {
        run_in(given)
    } else if name == "play" {
        play_in(given)
    } else if name == "watch" {
        watch_in(given)
    } else if name == "bounds" {
        bounds_in(given)
    } else if name == "trace" {
        trace_in(given)
    } else if name == "gen" {
        gen_in(given)
    } else {
        None
    }
}

/// The command of the subcommand that was met.
fn command_in<'a>(matches: &ArgMatches<'a>) -> Option<Command<'a>>
    ensures { option_map command_from result ≡ command_in (subcommand_rows_of matches.now) }
{
    let (name, given) = matches.subcommand()?;
    form_in(name, given)
}

/// What a refusal of that kind becomes: want of memory stays one, and any other says that the words
/// are no listed form.
fn refused<'a>(kind: ErrorKind) -> Result<Option<Command<'a>>, Memory>
    ensures { IfOk result (λ command. (command ≡ None) × (kind ≡ OutOfMemory → ⊥)) }
{
    match kind {
        ErrorKind::OutOfMemory => Err(Memory),
        _ => Ok(None),
    }
}

/// The command of these words, or none where they are no listed form. `Err`: memory ran out.
pub fn command_of<'a>(alloc: Global, words: &'a [String]) -> Result<Option<Command<'a>>, Memory>
    ensures { IfOk result (λ command. option_map command_from command ≡ command_of (texts words.now)) }
{
    if !are_words(words) {
        return Ok(None);
    }
    match command_line(alloc)?.try_get_matches_from(words) {
        Ok(matches) => Ok(command_in(&matches)),
        Err(error) => refused(error.kind()),
    }
}
