// What the parser is told of the command line: a subcommand for each form, with its arguments by name.
ghost use Rattle.std.specs.Prelude.{◌≡◌, IfOk, false};
ghost use Rattle.clap.specs.Words.{app_of, rule_of};
ghost use Rattle.clap.specs.declared.builder.command.Command.TheViews.{out-Command};
ghost use Rattle.kit_words.specs.inner.CommandLine.{command_line, form_alone, no_forms, required, texts_of, with_converting, with_form};

use clap::{Arg, Command};
use std::alloc::{AllocError, Global};

/// An argument that must be given, as one text.
fn required<'a>(alloc: Global, id: &'a str) -> Arg<'a>
    ensures rule { rule_of result ≡ required id.entry.now }
    ensures local { result.global ≡ false }
{
    Arg::new(alloc, id).required(true)
}

/// A form of the command line, with its arguments in order.
fn form<'a>(alloc: Global, name: &'a str, arguments: &[&'a str]) -> Result<Command<'a>, AllocError>
    ensures shape { IfOk result (λ c. app_of c ≡ form_alone name.entry.now (texts_of arguments.entry.now)) }
    ensures local { IfOk result (λ c. (out-Command c).has_globals ≡ false) }
{
    let mut command = Command::new(alloc, name);
    for id in arguments {
        command = command.arg(required(alloc, id))?;
    }
    Ok(command)
}

/// The command line without a form.
fn no_forms<'a>(alloc: Global) -> Command<'a>
    ensures { app_of result ≡ no_forms }
{
    Command::new(alloc, "kit")
        .no_binary_name(true)
        .disable_help_flag(true)
        .disable_help_subcommand(true)
        .subcommand_required(true)
}

/// The command line with one form more.
fn with_form<'a>(
    alloc: Global,
    command: Command<'a>,
    name: &'a str,
    arguments: &[&'a str],
) -> Result<Command<'a>, AllocError>
    ensures { IfOk result (λ c. app_of c ≡ with_form name.entry.now (texts_of arguments.entry.now) (app_of command.entry)) }
{
    command.subcommand(form(alloc, name, arguments)?)
}

/// The forms that make one file of another.
fn with_converting<'a>(alloc: Global, command: Command<'a>) -> Result<Command<'a>, AllocError>
    ensures { IfOk result (λ c. app_of c ≡ with_converting (app_of command.entry)) }
{
    let command = with_form(alloc, command, "migrate", &["source", "target"])?;
    let command = with_form(alloc, command, "asm", &["source", "target"])?;
    with_form(alloc, command, "dis", &["source", "target"])
}

/// All forms of the command line.
pub fn command_line<'a>(alloc: Global) -> Result<Command<'a>, AllocError>
    ensures { IfOk result (λ c. app_of c ≡ command_line) }
{
    let command = no_forms(alloc);
    let command = with_form(alloc, command, "build", &["project", "cart", "map"])?;
    let command = with_form(alloc, command, "check", &["project"])?;
    let command = with_converting(alloc, command)?;
    let command = with_form(
        alloc,
        command,
        "run",
        &["cart", "pads", "frames", "samples", "count", "card"],
    )?;
    let command = with_form(
        alloc,
        command,
        "play",
        &[
            "project", "cart", "map", "pads", "frames", "samples", "count", "card",
        ],
    )?;
    let command = with_form(
        alloc,
        command,
        "watch",
        &["project", "cart", "map", "pads", "count", "card"],
    )?;
    let command = with_form(
        alloc,
        command,
        "bounds",
        &["project", "cart", "map", "text"],
    )?;
    let command = with_form(
        alloc,
        command,
        "trace",
        &["cart", "answers", "card", "steps"],
    )?;
    with_form(alloc, command, "gen", &["number", "project", "cart", "map"])
}
