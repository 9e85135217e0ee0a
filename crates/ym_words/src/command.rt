//! The command line, as clap reads it.

ghost use Rattle.std.specs.Prelude.{IfOk};
ghost use Rattle.clap.specs.Words.{App, new_app};
ghost use Rattle.ym_words.specs.CommandLine.{HasApp, bare_app, part_app, the_app, with_parts};

use crate::args::grown_by;
use crate::help;
use crate::parts::Part;
use clap::Command;
use std::alloc::{AllocError, Global};

/// The version of the program, of its packages and of the library for C: `tools/version.py` reads
/// it here.
const VERSION: &str = "0.2.0";

/// All commands of the program, those of serial lines first.
static PARTS: [Part; 8] = [
    Part::Sb,
    Part::Rb,
    Part::Send,
    Part::Receive,
    Part::Play,
    Part::Loop,
    Part::Explain,
    Part::Judge,
];

/// A command of this name, with what its help says before and behind its words.
fn new_command<'a>(alloc: Global, name: &'a str, about: &'a str, after_help: &'a str) -> Command<'a>
    ensures { HasApp result (new_app name.entry.now) }
{
    Command::new(alloc, name)
        .about(about)
        .after_help(after_help)
}

/// One of the commands.
fn command_of<'a>(alloc: Global, part: Part) -> Result<Command<'a>, AllocError>
    ensures { IfOk result (λ c. HasApp c (part_app part)) }
{
    let (name, words) = part.words();
    let (about, after_help) = part.texts();
    grown_by(alloc, new_command(alloc, name, about, after_help), words)
}

/// The command, with these parts more.
fn parted<'a>(
    alloc: Global,
    command: Command<'a>,
    parts: &[Part],
) -> Result<Command<'a>, AllocError>
    ensures { (app : App) → HasApp command.entry app
        → IfOk result (λ c. HasApp c (with_parts app parts.now)) }
{
    let mut grown = command;
    for part in parts {
        let made = command_of(alloc, *part)?;
        grown = grown.subcommand(made)?;
    }
    Ok(grown)
}

/// The whole command, yet without its parts.
fn bare_command<'a>(alloc: Global) -> Command<'a>
    ensures { HasApp result bare_app }
{
    new_command(alloc, "ymodem", help::ABOUT, help::TOP_HELP).version(VERSION)
}

/// The command line of the program.
pub(crate) fn the_command<'a>(alloc: Global) -> Result<Command<'a>, AllocError>
    ensures { IfOk result (λ c. HasApp c the_app) }
{
    parted(alloc, bare_command(alloc), &PARTS)
}
