//! The arguments of the commands, as clap reads them.

ghost use Rattle.std.specs.Prelude.{IfOk};
ghost use Rattle.clap.specs.Words.{App};
ghost use Rattle.ym_words.specs.CommandLine.{HasApp, HasRule, files_rule, flag_rule};
ghost use Rattle.ym_words.specs.CommandLine.{port_rule_if, value_rule, with_words, word_rule};
ghost use Rattle.ym_words.specs.declared.words.Word.TheVariants as word;

use crate::words::{Flag, Value, Word};
use clap::{Arg, ArgAction, Command};
use std::alloc::{AllocError, Global};

fn flag_arg<'a>(alloc: Global, flag: Flag) -> Arg<'a>
    ensures { HasRule result (flag_rule flag) }
{
    let (id, long, help) = flag.texts();
    Arg::new(alloc, id)
        .long(long)
        .help(help)
        .action(ArgAction::SetTrue)
}

/// An argument that takes one value, and may be left out.
fn value_arg<'a>(alloc: Global, id: &'a str, value: &'a str, help: &'a str) -> Arg<'a>
    ensures { HasRule result (value_rule id.entry.now) }
{
    Arg::new(alloc, id)
        .value_name(value)
        .help(help)
        .action(ArgAction::Set)
}

fn named_arg<'a>(alloc: Global, value: Value) -> Arg<'a>
    ensures { HasRule result (word_rule (word.Named value)) }
{
    let (id, name, help) = value.texts();
    value_arg(alloc, id, name, help).long(id)
}

fn placed_arg<'a>(alloc: Global, value: Value, required: bool) -> Arg<'a>
    ensures { HasRule result (word_rule (word.Placed value required)) }
{
    let (id, name, help) = value.texts();
    value_arg(alloc, id, name, help).required(required)
}

fn port_arg<'a>(alloc: Global, required: bool) -> Arg<'a>
    ensures { HasRule result (port_rule_if required) }
{
    value_arg(alloc, "port", "P", "The port on 127.0.0.1, from 1 to 65535")
        .short('p')
        .long("port")
        .required(required)
}

fn files_arg<'a>(alloc: Global) -> Arg<'a>
    ensures { HasRule result files_rule }
{
    value_arg(alloc, "files", "FILE", "The files to send")
        .required(true)
        .action(ArgAction::Append)
        .num_args(1..)
}

/// The argument of this word.
fn word_arg<'a>(alloc: Global, word: Word) -> Arg<'a>
    ensures { HasRule result (word_rule word) }
{
    match word {
        Word::Flag(flag) => flag_arg(alloc, flag),
        Word::Named(value) => named_arg(alloc, value),
        Word::Placed(value, required) => placed_arg(alloc, value, required),
        Word::Port(required) => port_arg(alloc, required),
        Word::Files => files_arg(alloc),
    }
}

/// The command, with these words more.
pub(crate) fn grown_by<'a>(
    alloc: Global,
    command: Command<'a>,
    words: &[Word],
) -> Result<Command<'a>, AllocError>
    ensures { (app : App) → HasApp command.entry app
        → IfOk result (λ c. HasApp c (with_words app words.now)) }
{
    let mut grown = command;
    for word in words {
        grown = grown.arg(word_arg(alloc, *word))?;
    }
    Ok(grown)
}
