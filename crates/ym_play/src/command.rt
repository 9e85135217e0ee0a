//! The commands of a script.

ghost use Rattle.std.specs.Prelude.{◌≡◌, ◌∷◌, [], MatchOption, true, false};
ghost use Rattle.std.specs.Option.{option_map};
ghost use Rattle.ym_play.specs.Words.{words_of, has_colon, before_colon, behind_colon};
ghost use Rattle.ym_play.specs.Command.{command_of, command_at, command_in, file_at, stamped_at, rounds_at, round_at, delivery_at, delivery_in};

use crate::words::{has_empty_word, is_word, split_word};

/// What becomes of a delivery, its bytes as they are written.
#[derive(Clone, Copy)]
pub(crate) enum DeliveryText<'a> {
    Whole,
    Lost,
    /// Damaged into the bytes of these hexadecimal digits.
    Damaged(&'a str),
}

/// A stamp as it is written: numbers in octal.
#[derive(Clone, Copy)]
pub(crate) enum StampText<'a> {
    Nothing,
    Time(&'a str),
    TimeMode(&'a str, &'a str),
}

/// What a line says, with names and values as they are written.
#[derive(Clone, Copy)]
pub(crate) enum Command<'a> {
    /// `short`: short blocks alone.
    Short,
    /// `single`: the receiver acknowledges the first EOT.
    Single,
    /// `file NAME HEX`, and a stamp behind it: one more file.
    File {
        name: &'a str,
        bytes: &'a str,
        stamp: StampText<'a>,
    },
    /// `ok N`: so many whole rounds.
    Rounds(&'a str),
    /// `round T B`: one round.
    Round {
        there: DeliveryText<'a>,
        back: DeliveryText<'a>,
    },
}

fn split_colon(word: &str) -> Option<(&str, &str)>
    ensures { MatchOption result (has_colon word.now ≡ false)
        (λ parts.
        (has_colon word.now ≡ true) × (parts.0.now ≡ before_colon word.now) ×
        (parts.1.now ≡ behind_colon word.now)) }
{
    word.split_once(':')
}

/// The delivery that a word stands for.
fn delivery_of<'a>(word: &'a str) -> Option<DeliveryText<'a>>
    ensures { option_map delivery_in result ≡ delivery_at word.entry.now }
{
    if word == "whole" {
        return Some(DeliveryText::Whole);
    }
    if word == "lost" {
        return Some(DeliveryText::Lost);
    }
    let (kind, digits) = split_colon(word)?;
    if kind != "hex" {
        return None;
    }
    Some(DeliveryText::Damaged(digits))
}

/// `round T B`, of what stands behind the first word.
fn round_of<'a>(rest: &'a str) -> Option<Command<'a>>
    ensures { option_map command_in result ≡ round_at (words_of rest.entry.now) }
{
    let (there, back) = split_word(rest)?;
    if !is_word(back) {
        return None;
    }
    let there = delivery_of(there)?;
    let back = delivery_of(back)?;
    Some(Command::Round { there, back })
}

/// `ok N`, of what stands behind the first word.
fn rounds_of<'a>(rest: &'a str) -> Option<Command<'a>>
    ensures { option_map command_in result ≡ rounds_at (words_of rest.entry.now) }
{
    is_word(rest).then_some(Command::Rounds(rest))
}

/// The file of this name and these bytes, with the stamp that the words behind them write.
fn stamped<'a>(name: &'a str, bytes: &'a str, rest: &'a str) -> Option<Command<'a>>
    ensures { option_map command_in result ≡
        stamped_at name.entry.now bytes.entry.now (words_of rest.entry.now) }
{
    let stamp = match split_word(rest) {
        None => StampText::Time(rest),
        Some((time, mode)) => {
            if !is_word(mode) {
                return None;
            }
            StampText::TimeMode(time, mode)
        }
    };
    Some(Command::File { name, bytes, stamp })
}

/// `file NAME HEX`, of what stands behind the first word.
fn file_of<'a>(rest: &'a str) -> Option<Command<'a>>
    ensures { option_map command_in result ≡ file_at (words_of rest.entry.now) }
{
    let (name, rest) = split_word(rest)?;
    match split_word(rest) {
        None => Some(Command::File {
            name,
            bytes: rest,
            stamp: StampText::Nothing,
        }),
        Some((bytes, rest)) => stamped(name, bytes, rest),
    }
}

/// A command of one word.
fn plain_of<'a>(word: &str) -> Option<Command<'a>>
    ensures { option_map command_in result ≡ command_at (word.now ∷ []) }
{
    if word == "short" {
        return Some(Command::Short);
    }
    if word == "single" {
        return Some(Command::Single);
    }
    None
}

/// The command of a first word and the words behind it.
fn command_with<'a>(word: &str, rest: &'a str) -> Option<Command<'a>>
    ensures { option_map command_in result ≡ command_at (word.now ∷ words_of rest.entry.now) }
{
    if word == "file" {
        return file_of(rest);
    }
    if word == "ok" {
        return rounds_of(rest);
    }
    if word == "round" {
        return round_of(rest);
    }
    None
}

/// The command that a line says, if it says one.
pub(crate) fn command_of<'a>(line: &'a str) -> Option<Command<'a>>
    ensures { option_map command_in result ≡ command_of line.entry.now }
{
    if has_empty_word(line) {
        return None;
    }
    match split_word(line) {
        None => plain_of(line),
        Some((word, rest)) => command_with(word, rest),
    }
}
