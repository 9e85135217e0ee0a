//! A script, and how it is read from its bytes.

ghost use Rattle.std.specs.Prelude.{◌≡◌, ◌≤◌, ◌+◌, ◌++◌, length, replicate, vec_len, IsSome, IfOk, OnOk, Ok};
ghost use Rattle.ym_file.specs.SourceFile.{IsFile};
ghost use Rattle.ym_play.specs.Command.{command_in, delivery_in, stamp_in};
ghost use Rattle.ym_play.specs.PlayFault.{Gives, Reads};
ghost use Rattle.ym_play.specs.Script.{empty, early, file_at, followed, line_read, lines_of, lines_read, script_of, whole_round, with_round, with_whole, with_written_file};
ghost use Rattle.ym_play.specs.declared.limits.TheConstants.{MOST_SCRIPT_BYTES};

use crate::command::{Command, DeliveryText, StampText, command_of};
use crate::fault::{PlayFault, Refusal, ScriptWhy};
use crate::limits::{MOST_ROUNDS, MOST_SCRIPT_BYTES};
use crate::value::{bytes_of, count_of, delivery_of, stamp_of};
use std::alloc::{AllocError, Global};
use std::marker::Model;
use std::str;
use ym_file::Shape;
use ym_line::{Delivery, Round};
use ym_link::{Confirm, SendFile};
use ym_machine::MOST_FILES;

/// A batch of files, how it is sent and received, and the rounds of the line.
#[derive(Drop)]
pub struct Script {
    pub(crate) batch: Vec<SendFile>,
    pub(crate) shape: Shape,
    pub(crate) confirm: Confirm,
    pub(crate) rounds: Vec<Round>,
}

impl Model for Script {
    ghost use Rattle.std.specs.Prelude.{◌≤◌, All, length};
    ghost use Rattle.ym_machine.specs.declared.limits.TheConstants.{MOST_FILES};
    ghost use Rattle.ym_file.specs.SourceFile.{IsFile};
    ghost use Rattle.ym_link.specs.SenderRefines.{AllTold};
    ghost use Rattle.ym_play.specs.Script.{ScriptParts};
    ghost use Rattle.ym_play.specs.declared.limits.TheConstants.{MOST_ROUNDS};

    ghost Value = { ScriptParts };

    ghost view = { λ s.
        record {
          batch = s.batch.items;
          shape = s.shape;
          confirm = s.confirm;
          rounds = s.rounds.items;
        } };

    ghost invariant = { λ s.
        (length s.batch.items ≤ MOST_FILES) × (length s.rounds.items ≤ MOST_ROUNDS) ×
        AllTold s.batch.items × All IsFile s.batch.items };
}

/// The file that a name, bytes and a stamp write.
fn file_of(alloc: Global, name: &str, bytes: &str, stamp: StampText) -> Result<SendFile, Refusal>
    ensures gives { Gives (λ file. file) result
        (file_at name.now bytes.now (stamp_in stamp.entry)) }
    ensures told { IfOk result (λ file. IsSome file.bytes) }
    ensures within { IfOk result IsFile }
{
    let bytes = bytes_of(alloc, bytes)?;
    let stamp = stamp_of(stamp)?;
    Ok(SendFile::new(alloc, name, bytes, stamp)?)
}

/// So many whole rounds behind the others.
fn push_whole_rounds(rounds: &mut Vec<Round>, count: u16) -> Result<(), AllocError>
    ensures ok { OnOk result (rounds.new.items ≡ rounds.old.items ++ replicate count whole_round) }
    ensures len { vec_len rounds.new ≤ vec_len rounds.old + count }
{
    for _ in 0..count {
        rounds.push(Round {
            there: Delivery::Whole,
            back: Delivery::Whole,
        })?;
    }
    Ok(())
}

impl Script {
    /// No files and no rounds, long and short blocks, and a receiver that wants to hear an EOT
    /// twice.
    fn new(alloc: Global) -> Script
        ensures { result ≡ empty }
    {
        Script {
            batch: Vec::new(alloc),
            shape: Shape::Mixed,
            confirm: Confirm::Twice,
            rounds: Vec::new(alloc),
        }
    }

    /// `Late` behind a round.
    fn before_rounds(&self) -> Result<(), ScriptWhy>
        ensures { result ≡ early self.now (Ok tt) }
    {
        if self.rounds.is_empty() {
            Ok(())
        } else {
            Err(ScriptWhy::Late)
        }
    }

    /// One more file.
    fn add_file(
        &mut self,
        alloc: Global,
        name: &str,
        bytes: &str,
        stamp: StampText,
    ) -> Result<(), Refusal>
        ensures { Gives (λ _. self.new) result
            (with_written_file self.old name.now bytes.now (stamp_in stamp.entry)) }
    {
        let file = file_of(alloc, name, bytes, stamp)?;
        if self.batch.len() >= MOST_FILES {
            return Err(Refusal::Why(ScriptWhy::TooMany));
        }
        self.batch.push(file)?;
        Ok(())
    }

    /// So many whole rounds more.
    fn add_whole_rounds(&mut self, count: u16) -> Result<(), Refusal>
        ensures { Gives (λ _. self.new) result (with_whole self.old count) }
    {
        if self.rounds.len() + usize::from(count) > MOST_ROUNDS {
            return Err(Refusal::Why(ScriptWhy::Number));
        }
        push_whole_rounds(&mut self.rounds, count)?;
        Ok(())
    }

    /// One more round.
    fn add_round(
        &mut self,
        alloc: Global,
        there: DeliveryText,
        back: DeliveryText,
    ) -> Result<(), Refusal>
        ensures { Gives (λ _. self.new) result
            (with_round self.old (delivery_in there.entry) (delivery_in back.entry)) }
    {
        if self.rounds.len() >= MOST_ROUNDS {
            return Err(Refusal::Why(ScriptWhy::Number));
        }
        let there = delivery_of(alloc, there)?;
        let back = delivery_of(alloc, back)?;
        self.rounds.push(Round { there, back })?;
        Ok(())
    }

    /// Does what a command says.
    fn follow(&mut self, alloc: Global, command: Command) -> Result<(), Refusal>
        ensures { Gives (λ _. self.new) result (followed self.old (command_in command.entry)) }
    {
        match command {
            Command::Short => {
                self.before_rounds()?;
                self.shape = Shape::Short;
                Ok(())
            }
            Command::Single => {
                self.before_rounds()?;
                self.confirm = Confirm::Once;
                Ok(())
            }
            Command::File { name, bytes, stamp } => {
                self.before_rounds()?;
                self.add_file(alloc, name, bytes, stamp)
            }
            Command::Rounds(digits) => self.add_whole_rounds(count_of(digits)?),
            Command::Round { there, back } => self.add_round(alloc, there, back),
        }
    }

    /// Reads one line.
    fn read_line(&mut self, alloc: Global, line: &str) -> Result<(), Refusal>
        ensures { Gives (λ _. self.new) result (line_read self.old line.now) }
    {
        if line.is_empty() {
            return Ok(());
        }
        match command_of(line) {
            Some(command) => self.follow(alloc, command),
            None => Err(Refusal::Why(ScriptWhy::NotCommand)),
        }
    }
}

/// The script of some lines.
fn read_lines(alloc: Global, text: &str) -> Result<Script, PlayFault>
    requires { length text.now ≤ MOST_SCRIPT_BYTES }
    ensures { Reads result (lines_read 1 empty (lines_of text.now)) }
{
    let mut script = Script::new(alloc);
    let mut number = 0u32;
    for line in text.split('\n') {
        number += 1;
        if let Err(refusal) = script.read_line(alloc, line) {
            return Err(refusal.at(number));
        }
    }
    Ok(script)
}

/// The script that some bytes stand for, or its first fault: by line, and on one line in the order
/// of `ScriptWhy`.
pub fn read_script(alloc: Global, bytes: &[u8]) -> Result<Script, PlayFault>
    ensures { Reads result (script_of bytes.now) }
{
    if bytes.len() > MOST_SCRIPT_BYTES {
        return Err(Refusal::Why(ScriptWhy::Large).at(0));
    }
    match str::from_utf8(bytes) {
        Ok(text) => read_lines(alloc, text),
        Err(_) => Err(Refusal::Why(ScriptWhy::NotText).at(0)),
    }
}
