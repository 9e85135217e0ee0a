//! The rows of a session, as its lines come.

ghost use Rattle.std.specs.Prelude.{◌≡◌, ◌<◌, ◌+◌, ◌∷◌, ◌++◌, [], IfOk, OnOk, drop, length, string_bytes};
ghost use Rattle.ym_chart.specs.Arrows.{arrow_of};
ghost use Rattle.ym_chart.specs.ChartText.{text_of};
ghost use Rattle.ym_chart.specs.Rows as spec;
ghost use Rattle.ym_chart.specs.Drawing.{chart_words};

use crate::arrow::{Arrow, Kind};
use crate::parts::{behind, is_indented};
use crate::picture::picture_of;
use crate::row::{Row, Streak};
use crate::text::Text;
use std::alloc::{AllocError, Global};
use std::marker::Model;

/// So many rows are drawn at most: some ten pages on paper, and less than half a megabyte. What
/// goes wrong on a line goes wrong in the first of them, as streaks of blocks are one row each.
pub const MOST_ROWS: usize = 500;

/// So many bytes of a line are read at most. No line that is told has more.
pub const MOST_LINE: usize = 512;

/// So many sentences are kept at most of what is told at the end.
pub const MOST_ENDS: usize = 4;

/// So many arrows of blocks in their turn and of their answers are drawn one by one: three blocks.
/// With a fourth they are a streak, which is one row.
const FEW: usize = 6;

/// The chart of a session, of the lines that tell it. It takes the same memory however many come.
#[derive(Drop)]
pub struct Chart {
    alloc: Global,
    line: Vec<u8>,
    rows: Vec<Row>,
    left_out: u64,
    few: Vec<Arrow>,
    streak: Option<Streak>,
    block: Option<Arrow>,
    ends: Vec<Text>,
}

impl Model for Chart {
    ghost use Rattle.std.specs.Prelude.{◌≤◌, vec_len};
    ghost use Rattle.ym_chart.specs.Rows.{Kept};
    ghost use Rattle.ym_chart.specs.declared.chart.TheConstants.{MOST_ENDS, MOST_ROWS};

    ghost Value = { Kept };

    ghost view = { λ c. record {
      line = c.line.items;
      rows = c.rows.items;
      left_out = c.left_out;
      few = c.few.items;
      streak = c.streak;
      block = c.block;
      ends = c.ends.items;
    } };

    ghost invariant = { λ c. (vec_len c.rows ≤ MOST_ROWS) × (vec_len c.ends ≤ MOST_ENDS) };
}

impl Chart {
    /// One of which nothing is told.
    pub fn new(alloc: Global) -> Chart
        ensures { result ≡ spec.nothing_kept }
    {
        Chart {
            alloc,
            line: Vec::new(alloc),
            rows: Vec::new(alloc),
            left_out: 0,
            few: Vec::new(alloc),
            streak: None,
            block: None,
            ends: Vec::new(alloc),
        }
    }

    /// Takes more of the text that tells the session, in whatever pieces it comes.
    ///
    /// # Errors
    ///
    /// At want of memory. Then the chart may lack rows.
    pub fn take(&mut self, text: &[u8]) -> Result<(), AllocError>
        ensures { OnOk result (self.new ≡ spec.after_bytes self.old text.now) }
    {
        for byte in text {
            self.take_byte(*byte)?;
        }
        Ok(())
    }

    /// Takes a byte of the text.
    fn take_byte(&mut self, byte: u8) -> Result<(), AllocError>
        ensures { OnOk result (self.new ≡ spec.after_byte self.old byte) }
    {
        if byte == b'\n' {
            return self.end_line();
        }
        if self.line.len() < MOST_LINE {
            self.line.push(byte)?;
        }
        Ok(())
    }

    /// Takes the line that has come.
    fn end_line(&mut self) -> Result<(), AllocError>
        ensures { OnOk result (self.new ≡ spec.after_line self.old) }
    {
        self.add_line()?;
        self.line.clear();
        Ok(())
    }

    /// Takes what the line that has come tells.
    fn add_line(&mut self) -> Result<(), AllocError>
        ensures { OnOk result (self.new ≡ spec.told_line self.old (arrow_of self.old.line)) }
    {
        match Arrow::of(self.alloc, self.line.as_slice())? {
            Some(arrow) => self.add_arrow(arrow),
            None => self.add_remark(),
        }
    }

    /// Takes a line that tells no frame and no answer.
    fn add_remark(&mut self) -> Result<(), AllocError>
        ensures { OnOk result (self.new ≡ spec.after_remark self.old) }
    {
        if is_indented(self.line.as_slice()) {
            self.add_note()
        } else {
            self.add_end()
        }
    }

    /// Takes an indented line, which is a row.
    fn add_note(&mut self) -> Result<(), AllocError>
        ensures { OnOk result (self.new
            ≡ spec.settled (spec.flushed self.old) (Row.Note (text_of (drop 2 self.old.line)))) }
    {
        let note = Text::of(self.alloc, behind(self.line.as_slice(), 2))?;
        self.flush()?;
        self.settle(Row::Note(note))
    }

    /// Takes a line that is told at the end, where there is room.
    fn add_end(&mut self) -> Result<(), AllocError>
        ensures { OnOk result (self.new ≡ spec.with_end self.old self.old.line) }
    {
        if self.ends.len() < MOST_ENDS {
            let end = Text::of(self.alloc, self.line.as_slice())?;
            self.ends.push(end)?;
        }
        Ok(())
    }

    /// Takes an arrow.
    fn add_arrow(&mut self, arrow: Arrow) -> Result<(), AllocError>
        ensures { OnOk result (self.new ≡ spec.after_arrow self.old arrow) }
    {
        match arrow.kind {
            Kind::Next => self.add_block(arrow),
            Kind::Takes => self.add_answer(arrow),
            Kind::Plain | Kind::Odd => self.add_lone(arrow),
        }
    }

    /// Takes a block in its turn, which waits for its answer.
    fn add_block(&mut self, block: Arrow) -> Result<(), AllocError>
        ensures { OnOk result (self.new ≡ spec.after_block self.old block) }
    {
        if self.block.is_some() {
            self.flush()?;
        }
        self.block = Some(block);
        Ok(())
    }

    /// Takes an answer that took what came.
    fn add_answer(&mut self, answer: Arrow) -> Result<(), AllocError>
        ensures { OnOk result (self.new ≡ spec.after_answer self.old answer) }
    {
        match self.block.take() {
            Some(block) => self.add_pair(block, answer),
            None => self.add_lone(answer),
        }
    }

    /// Takes a block and its answer, where no block waits.
    fn add_pair(&mut self, block: Arrow, answer: Arrow) -> Result<(), AllocError>
        ensures { OnOk result (self.new ≡ spec.after_pair self.old block answer) }
    {
        match &mut self.streak {
            Some(streak) => {
                streak.go_on(block);
                Ok(())
            }
            None => self.add_few(block, answer),
        }
    }

    /// The same where no streak is under way.
    fn add_few(&mut self, block: Arrow, answer: Arrow) -> Result<(), AllocError>
        ensures { OnOk result (self.new ≡ spec.after_few self.old block answer) }
    {
        if self.few.len() < FEW {
            self.push_few(block, answer)
        } else {
            self.begin_streak(block);
            Ok(())
        }
    }

    /// Puts a block and its answer behind the others that wait.
    fn push_few(&mut self, block: Arrow, answer: Arrow) -> Result<(), AllocError>
        ensures { OnOk result
            (self.new ≡ record self.old { few = self.old.few ++ block ∷ answer ∷ [] }) }
    {
        self.few.push(block)?;
        self.few.push(answer)?;
        Ok(())
    }

    /// Makes a streak of the few blocks that wait, and of this one behind them.
    fn begin_streak(&mut self, block: Arrow)
        requires { 0 < length self.old.few }
        ensures { self.new ≡ spec.streak_begun self.old self.old.few block }
    {
        self.streak = Some(Streak {
            first: self.few.remove(0),
            last: block,
            count: 4,
        });
        self.few.clear();
    }

    /// Puts an arrow behind all that waits.
    fn add_lone(&mut self, arrow: Arrow) -> Result<(), AllocError>
        ensures { OnOk result (self.new ≡ spec.settled (spec.flushed self.old) (Row.Arrow arrow)) }
    {
        self.flush()?;
        self.settle(Row::Arrow(arrow))
    }

    /// Makes rows of all that waits.
    fn flush(&mut self) -> Result<(), AllocError>
        ensures { OnOk result (self.new ≡ spec.flushed self.old) }
    {
        self.settle_few()?;
        self.settle_streak()?;
        self.settle_block()
    }

    /// Makes a row of a streak.
    fn settle_streak(&mut self) -> Result<(), AllocError>
        ensures { OnOk result (self.new ≡ spec.streak_settled self.old) }
    {
        match self.streak.take() {
            Some(streak) => self.settle(Row::Streak(streak)),
            None => Ok(()),
        }
    }

    /// Makes a row of a block that waits.
    fn settle_block(&mut self) -> Result<(), AllocError>
        ensures { OnOk result (self.new ≡ spec.block_settled self.old) }
    {
        match self.block.take() {
            Some(block) => self.settle(Row::Arrow(block)),
            None => Ok(()),
        }
    }

    /// Makes rows of a few blocks and their answers.
    fn settle_few(&mut self) -> Result<(), AllocError>
        ensures { OnOk result (self.new ≡ spec.few_settled self.old) }
    {
        while !self.few.is_empty() {
            let arrow = self.few.remove(0);
            self.settle(Row::Arrow(arrow))?;
        }
        Ok(())
    }

    /// Puts a row behind the others, where there is room.
    fn settle(&mut self, row: Row) -> Result<(), AllocError>
        ensures { OnOk result (self.new ≡ spec.settled self.old row) }
    {
        if self.rows.len() < MOST_ROWS {
            self.push_row(row)
        } else {
            drop(row);
            self.leave_out();
            Ok(())
        }
    }

    /// Puts a row behind the others.
    fn push_row(&mut self, row: Row) -> Result<(), AllocError>
        requires { length self.old.rows < MOST_ROWS }
        ensures { OnOk result
            (self.new ≡ record self.old { rows = self.old.rows ++ row ∷ [] }) }
    {
        self.rows.push(row)?;
        Ok(())
    }

    /// Counts a row for which there is no room.
    fn leave_out(&mut self)
        ensures { self.new ≡ record self.old { left_out = spec.capped (self.old.left_out + 1) } }
    {
        self.left_out = self.left_out.saturating_add(1);
    }

    /// Ends the chart, and answers its picture.
    ///
    /// # Errors
    ///
    /// At want of memory.
    pub fn picture(mut self) -> Result<String, AllocError>
        ensures { IfOk result (λ text. string_bytes text ≡ chart_words (spec.flushed self)) }
    {
        let picture = self.finished();
        // Nothing of the chart is kept beside its picture.
        drop(self);
        picture
    }

    /// Makes rows of all that waits, and answers the picture.
    fn finished(&mut self) -> Result<String, AllocError>
        ensures { IfOk result (λ text.
            string_bytes text ≡ chart_words (spec.flushed self.old)) }
    {
        self.flush()?;
        self.drawn()
    }

    /// The picture of its rows.
    fn drawn(&self) -> Result<String, AllocError>
        ensures { IfOk result (λ text. string_bytes text ≡ chart_words self.now) }
    {
        picture_of(
            self.alloc,
            self.rows.as_slice(),
            self.left_out,
            self.ends.as_slice(),
        )
    }
}
