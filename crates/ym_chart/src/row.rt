//! The rows of a chart.

ghost use Rattle.std.specs.Prelude.{◌≡◌, ◌+◌, Some};
ghost use Rattle.ym_chart.specs.Rows.{capped};
ghost use Rattle.ym_chart.specs.Drawing.{boxed_words, left_out_words, row_words};

use crate::arrow::{Arrow, Drawn, Opened};
use crate::text::Text;
use std::fmt;

/// Blocks in their turn that were acknowledged one after another.
#[derive(Drop)]
pub(crate) struct Streak {
    /// The first block.
    pub(crate) first: Arrow,
    /// The last.
    pub(crate) last: Arrow,
    /// How many there are.
    pub(crate) count: u64,
}

impl Streak {
    /// Goes on with the next block.
    pub(crate) fn go_on(&mut self, block: Arrow)
        ensures { self.new ≡ record self.old {
          last = block;
          count = capped (self.old.count + 1);
        } }
    {
        self.last = block;
        self.count = self.count.saturating_add(1);
    }
}

/// A row of a chart.
#[derive(Drop)]
pub(crate) enum Row {
    /// An arrow.
    Arrow(Arrow),
    /// Many blocks.
    Streak(Streak),
    /// What is told of a file.
    Note(Text),
}

/// A streak in its box: the numbers of its first and its last block, and how many it has.
#[derive(Clone, Copy)]
struct Boxed<'a> {
    first: &'a Text,
    last: &'a Text,
    count: u64,
}

impl fmt::Display for Boxed<'_> {
    ghost output = { λ it. Some (boxed_words it.first.now it.last.now it.count) };

    fn fmt<W: fmt::Write>(&self, f: &mut fmt::Formatter<W>) -> fmt::Result {
        let Boxed { first, last, count } = *self;
        write!(
            f,
            "<rect x=\"118\" y=\"8\" width=\"272\" height=\"18\" rx=\"6\"/>\
             <text class=\"name\" x=\"254\" y=\"21\">blocks {first} to {last}, \
             each acknowledged</text>\
             <text class=\"said\" x=\"424\" y=\"24\">{count} blocks</text></g>\n"
        )
    }
}

/// A row, and how far down it is drawn.
#[derive(Clone, Copy)]
pub(crate) struct Placed<'a> {
    pub(crate) at: u64,
    pub(crate) row: &'a Row,
}

impl fmt::Display for Placed<'_> {
    ghost output = { λ placed. Some (row_words placed.at placed.row.now) };

    fn fmt<W: fmt::Write>(&self, f: &mut fmt::Formatter<W>) -> fmt::Result {
        let Placed { at, row } = *self;
        match row {
            Row::Arrow(arrow) => {
                let drawn = Drawn { at, arrow };
                write!(f, "{drawn}")
            }
            Row::Streak(streak) => {
                let opened = Opened {
                    class: "run",
                    at,
                    moment: &streak.first.moment,
                };
                let boxed = Boxed {
                    first: &streak.first.name,
                    last: &streak.last.name,
                    count: streak.count,
                };
                write!(f, "{opened}{boxed}")
            }
            Row::Note(text) => write!(
                f,
                "<g class=\"note\" transform=\"translate(0 {at})\">\
                 <text class=\"said\" x=\"424\" y=\"24\">{text}</text></g>\n"
            ),
        }
    }
}

/// How many are told and not drawn, and how far down that stands; nothing where none is.
#[derive(Clone, Copy)]
pub(crate) struct LeftOut {
    pub(crate) at: u64,
    pub(crate) count: u64,
}

impl fmt::Display for LeftOut {
    ghost output = { λ left_out. Some (left_out_words left_out.at left_out.count) };

    fn fmt<W: fmt::Write>(&self, f: &mut fmt::Formatter<W>) -> fmt::Result {
        let LeftOut { at, count } = *self;
        match count {
            0 => write!(f, ""),
            _ => write!(
                f,
                "<g class=\"run\" transform=\"translate(0 {at})\">\
                 <text class=\"name\" x=\"254\" y=\"21\">{count} more are not drawn</text></g>\n"
            ),
        }
    }
}
