//! The arrow of a frame or an answer.

ghost use Rattle.std.specs.Prelude.{◌≡◌, IfOk, Some};
ghost use Rattle.ym_chart.specs.Arrows.{arrow_of, arrow_with, kept_name};
ghost use Rattle.ym_chart.specs.Drawing.{arrow_words, class_of, label_of, named_words, open_words, stroke_of};

use crate::parts::{behind, kind_of, moment_of, name_of, said_of, undated, way_of};
use crate::text::Text;
use std::alloc::{AllocError, Global};
use std::fmt;
use ym_told::Direction;

/// How many bytes stand before the number of a block.
const BEFORE_NUMBER: usize = 6;

/// What an arrow is to its session.
#[derive(Clone, Copy)]
pub(crate) enum Kind {
    /// A block in its turn. Its name is its number.
    Next,
    /// The answer that took what came.
    Takes,
    /// What else belongs to a session in which nothing is lost.
    Plain,
    /// What is damaged, comes again, or does not belong there.
    Odd,
}

/// The arrow of a frame or an answer.
#[derive(Drop)]
pub(crate) struct Arrow {
    /// When it came; nothing where no moments are told.
    pub(crate) moment: Text,
    /// From which end to which.
    pub(crate) way: Direction,
    /// What it is to its session.
    pub(crate) kind: Kind,
    /// What stands above it.
    pub(crate) name: Text,
    /// What stands beside it.
    pub(crate) said: Text,
}

impl Arrow {
    /// The arrow of a line; none where it tells no frame and no answer.
    pub(crate) fn of(alloc: Global, line: &[u8]) -> Result<Option<Arrow>, AllocError>
        ensures { IfOk result (λ arrow. arrow ≡ arrow_of line.now) }
    {
        let undated = undated(line);
        match way_of(undated) {
            Some(way) => {
                let words = behind(undated, 2);
                Ok(Some(Arrow::of_parts(alloc, moment_of(line), way, words)?))
            }
            None => Ok(None),
        }
    }

    /// The arrow of these words, which went this way at this moment.
    fn of_parts(
        alloc: Global,
        moment: &[u8],
        way: Direction,
        words: &[u8],
    ) -> Result<Arrow, AllocError>
        ensures { IfOk result (λ arrow. arrow ≡ arrow_with moment.now way words.now) }
    {
        let kind = kind_of(words);
        Ok(Arrow {
            moment: Text::of(alloc, moment)?,
            way,
            kind,
            name: Text::of(alloc, name_for(kind, name_of(words)))?,
            said: Text::of(alloc, said_of(words))?,
        })
    }
}

/// What is kept of a name.
fn name_for(kind: Kind, name: &[u8]) -> &[u8]
    ensures { result.now ≡ kept_name kind name.entry.now }
{
    match kind {
        Kind::Next => behind(name, BEFORE_NUMBER),
        Kind::Takes | Kind::Plain | Kind::Odd => name,
    }
}

/// What begins the row of an arrow, so far down: its moment.
#[derive(Clone, Copy)]
pub(crate) struct Opened<'a> {
    pub(crate) class: &'a str,
    pub(crate) at: u64,
    pub(crate) moment: &'a Text,
}

impl fmt::Display for Opened<'_> {
    ghost output = { λ it. Some (open_words it.class.now it.at it.moment.now) };

    fn fmt<W: fmt::Write>(&self, f: &mut fmt::Formatter<W>) -> fmt::Result {
        let Opened { class, at, moment } = *self;
        write!(
            f,
            "<g class=\"{class}\" transform=\"translate(0 {at})\">\
             <text class=\"when\" x=\"84\" y=\"24\">{moment}</text>"
        )
    }
}

/// The name of an arrow, and what is said of it.
#[derive(Clone, Copy)]
struct Named<'a> {
    label: &'a str,
    name: &'a Text,
    said: &'a Text,
}

impl fmt::Display for Named<'_> {
    ghost output = { λ it. Some (named_words it.label.now it.name.now it.said.now) };

    fn fmt<W: fmt::Write>(&self, f: &mut fmt::Formatter<W>) -> fmt::Result {
        let Named { label, name, said } = *self;
        write!(
            f,
            "<text class=\"name\" x=\"254\" y=\"14\">{label}{name}</text>\
             <text class=\"said\" x=\"424\" y=\"24\">{said}</text></g>\n"
        )
    }
}

/// An arrow, and how far down it is drawn.
#[derive(Clone, Copy)]
pub(crate) struct Drawn<'a> {
    pub(crate) at: u64,
    pub(crate) arrow: &'a Arrow,
}

impl fmt::Display for Drawn<'_> {
    ghost output = { λ drawn. Some (arrow_words drawn.at drawn.arrow.now) };

    fn fmt<W: fmt::Write>(&self, f: &mut fmt::Formatter<W>) -> fmt::Result {
        let Drawn { at, arrow } = *self;
        let opened = Opened {
            class: class_of(arrow.way, arrow.kind),
            at,
            moment: &arrow.moment,
        };
        let stroke = stroke_of(arrow.way);
        let named = Named {
            label: label_of(arrow.kind),
            name: &arrow.name,
            said: &arrow.said,
        };
        write!(f, "{opened}{stroke}{named}")
    }
}

/// The class by which it has its colour.
fn class_of(way: Direction, kind: Kind) -> &'static str
    ensures { result.now ≡ class_of way kind }
{
    match (way, kind) {
        (Direction::There, Kind::Odd) => "there odd",
        (Direction::Back, Kind::Odd) => "back odd",
        (Direction::There, Kind::Next | Kind::Takes | Kind::Plain) => "there",
        (Direction::Back, Kind::Next | Kind::Takes | Kind::Plain) => "back",
    }
}

/// The line and its head.
fn stroke_of(way: Direction) -> &'static str
    ensures { result.now ≡ stroke_of way }
{
    match way {
        Direction::There => {
            "<path class=\"way\" d=\"M 104 20 H 402\"/>\
             <path class=\"tip\" d=\"M 404 20 l -11 -5 v 10 z\"/>"
        }
        Direction::Back => {
            "<path class=\"way\" d=\"M 404 20 H 106\"/>\
             <path class=\"tip\" d=\"M 104 20 l 11 -5 v 10 z\"/>"
        }
    }
}

/// What stands before its name.
fn label_of(kind: Kind) -> &'static str
    ensures { result.now ≡ label_of kind }
{
    match kind {
        Kind::Next => "block ",
        Kind::Takes | Kind::Plain | Kind::Odd => "",
    }
}
