//! The picture of rows.

ghost use Rattle.std.specs.Prelude.{◌≡◌, ◌^◌, ◌≤◌, ◌++◌, Some, IfOk, OnOk, length, string_bytes};
ghost use Rattle.ym_chart.specs.Drawing.{end_top, end_words, ends_words, head_words, left_out_words, lives_words, paper_words, picture_words, row_top, row_words, rows_words};

use crate::chart::{MOST_ENDS, MOST_ROWS};
use crate::row::{LeftOut, Placed, Row};
use crate::text::Text;
use std::alloc::{AllocError, Global};
use std::fmt;

/// How far down the first row is.
const TOP: u64 = 76;

/// How high a row is.
const STEP: u64 = 28;

/// How high a sentence at the end is.
const END_STEP: u64 = 24;

/// What stands behind the height of the picture: its title, and how everything looks, by day and
/// by night.
const STYLE: &str = "\" font-family=\"Helvetica, Arial, sans-serif\">
<title>What passed on a line</title>
<style>
.paper{fill:#ffffff}
text{fill:#1f2328;font-size:13px}
.name,.who,.head{text-anchor:middle}
.when{text-anchor:end}
.who,.end{font-size:14px;font-weight:bold}
.head{font-size:16px;font-weight:bold}
.when,.said,.run .name{fill:#59636e}
.when,.said{font-size:12px}
.way{stroke:#1f2328;stroke-width:1.8}
.tip{fill:#1f2328}
.life{stroke:#8b949e;stroke-width:1.4}
.run rect{fill:#f6f8fa;stroke:#8b949e}
.odd .way{stroke:#cf222e;stroke-dasharray:6 4}
.odd .tip,.odd .name,.odd .said{fill:#cf222e}
@media (prefers-color-scheme:dark){
.paper{fill:#0d1117}
text{fill:#e6edf3}
.when,.said,.run .name{fill:#9198a1}
.way{stroke:#e6edf3}
.tip{fill:#e6edf3}
.run rect{fill:#151b23}
.odd .way{stroke:#ff7b72}
.odd .tip,.odd .name,.odd .said{fill:#ff7b72}
}
</style>
";

/// What stands behind the height of the paper: the heads of the chart and of both ends.
const HEADS: &str = "\" rx=\"8\"/>
<text class=\"head\" x=\"480\" y=\"30\">What passed on a line</text>
<text class=\"who\" x=\"104\" y=\"62\">sender</text>
<text class=\"who\" x=\"404\" y=\"62\">receiver</text>
";

/// The paper, so high, with what stands behind its height, and behind that of the picture.
#[derive(Clone, Copy)]
struct Paper<'a> {
    height: u64,
    style: &'a str,
    heads: &'a str,
}

impl fmt::Display for Paper<'_> {
    ghost output = { λ it. Some (paper_words it.height it.style.now it.heads.now) };

    fn fmt<W: fmt::Write>(&self, f: &mut fmt::Formatter<W>) -> fmt::Result {
        let Paper {
            height,
            style,
            heads,
        } = *self;
        write!(
            f,
            "<svg xmlns=\"http://www.w3.org/2000/svg\" viewBox=\"0 0 960 {height}\" \
             width=\"960\" height=\"{height}{style}\
             <rect class=\"paper\" width=\"960\" height=\"{height}{heads}"
        )
    }
}

/// The lines of both ends, which go so far down.
#[derive(Clone, Copy)]
struct Lives(u64);

impl fmt::Display for Lives {
    ghost output = { λ lives. Some (lives_words lives.0) };

    fn fmt<W: fmt::Write>(&self, f: &mut fmt::Formatter<W>) -> fmt::Result {
        let foot = self.0;
        write!(
            f,
            "<path class=\"life\" d=\"M 104 70 V {foot}\"/>\
             <path class=\"life\" d=\"M 404 70 V {foot}\"/>\n"
        )
    }
}

/// A sentence of the end, and how far down it stands.
#[derive(Clone, Copy)]
struct Sentence<'a> {
    at: u64,
    text: &'a Text,
}

impl fmt::Display for Sentence<'_> {
    ghost output = { λ end. Some (end_words end.at end.text.now) };

    fn fmt<W: fmt::Write>(&self, f: &mut fmt::Formatter<W>) -> fmt::Result {
        let Sentence { at, text } = *self;
        write!(f, "<text class=\"end\" x=\"24\" y=\"{at}\">{text}</text>\n")
    }
}

/// How far down the row of this number is.
fn row_top(number: usize) -> u64
    requires { number ≤ MOST_ROWS }
    ensures { result ≡ row_top number }
{
    TOP + STEP * number as u64
}

/// How far down the sentence of this number is, below the lines of both ends.
fn end_top(foot: u64, number: usize) -> u64
    requires foot { foot ≤ 2 ^ 32 }
    requires number { number ≤ MOST_ENDS }
    ensures { result ≡ end_top foot number }
{
    foot + END_STEP * (number as u64 + 1)
}

/// Puts the row of this number behind a text.
fn push_row(alloc: Global, text: &mut String, number: usize, row: &Row) -> Result<(), AllocError>
    requires { number ≤ MOST_ROWS }
    ensures { OnOk result
        (string_bytes text.new ≡ string_bytes text.old ++ row_words (row_top number) row.now) }
{
    let at = row_top(number);
    let placed = Placed { at, row };
    text.push_str(format!(in alloc; "{placed}")?.as_str())?;
    Ok(())
}

/// Puts these rows behind a text.
fn push_rows(alloc: Global, text: &mut String, rows: &[Row]) -> Result<(), AllocError>
    requires { length rows.now ≤ MOST_ROWS }
    ensures { OnOk result
        (string_bytes text.new ≡ string_bytes text.old ++ rows_words 0 rows.now) }
{
    for (number, row) in rows.iter().enumerate() {
        push_row(alloc, text, number, row)?;
    }
    Ok(())
}

/// Puts these sentences behind a text, below the lines of both ends.
fn push_ends(alloc: Global, text: &mut String, foot: u64, ends: &[Text]) -> Result<(), AllocError>
    requires foot { foot ≤ 2 ^ 32 }
    requires few { length ends.now ≤ MOST_ENDS }
    ensures { OnOk result
        (string_bytes text.new ≡ string_bytes text.old ++ ends_words foot 0 ends.now) }
{
    for (number, told) in ends.iter().enumerate() {
        let at = end_top(foot, number);
        let sentence = Sentence { at, text: told };
        text.push_str(format!(in alloc; "{sentence}")?.as_str())?;
    }
    Ok(())
}

/// What stands before the rows of a picture of this height, whose lines of both ends go so far
/// down.
fn head_of(alloc: Global, height: u64, foot: u64) -> Result<String, AllocError>
    ensures { IfOk result (λ text. string_bytes text ≡ head_words height foot) }
{
    let paper = Paper {
        height,
        style: STYLE,
        heads: HEADS,
    };
    let lives = Lives(foot);
    format!(in alloc; "{paper}{lives}")
}

/// Puts how many are left out behind a text.
fn push_left_out(alloc: Global, text: &mut String, at: u64, count: u64) -> Result<(), AllocError>
    ensures { OnOk result
        (string_bytes text.new ≡ string_bytes text.old ++ left_out_words at count) }
{
    let left_out = LeftOut { at, count };
    text.push_str(format!(in alloc; "{left_out}")?.as_str())?;
    Ok(())
}

/// The picture of these rows, of so many that are left out, and of what is told at the end.
pub(crate) fn picture_of(
    alloc: Global,
    rows: &[Row],
    left_out: u64,
    ends: &[Text],
) -> Result<String, AllocError>
    requires rows { length rows.now ≤ MOST_ROWS }
    requires ends { length ends.now ≤ MOST_ENDS }
    ensures { IfOk result (λ text.
        string_bytes text ≡ picture_words rows.now left_out ends.now) }
{
    let at = row_top(rows.len());
    let foot = at + STEP;
    let mut text = head_of(alloc, end_top(foot, ends.len()), foot)?;
    push_rows(alloc, &mut text, rows)?;
    push_left_out(alloc, &mut text, at, left_out)?;
    push_ends(alloc, &mut text, foot, ends)?;
    text.push_str("</svg>\n")?;
    Ok(text)
}
