//! An output whose text can be drawn.

ghost use Rattle.std.specs.Prelude.{◌≡◌};

use std::alloc::{AllocError, Global};
use std::fmt::Display;
use std::mem;
use ym_chart::Chart;
use ym_streams::{Output, StreamFault};

/// An output whose text can be drawn as a chart. Drawing changes nothing of what it holds.
pub trait Draw: Output {
    /// Draws from now on what goes there.
    fn begin_chart(&mut self)
        ensures holds { Self.contents self.new ≡ Self.contents self.old }
        ensures failed { Self.failures self.new ≡ Self.failures self.old };

    /// The picture of what went there since that began; none where nothing did.
    ///
    /// # Errors
    ///
    /// At want of memory, now or before.
    fn end_chart(&mut self) -> Result<Option<String>, AllocError>
        ensures holds { Self.contents self.new ≡ Self.contents self.old }
        ensures failed { Self.failures self.new ≡ Self.failures self.old };
}

/// An output, and the chart that is drawn of what goes to it. It holds what the output holds, and
/// fails where that fails.
#[derive(Drop)]
pub struct Charted<O: Output + Drop> {
    alloc: Global,
    out: O,
    chart: Option<Chart>,
    /// Nothing went to the output since the chart began.
    blank: bool,
    /// Memory ran out for the chart.
    short: bool,
}

/// Lets a chart go. Its parts are dropped here and nowhere else, since each place at which they are
/// is proved for itself.
fn discard(_chart: Option<Chart>) {}

impl<O: Output + Drop> Charted<O> {
    /// This output, of which nothing is drawn yet.
    pub fn new(alloc: Global, out: O) -> Charted<O>
        ensures { result.out ≡ out }
    {
        Charted {
            alloc,
            out,
            chart: None,
            blank: true,
            short: false,
        }
    }

    /// The output.
    pub fn into_out(self) -> O
        ensures { result ≡ self.out }
    {
        discard(self.chart);
        self.out
    }

    /// Draws what goes to the output, where a chart is drawn.
    fn draw(&mut self, bytes: &[u8])
        ensures { self.new.out ≡ self.old.out }
    {
        if !bytes.is_empty() {
            self.blank = false;
        }
        if let Some(chart) = &mut self.chart {
            if chart.take(bytes).is_err() {
                self.short = true;
            }
        }
    }

    /// Draws a text that goes to the output.
    fn draw_text(&mut self, text: Result<String, AllocError>)
        ensures { self.new.out ≡ self.old.out }
    {
        match text {
            Ok(text) => self.draw(text.as_bytes()),
            Err(_) => self.short = true,
        }
    }
}

impl<O: Output + Drop> Output for Charted<O> {
    ghost contents = { λ c. O.contents c.out };

    ghost failures = { λ c. O.failures c.out };

    fn put(&mut self, bytes: &[u8]) -> Result<(), StreamFault> {
        self.draw(bytes);
        self.out.put(bytes)
    }

    fn put_text<D: Display + Drop>(&mut self, text: D) -> Result<(), StreamFault> {
        if self.chart.is_some() {
            self.draw_text(format!(in self.alloc; "{text}"));
        }
        self.out.put_text(text)
    }

    fn put_line<D: Display + Drop>(&mut self, text: D) -> Result<(), StreamFault> {
        if self.chart.is_some() {
            self.draw_text(format!(in self.alloc; "{text}\n"));
        }
        self.out.put_line(text)
    }
}

impl<O: Output + Drop> Draw for Charted<O> {
    fn begin_chart(&mut self) {
        let earlier = mem::replace(&mut self.chart, Some(Chart::new(self.alloc)));
        discard(earlier);
        self.blank = true;
        self.short = false;
    }

    fn end_chart(&mut self) -> Result<Option<String>, AllocError> {
        let chart = self.chart.take();
        if self.short {
            discard(chart);
            return Err(AllocError);
        }
        if self.blank {
            discard(chart);
            return Ok(None);
        }
        match chart {
            Some(chart) => Ok(Some(chart.picture()?)),
            None => Ok(None),
        }
    }
}
