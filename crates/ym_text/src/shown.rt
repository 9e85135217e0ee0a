//! Text that somebody else chose, made safe for a terminal.

use std::fmt;

/// A text in which control characters, and marks that turn the direction of text, are written as
/// escapes: shown on a terminal it moves nothing and hides nothing.
#[derive(Clone, Copy)]
pub struct Shown<'a>(pub &'a str);

/// Whether a character could change what a terminal shows of its neighbours: the controls below
/// space, DEL, the controls of C1, the ends of lines and paragraphs, and the marks by which text
/// turns its direction.
fn is_hidden(c: char) -> bool {
    c.is_control()
        || matches!(
            c,
            '\u{61c}' | '\u{200e}' | '\u{200f}' | '\u{2028}'..='\u{202e}' | '\u{2066}'..='\u{2069}'
        )
}

/// Whether lines of text are shown as they are.
pub(crate) fn is_plain(text: &str) -> bool {
    !text.chars().any(|c| c != '\n' && is_hidden(c))
}

/// The same of a text of several lines: their ends stay.
#[derive(Clone, Copy)]
pub(crate) struct ShownLines<'a>(pub(crate) &'a str);

/// Writes a character, or its escape.
fn write_shown<W: fmt::Write>(f: &mut fmt::Formatter<W>, c: char) -> fmt::Result {
    if is_hidden(c) {
        let code = u32::from(c);
        return write!(f, "\\u{{{code:x}}}");
    }
    write!(f, "{c}")
}

impl fmt::Display for ShownLines<'_> {
    fn fmt<W: fmt::Write>(&self, f: &mut fmt::Formatter<W>) -> fmt::Result {
        for c in self.0.chars() {
            if c == '\n' {
                writeln!(f)?;
            } else {
                write_shown(f, c)?;
            }
        }
        Ok(())
    }
}

impl fmt::Display for Shown<'_> {
    fn fmt<W: fmt::Write>(&self, f: &mut fmt::Formatter<W>) -> fmt::Result {
        for c in self.0.chars() {
            write_shown(f, c)?;
        }
        Ok(())
    }
}
