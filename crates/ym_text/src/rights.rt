//! Who may do what with a file, as people write it.

ghost use Rattle.std.specs.Prelude.{◌≡◌, Some};
ghost use Rattle.ym_text.specs.Rights.{rights_text, class_text, right_text};

use std::fmt;

/// What a mode lets the owner of a file, its group and all others do: read, write and run it. Its
/// `Display` is as `rw-r--r--`. What else a mode says is not told.
#[derive(Clone, Copy)]
pub struct Rights(pub u32);

/// What one of these three may do.
#[derive(Clone, Copy)]
struct Class(u32);

/// The letter of a right where its bit, the lowest one here, is set.
fn right(bits: u32, letter: &'static str) -> &'static str
    ensures { result.now ≡ right_text bits letter.now }
{
    if bits % 2 == 1 { letter } else { "-" }
}

impl fmt::Display for Class {
    ghost output = { λ class. Some (class_text class.0) };

    fn fmt<W: fmt::Write>(&self, f: &mut fmt::Formatter<W>) -> fmt::Result {
        let read = right(self.0 / 4, "r");
        let write = right(self.0 / 2, "w");
        let run = right(self.0, "x");
        write!(f, "{read}{write}{run}")
    }
}

impl fmt::Display for Rights {
    ghost output = { λ rights. Some (rights_text rights.0) };

    fn fmt<W: fmt::Write>(&self, f: &mut fmt::Formatter<W>) -> fmt::Result {
        let owner = Class(self.0 / 64);
        let group = Class(self.0 / 8);
        let others = Class(self.0);
        write!(f, "{owner}{group}{others}")
    }
}
