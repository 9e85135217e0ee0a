//! How the receiver asks.

ghost use Rattle.std.specs.Prelude.{◌≡◌};
ghost use Rattle.ym_explain.specs.Asking.{behind_junk, is_by_g as asks_by_g};

/// The byte by which a receiver of YMODEM-g asks.
const STREAM: u8 = b'G';

/// The byte by which one of YMODEM asks.
const START: u8 = b'C';

/// By what the receiver asks, until a block came whole.
#[derive(Clone, Copy)]
pub enum Asking {
    /// Nothing asked, and no text came last.
    Nothing,
    /// Nothing asked, and printed text came last: a G there is a letter of it.
    Text,
    /// One G came last, which may begin a text.
    OneG,
    /// More of them came last: they asked, as a receiver of YMODEM-g does.
    Gs,
    /// G asked, and other bytes came behind it.
    G,
    /// C or NAK asked.
    Usual,
}

impl Asking {
    /// The same behind a byte that is no answer.
    pub(crate) fn behind(self, byte: u8) -> Asking
        ensures { result ≡ behind_junk self byte }
    {
        let is_printed = matches!(byte, 0x20..=0x7e);
        match self {
            Asking::Usual | Asking::G => self,
            Asking::Nothing if byte == STREAM => Asking::OneG,
            Asking::OneG | Asking::Gs if byte == STREAM => Asking::Gs,
            Asking::Gs if byte == START => Asking::Usual,
            Asking::Gs => Asking::G,
            Asking::OneG if !is_printed => Asking::G,
            Asking::Nothing | Asking::Text | Asking::OneG => {
                if is_printed {
                    Asking::Text
                } else {
                    Asking::Nothing
                }
            }
        }
    }

    /// Whether it asked by G, and by nothing else.
    pub(crate) fn is_by_g(self) -> bool
        ensures { result ≡ asks_by_g self }
    {
        matches!(self, Asking::OneG | Asking::Gs | Asking::G)
    }
}
