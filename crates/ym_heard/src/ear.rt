//! What of that which comes to a sender is no reply: the echo of what it wrote, and noise.

ghost use Rattle.std.specs.Prelude.{◌≡◌};
ghost use Rattle.ym_heard.specs.Ear as table;

use crate::limits::{OTHERS, WITHIN};

/// The byte ACK.
pub const ACK: u8 = 0x06;

/// The byte NAK.
pub const NAK: u8 = 0x15;

/// The byte C.
pub const START: u8 = 0x43;

/// The byte EOT.
const EOT: u8 = 0x04;

/// The byte CAN.
pub const CAN: u8 = 0x18;

/// How far an echo has come.
#[derive(Clone, Copy)]
pub enum Echo {
    /// None has begun.
    Open,
    /// This first byte of a block came.
    Head(u8),
    /// The first byte of a block came, and what may be its number.
    Number(u8, u8),
    /// So many bytes came back of the frame that was written last.
    Goes(usize),
    /// Bytes of a block came that are not, or no longer, those that were written.
    Broken,
}

/// What a sender has come by of late that is no reply.
#[derive(Clone, Copy)]
pub struct Ear {
    /// The echo.
    pub echo: Echo,
    /// How many bytes came that are no control byte; [`OTHERS`] stands for more.
    ///
    /// [`OTHERS`]: crate::OTHERS
    pub others: u8,
    /// When the last byte came.
    pub at: u64,
}

/// An ear, and whether it hears the byte as one of a reply.
#[derive(Clone, Copy)]
pub struct Listened {
    /// The ear behind the byte.
    pub ear: Ear,
    /// Whether the byte is heard.
    pub is_heard: bool,
}

/// Whether a block begins with this byte.
fn is_first(byte: u8) -> bool
    ensures { result ≡ table.is_first byte }
{
    byte == 0x01 || byte == 0x02
}

impl Ear {
    /// Nothing came.
    pub fn new() -> Ear
        ensures { result ≡ table.new_ear }
    {
        Ear {
            echo: Echo::Open,
            others: 0,
            at: 0,
        }
    }

    /// A write: what came before it is not counted any more; an echo goes on.
    pub fn wrote(self) -> Ear
        ensures { result ≡ table.wrote self }
    {
        Ear {
            echo: self.echo,
            others: 0,
            at: self.at,
        }
    }

    /// The same in place.
    #[inline(always)]
    pub fn led(&mut self)
        ensures { self.new ≡ table.wrote self.old }
    {
        self.others = 0;
    }

    /// Where nothing came for a while, what was is over.
    fn rested(self, now: u64) -> Ear
        ensures { result ≡ table.rested now self }
    {
        if self.at.saturating_add(WITHIN) <= now {
            Ear {
                echo: Echo::Open,
                others: 0,
                at: now,
            }
        } else {
            Ear {
                echo: self.echo,
                others: self.others,
                at: now,
            }
        }
    }

    /// The same with another echo, which does not hear the byte.
    fn deaf(self, echo: Echo) -> Listened
        ensures { result ≡ table.deaf echo self }
    {
        Listened {
            ear: Ear {
                echo,
                others: self.others,
                at: self.at,
            },
            is_heard: false,
        }
    }

    /// A byte that is no control byte.
    fn other(self, echo: Echo) -> Listened
        ensures { result ≡ table.other echo self }
    {
        Listened {
            ear: Ear {
                echo,
                others: if self.others < OTHERS {
                    self.others + 1
                } else {
                    OTHERS
                },
                at: self.at,
            },
            is_heard: false,
        }
    }

    /// A byte that is no control byte, outside of an echo: alone it may be what the line left of a
    /// reply, and is heard as a broken one. The byte EOT is the echo of one that was written.
    fn stray(self, byte: u8) -> Listened
        ensures { result ≡ table.stray byte self }
    {
        Listened {
            ear: self.other(Echo::Open).ear,
            is_heard: self.others == 0 && byte != EOT,
        }
    }

    /// A byte outside of an echo: an ACK is heard, but for one behind noise; NAK, C and CAN are.
    fn open(self, byte: u8) -> Listened
        ensures { result ≡ table.outside byte self }
    {
        if is_first(byte) {
            return self.other(Echo::Head(byte));
        }
        let is_heard = match byte {
            ACK => self.others < OTHERS,
            NAK | START | CAN => true,
            _ => return self.stray(byte),
        };
        Listened {
            ear: Ear {
                echo: Echo::Open,
                others: self.others,
                at: self.at,
            },
            is_heard,
        }
    }

    /// The byte behind the first byte of a block and what may be its number: where it is the
    /// complement of that, no reply comes but a block.
    fn numbered(self, first: u8, number: u8, byte: u8, frame: &[u8]) -> Listened
        ensures { result ≡ table.numbered first number byte frame.now self }
    {
        if byte == 255 - number {
            let is_ours = 3 < frame.len() && frame[0] == first && frame[1] == number;
            self.deaf(if is_ours { Echo::Goes(3) } else { Echo::Broken })
        } else if is_first(number) {
            self.deaf(Echo::Number(number, byte))
        } else {
            self.open(byte)
        }
    }

    /// A byte of an echo of this frame, where it goes on so.
    fn goes(self, place: usize, byte: u8, frame: &[u8]) -> Listened
        ensures { result ≡ table.goes place byte frame.now self }
    {
        if frame.len() <= place || frame[place] != byte {
            self.deaf(Echo::Broken)
        } else if place + 1 == frame.len() {
            self.deaf(Echo::Open)
        } else {
            self.deaf(Echo::Goes(place + 1))
        }
    }

    /// One byte that came, where this frame was written last.
    pub fn listen(self, byte: u8, frame: &[u8], now: u64) -> Listened
        ensures { result ≡ table.listen byte frame.now now self }
    {
        let ear = self.rested(now);
        match ear.echo {
            Echo::Open => ear.open(byte),
            Echo::Head(first) => ear.deaf(Echo::Number(first, byte)),
            Echo::Number(first, number) => ear.numbered(first, number, byte, frame),
            Echo::Goes(place) => ear.goes(place, byte, frame),
            Echo::Broken => ear.deaf(Echo::Broken),
        }
    }
}
