//! What of a reply a sender hears later, or not at all: the ACK of an EOT with the C behind it,
//! that of the end block when nothing came behind it, that of block 1 where it may be a copy's,
//! that of an empty file's block 0 where it may be an EOT's, and C that ask for what is on its way.

ghost use Rattle.std.specs.Prelude.{◌≡◌, false};
ghost use Rattle.ym_heard.specs.Hold as table;
ghost use Rattle.ym_heard.specs.declared.sent.Kind.{Kind};

use crate::ear::{ACK, CAN, NAK, START};
use crate::limits::{BRIEF, MOMENT, RESTED, STALE_ASKS, TOGETHER, WITHIN};
use crate::sent::Kind;

/// What is known of the first ACK C of an EOT or of an empty file's block 0, and of the first ACK
/// of block 1.
#[derive(Clone, Copy)]
pub enum FirstAck {
    /// It counts.
    Counts,
    /// It may be that of a copy of the frame before: it is dropped, behind block 1 where C comes
    /// with it.
    Doubted,
    /// Its ACK was dropped, and its C is; so is another ACK before that.
    Dropped,
    /// It came, and the C right behind the ACK: a brief moment is enough behind the end block. So
    /// it stays until the next EOT, where nothing is written again.
    Brief,
    /// It came, and the C when the peer had waited: no moment is needed. It stays as long.
    Rested,
}

impl FirstAck {
    /// Behind a copy a doubt stays. Behind another frame what was seen of an EOT does: of a line on
    /// which something was written again nothing is known.
    fn kept(self, is_repeat: bool) -> FirstAck
        ensures { result ≡ table.kept is_repeat self }
    {
        match self {
            FirstAck::Doubted | FirstAck::Dropped if is_repeat => self,
            FirstAck::Brief | FirstAck::Rested if !is_repeat => self,
            _ => FirstAck::Counts,
        }
    }

    /// Whether an ACK may be another frame's.
    fn is_doubted(self) -> bool
        ensures { result ≡ table.is_doubted self }
    {
        match self {
            FirstAck::Doubted | FirstAck::Dropped => true,
            _ => false,
        }
    }
}

/// Whether this byte is no control byte.
fn is_noise(byte: u8) -> bool
    ensures { result ≡ table.is_noise byte }
{
    byte != ACK && byte != NAK && byte != START && byte != CAN
}

/// What a sender holds back.
#[derive(Clone, Copy)]
pub struct Hold {
    /// Whether an ACK.
    pub is_held: bool,
    /// When it came.
    pub at: u64,
    /// What is known of the first ACK C of an EOT or of an empty file's block 0, and of the first
    /// ACK of block 1.
    pub first_ack: FirstAck,
    /// How many more C may be passed over.
    pub asks_left: u8,
    /// When the last of them came, or block 0 was written.
    pub asked_at: u64,
}

/// What is to be heard of a byte that came.
#[derive(Clone, Copy)]
pub enum Say {
    /// Nothing.
    Nothing,
    /// The byte.
    Byte,
    /// An ACK that came before, and the byte.
    AckAndByte,
    /// C in the byte's place.
    Start,
}

/// What is held behind a byte, and what is to be heard of it.
#[derive(Clone, Copy)]
pub struct Said {
    /// What is held.
    pub hold: Hold,
    /// What is heard.
    pub say: Say,
}

impl Hold {
    /// Nothing is held.
    pub fn new() -> Hold
        ensures { result ≡ table.new_hold }
    {
        Hold {
            is_held: false,
            at: 0,
            first_ack: FirstAck::Counts,
            asks_left: 0,
            asked_at: 0,
        }
    }

    /// What was written may be a new block 0, behind which C are passed over, or what has a first
    /// ACK that may be that of a copy of the frame before; a repeat leaves the latter as it is. It
    /// leaves the end block's ACK, too: that came behind the ask for the repeat.
    pub fn wrote(self, kind: Kind, is_repeat: bool, is_doubted: bool, now: u64) -> Hold
        ensures { result ≡ table.wrote kind is_repeat is_doubted now self }
    {
        let first_ack = if is_doubted && !is_repeat {
            FirstAck::Doubted
        } else {
            self.first_ack.kept(is_repeat)
        };
        Hold {
            is_held: kind.ends() && is_repeat && self.is_held,
            at: self.at,
            first_ack,
            asks_left: if kind.opens() && !is_repeat {
                STALE_ASKS
            } else {
                0
            },
            asked_at: now,
        }
    }

    /// The same, with an ACK held or not.
    fn holding(self, is_held: bool, at: u64, first_ack: FirstAck, say: Say) -> Said
        ensures { result ≡ table.holding is_held at first_ack say self }
    {
        Said {
            hold: Hold {
                is_held,
                at,
                first_ack,
                asks_left: self.asks_left,
                asked_at: self.asked_at,
            },
            say,
        }
    }

    /// What is seen of an EOT whose C came now, and whose ACK is held.
    fn seen(self, now: u64) -> FirstAck
        ensures { result ≡ table.seen now self }
    {
        let apart = now.saturating_sub(self.at);
        if apart < TOGETHER {
            FirstAck::Brief
        } else if RESTED <= apart {
            FirstAck::Rested
        } else {
            FirstAck::Counts
        }
    }

    /// How long CAN CAN is listened for behind the ACK of the end block. U-Boot writes it right
    /// behind that, as it writes the C behind the ACK of an EOT.
    pub fn moment(self) -> u64
        ensures { result ≡ table.moment self }
    {
        match self.first_ack {
            FirstAck::Rested => 0,
            FirstAck::Brief => BRIEF,
            FirstAck::Counts | FirstAck::Doubted | FirstAck::Dropped => MOMENT,
        }
    }

    /// An ACK that is held from now on, or still.
    fn ack(self, first_ack: FirstAck, now: u64) -> Said
        ensures { result ≡ table.ack first_ack now self }
    {
        let at = if self.is_held { self.at } else { now };
        self.holding(true, at, first_ack, Say::Nothing)
    }

    /// A C behind an EOT: with the ACK before it, it says that the file is stored.
    fn start(self, now: u64) -> Said
        ensures { result ≡ table.start now self }
    {
        match self.first_ack {
            FirstAck::Dropped => self.holding(
                self.is_held,
                self.at,
                FirstAck::Counts,
                Say::Nothing,
            ),
            _ if self.is_held => self.holding(false, self.at, self.seen(now), Say::AckAndByte),
            first_ack => self.holding(false, self.at, first_ack, Say::Byte),
        }
    }

    /// A control byte behind an EOT.
    fn at_eot(self, byte: u8, now: u64) -> Said
        ensures { result ≡ table.at_eot byte now self }
    {
        match byte {
            ACK if self.first_ack.is_doubted() => {
                self.holding(false, self.at, FirstAck::Dropped, Say::Nothing)
            }
            ACK => self.ack(FirstAck::Counts, now),
            START => self.start(now),
            NAK => self.holding(false, self.at, FirstAck::Counts, Say::Byte),
            _ => self.holding(false, self.at, self.first_ack, Say::Byte),
        }
    }

    /// Whether this byte, which is not to be heard, leaves the ACK that is held. What a peer prints
    /// behind the ACK of the end block may have C in it, or NAK: CAN alone takes that ACK back. C
    /// right behind the ACK of block 1 shows that it was that of a copy of block 0.
    fn passes(self, is_end: bool, byte: u8) -> bool
        ensures { result ≡ table.passes is_end byte self }
    {
        self.is_held && (if is_end { byte != CAN } else { byte == START })
    }

    /// A control byte behind a frame whose ACK is held for a moment: the end block, or block 1
    /// where the ACK may be that of a copy of block 0.
    fn at_moment(self, is_end: bool, byte: u8, now: u64) -> Said
        ensures { result ≡ table.at_moment is_end byte now self }
    {
        if byte == ACK {
            self.ack(self.first_ack, now)
        } else if self.passes(is_end, byte) {
            self.holding(is_end, self.at, self.first_ack, Say::Nothing)
        } else {
            self.holding(false, self.at, self.first_ack, Say::Byte)
        }
    }

    /// Whether an ACK behind a frame of this kind is held for a moment.
    fn has_moment(self, kind: Kind) -> bool
        ensures { result ≡ table.has_moment kind self }
    {
        match (kind, self.first_ack) {
            (Kind::End, _) | (Kind::Data, FirstAck::Doubted) => true,
            _ => false,
        }
    }

    /// Whether this byte asks for the block 0 that was just written, as others before it did.
    fn is_stale(self, byte: u8, is_first: bool, now: u64) -> bool
        ensures { result ≡ table.is_stale byte is_first now self }
    {
        let is_soon = now < self.asked_at.saturating_add(WITHIN);
        byte == START && is_first && 0 < self.asks_left && is_soon
    }

    /// Whether this may be the ACK of a copy of the EOT before, and is not heard behind block 0 of
    /// a file without bytes. The EOT of such a file is acknowledged also by a receiver that never
    /// saw its block 0, so that one's own ACK has to come.
    fn is_anothers(self, kind: Kind, byte: u8) -> bool
        ensures { result ≡ table.is_anothers kind byte self }
    {
        match kind {
            Kind::Empty => byte == ACK && self.first_ack.is_doubted(),
            _ => false,
        }
    }

    /// What is known of the first ACK behind a C that is not heard: it is that of the ACK that was
    /// dropped, where one was.
    fn started(self) -> FirstAck
        ensures { result ≡ table.started self }
    {
        match self.first_ack {
            FirstAck::Dropped => FirstAck::Counts,
            first_ack => first_ack,
        }
    }

    /// A byte that is not heard: another frame's ACK, whose C follows, or a C.
    fn passed_over(self, is_anothers: bool, now: u64) -> Said
        ensures { result ≡ table.passed_over is_anothers now self }
    {
        Said {
            hold: Hold {
                is_held: self.is_held,
                at: self.at,
                first_ack: if is_anothers {
                    FirstAck::Dropped
                } else {
                    self.started()
                },
                asks_left: if is_anothers {
                    STALE_ASKS
                } else {
                    self.asks_left.saturating_sub(1)
                },
                asked_at: now,
            },
            say: Say::Nothing,
        }
    }

    /// A byte that came behind a write of this kind; `is_first` where none was heard since.
    pub fn control(self, kind: Kind, byte: u8, is_first: bool, now: u64) -> Said
        ensures { result ≡ table.control kind byte is_first now self }
    {
        // noise takes no ACK back
        if self.is_held && is_noise(byte) {
            return Said {
                hold: self,
                say: Say::Nothing,
            };
        }
        let is_anothers = self.is_anothers(kind, byte);
        if is_anothers || self.is_stale(byte, is_first, now) {
            return self.passed_over(is_anothers, now);
        }
        match kind {
            Kind::Eot => self.at_eot(byte, now),
            kind if self.has_moment(kind) => self.at_moment(kind.ends(), byte, now),
            _ => Said {
                hold: self,
                say: Say::Byte,
            },
        }
    }

    /// Nothing is held any more.
    pub fn released(self) -> Hold
        ensures { result ≡ table.released self }
    {
        Hold {
            is_held: false,
            at: self.at,
            first_ack: self.first_ack,
            asks_left: self.asks_left,
            asked_at: self.asked_at,
        }
    }

    /// The same as `wrote` in place, behind a write that is not doubted, and neither opens a file
    /// nor ends the batch.
    #[inline(always)]
    pub fn led(&mut self, is_repeat: bool, now: u64)
        ensures { self.new ≡ table.wrote Kind.Data is_repeat false now self.old }
    {
        self.is_held = false;
        self.first_ack = self.first_ack.kept(is_repeat);
        self.asks_left = 0;
        self.asked_at = now;
    }
}
