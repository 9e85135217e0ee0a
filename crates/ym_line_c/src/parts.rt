//! The parts of the machine, as plain numbers.

ghost use Rattle.std.specs.Prelude.{◌≡◌};
ghost use Rattle.ym_line_c.specs.Parts as parts;

use crate::codes::{
    code_of_first_ack, code_of_flag, code_of_kind, code_of_owed, code_of_trust, codes_of_echo,
    echo_of, first_ack_of, flag_of, kind_of, owed_of, trust_of,
};
use ym_heard::{Ear, Hold, Sent};
use ym_timing::{Arrivals, Out, Pace};

/// How long answers take.
#[repr(C)]
pub struct YmPace {
    /// So many milliseconds.
    pub slowest: u64,
    /// 0: nothing is known; 1: doubtful; any other: sure.
    pub trust: u8,
}

impl YmPace {
    /// What these numbers stand for.
    pub fn load(&self) -> Pace
        ensures { result ≡ parts.pace_of self.now }
    {
        Pace {
            slowest: self.slowest,
            trust: trust_of(self.trust),
        }
    }

    /// Keeps this.
    pub fn keep(&mut self, pace: Pace)
        ensures { parts.pace_of self.new ≡ pace }
    {
        self.slowest = pace.slowest;
        self.trust = code_of_trust(pace.trust);
    }
}

/// The writes whose answers may be under way.
#[repr(C)]
pub struct YmOut {
    /// When the first was written.
    pub first_at: u64,
    /// When the last was.
    pub last_at: u64,
    /// The longest time between two of them.
    pub gap: u64,
    /// 0: none was made; 1: an answer to one may come; 2: and what was stuck; 3: or to a first
    /// block 0 that most likely was damaged; any other: to several.
    pub owed: u8,
    /// How many copies there are.
    pub copies: u8,
}

impl YmOut {
    /// What these numbers stand for.
    pub fn load(&self) -> Out
        ensures { result ≡ parts.out_of self.now }
    {
        Out {
            owed: owed_of(self.owed),
            copies: self.copies,
            first_at: self.first_at,
            last_at: self.last_at,
            gap: self.gap,
        }
    }

    /// Keeps this.
    pub fn keep(&mut self, out: Out)
        ensures { parts.out_of self.new ≡ out }
    {
        self.first_at = out.first_at;
        self.last_at = out.last_at;
        self.gap = out.gap;
        self.owed = code_of_owed(out.owed);
        self.copies = out.copies;
    }
}

/// What was written last.
#[repr(C)]
pub struct YmSent {
    /// How many bytes.
    pub length: u64,
    /// The first byte.
    pub first: u8,
    /// The second byte.
    pub second: u8,
    /// 0: nothing; 1: block 0 of a file; 2: a data block; 3: an EOT; 4: the end block; any other:
    /// less.
    pub kind: u8,
}

impl YmSent {
    /// What these numbers stand for.
    pub fn load(&self) -> Sent
        ensures { result ≡ parts.sent_of self.now }
    {
        Sent {
            length: self.length as usize,
            first: self.first,
            second: self.second,
            kind: kind_of(self.kind),
        }
    }

    /// Keeps this.
    pub fn keep(&mut self, sent: Sent)
        ensures { parts.sent_of self.new ≡ sent }
    {
        self.length = sent.length as u64;
        self.first = sent.first;
        self.second = sent.second;
        self.kind = code_of_kind(sent.kind);
    }
}

/// What was heard since the last write.
#[repr(C)]
pub struct YmHeard {
    /// How many bytes.
    pub count: u64,
    /// When the first came.
    pub since: u64,
    /// When the last came.
    pub last: u64,
    /// When the last ACK came to a sender; before there is one, when the first byte did.
    pub answered_at: u64,
    /// The first byte.
    pub first: u8,
    /// The second byte.
    pub second: u8,
    /// How many ACK a sender heard that came not right behind another.
    pub answers: u8,
    /// Whether the last byte that a sender heard was ACK.
    pub is_ack: u8,
    /// Whether the last read found the line quiet.
    pub is_quiet: u8,
    /// How many reads waited in vain, or parts of one.
    pub waits: u8,
    /// Whether any did before the first byte came.
    pub is_late: u8,
}

impl YmHeard {
    /// What these numbers stand for.
    pub fn load(&self) -> Arrivals
        ensures { result ≡ parts.heard_of self.now }
    {
        Arrivals {
            count: self.count,
            since: self.since,
            last: self.last,
            answered_at: self.answered_at,
            first: self.first,
            second: self.second,
            answers: self.answers,
            is_ack: flag_of(self.is_ack),
            is_quiet: flag_of(self.is_quiet),
            waits: self.waits,
            is_late: flag_of(self.is_late),
        }
    }

    /// Keeps this.
    pub fn keep(&mut self, heard: Arrivals)
        ensures { parts.heard_of self.new ≡ heard }
    {
        self.count = heard.count;
        self.since = heard.since;
        self.last = heard.last;
        self.answered_at = heard.answered_at;
        self.first = heard.first;
        self.second = heard.second;
        self.answers = heard.answers;
        self.is_ack = code_of_flag(heard.is_ack);
        self.is_quiet = code_of_flag(heard.is_quiet);
        self.waits = heard.waits;
        self.is_late = code_of_flag(heard.is_late);
    }
}

/// What of that which comes to a sender is no reply.
#[repr(C)]
pub struct YmEar {
    /// When the last byte came.
    pub at: u64,
    /// Where echo is 3: how many bytes came back.
    pub place: u64,
    /// 0: none; 1: the first byte of a block; 2: two of them; 3: it goes on; any other: it is
    /// broken.
    pub echo: u8,
    /// Where echo is 1 or 2: the first byte.
    pub first: u8,
    /// Where echo is 2: what may be the number.
    pub number: u8,
    /// How many bytes came that are no control byte.
    pub others: u8,
}

impl YmEar {
    /// What these numbers stand for.
    pub fn load(&self) -> Ear
        ensures { result ≡ parts.ear_of self.now }
    {
        Ear {
            echo: echo_of(self.echo, self.first, self.number, self.place),
            others: self.others,
            at: self.at,
        }
    }

    /// Keeps this.
    pub fn keep(&mut self, ear: Ear)
        ensures { parts.ear_of self.new ≡ ear }
    {
        let (echo, first, number, place) = codes_of_echo(ear.echo);
        self.at = ear.at;
        self.place = place;
        self.echo = echo;
        self.first = first;
        self.number = number;
        self.others = ear.others;
    }
}

/// What a sender holds back of a reply.
#[repr(C)]
pub struct YmHold {
    /// When the ACK came.
    pub at: u64,
    /// When the last C came that was passed over, or block 0 was written.
    pub asked_at: u64,
    /// Whether an ACK is held.
    pub is_held: u8,
    /// 0: the next ACK C counts; 1: it may be that of a copy; 2: its ACK was dropped; 3: it came,
    /// and CAN CAN is listened for briefly; any other: not at all.
    pub first_ack: u8,
    /// How many more C may be passed over.
    pub asks_left: u8,
}

impl YmHold {
    /// What these numbers stand for.
    pub fn load(&self) -> Hold
        ensures { result ≡ parts.hold_of self.now }
    {
        Hold {
            is_held: flag_of(self.is_held),
            at: self.at,
            first_ack: first_ack_of(self.first_ack),
            asks_left: self.asks_left,
            asked_at: self.asked_at,
        }
    }

    /// Keeps this.
    pub fn keep(&mut self, hold: Hold)
        ensures { parts.hold_of self.new ≡ hold }
    {
        self.at = hold.at;
        self.asked_at = hold.asked_at;
        self.is_held = code_of_flag(hold.is_held);
        self.first_ack = code_of_first_ack(hold.first_ack);
        self.asks_left = hold.asks_left;
    }
}
