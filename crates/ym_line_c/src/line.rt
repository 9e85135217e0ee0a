//! The machine and its clock, as plain numbers.

ghost use Rattle.std.specs.Prelude.{◌≡◌};
ghost use Rattle.ym_line_c.specs.Line.{timing_of, clock_of};
ghost use Rattle.ym_heard.specs.Times.{new_clock};
ghost use Rattle.ym_timing.specs.Timing.{new_timing};

use crate::codes::{code_of_flag, code_of_role, flag_of, role_of};
use crate::parts::{YmEar, YmHeard, YmHold, YmOut, YmPace, YmSent};
use ym_heard::Clock;
use ym_timing::{Prefix, Role, Timing};

/// What an end and its line have said of late, and when.
#[repr(C)]
pub struct YmLine {
    /// How long answers take.
    pub pace: YmPace,
    /// The writes whose answers may be under way.
    pub out: YmOut,
    /// What was written last.
    pub sent: YmSent,
    /// What was heard since.
    pub heard: YmHeard,
    /// What of that which comes is no reply.
    pub ear: YmEar,
    /// What is held back of a reply.
    pub hold: YmHold,
    /// When the last of that was heard which the last write answers.
    pub led_at: u64,
    /// How many bytes of the last reply came back to a receiver.
    pub echoed: u64,
    /// The greatest time that was told.
    pub clock_at: u64,
    /// How far behind that the clock of the host is.
    pub clock_behind: u64,
    /// 0: a sender; any other: a receiver.
    pub role: u8,
    /// Whether a receiver heard a frame.
    pub front_is_there: u8,
    /// Its first byte.
    pub front_first: u8,
    /// Its second byte.
    pub front_second: u8,
    /// Behind how many data blocks more that are answered the line is calm again.
    pub shaken: u8,
    /// Whether the EOT that was written last was refused before.
    pub is_refused: u8,
    /// How often in a row it was let clear and nothing came.
    pub vain: u8,
    /// Whether CAN CAN came while it was.
    pub has_cancel: u8,
}

impl YmLine {
    /// The machine that these numbers stand for.
    pub fn timing(&self) -> Timing
        ensures { result ≡ timing_of self.now }
    {
        Timing {
            role: role_of(u32::from(self.role)),
            pace: self.pace.load(),
            out: self.out.load(),
            sent: self.sent.load(),
            led_at: self.led_at,
            heard: self.heard.load(),
            ear: self.ear.load(),
            hold: self.hold.load(),
            echoed: self.echoed as usize,
            prefix: Prefix {
                is_there: flag_of(self.front_is_there),
                first: self.front_first,
                second: self.front_second,
            },
            shaken: self.shaken,
            is_refused: flag_of(self.is_refused),
            vain: self.vain,
            has_cancel: flag_of(self.has_cancel),
        }
    }

    /// Keeps a machine.
    pub fn keep(&mut self, timing: Timing)
        ensures timing { timing_of self.new ≡ timing }
        ensures clock { clock_of self.new ≡ clock_of self.old }
    {
        self.pace.keep(timing.pace);
        self.out.keep(timing.out);
        self.sent.keep(timing.sent);
        self.heard.keep(timing.heard);
        self.ear.keep(timing.ear);
        self.hold.keep(timing.hold);
        self.led_at = timing.led_at;
        self.echoed = timing.echoed as u64;
        self.role = code_of_role(timing.role);
        self.front_is_there = code_of_flag(timing.prefix.is_there);
        self.front_first = timing.prefix.first;
        self.front_second = timing.prefix.second;
        self.shaken = timing.shaken;
        self.is_refused = code_of_flag(timing.is_refused);
        self.vain = timing.vain;
        self.has_cancel = code_of_flag(timing.has_cancel);
    }

    /// The clock that these numbers stand for.
    pub fn clock(&self) -> Clock
        ensures { result ≡ clock_of self.now }
    {
        Clock {
            at: self.clock_at,
            behind: self.clock_behind,
        }
    }

    /// Keeps a clock.
    pub fn keep_clock(&mut self, clock: Clock)
        ensures clock { clock_of self.new ≡ clock }
        ensures timing { timing_of self.new ≡ timing_of self.old }
    {
        self.clock_at = clock.at;
        self.clock_behind = clock.behind;
    }

    /// Makes it an end that said and heard nothing, whatever stood there.
    pub fn start(&mut self, role: Role)
        ensures timing { timing_of self.new ≡ new_timing role }
        ensures clock { clock_of self.new ≡ new_clock }
    {
        self.keep(Timing::new(role));
        self.keep_clock(Clock::new());
    }
}
