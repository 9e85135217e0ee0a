//! What a sender keeps beside its files and its frame, and what a delivery makes of it.

ghost use Rattle.std.specs.Prelude.{◌≡◌, ◌≢◌, ◌<◌, ℕ, List, None, Some, true, false};
ghost use Rattle.ym_core.specs.Position.{IsPosition};
ghost use Rattle.ym_core.specs.Scan.{controls_in};
ghost use Rattle.ym_core.specs.Standing as table;
ghost use Rattle.ym_machine.specs.declared.limits.TheConstants.{GIVE_UP};

use crate::batch_shape::BatchShape;
use crate::position::{Mode, Position};
use crate::scan::{Scan, Stop, read_delivery};
use crate::state::SendState;
use ym_machine::GIVE_UP;

/// Where a sender stands.
#[derive(Clone, Copy, PartialEq, Eq)]
pub struct Standing {
    /// The frame that is out or to go.
    pub position: Position,
    /// Whether that frame is out.
    pub mode: Mode,
    /// Deliveries in a row without progress.
    pub retries: u8,
    /// Whether it runs, or how it has ended.
    pub state: SendState,
    /// CAN CAN is still to go.
    pub cancel_pending: bool,
}

/// What a delivery leads to.
#[derive(Clone, Copy, PartialEq, Eq)]
pub struct SendStep {
    /// Where the sender stands behind it.
    pub standing: Standing,
    /// The position whose frame becomes the sent one.
    pub fills: Option<Position>,
}

impl Standing {
    /// Waiting at the first frame of a batch.
    pub fn new(first: Position) -> Standing
        ensures { result ≡
            record {
              position = first;
              mode = Mode.Waiting;
              retries = 0;
              state = SendState.Running;
              cancel_pending = false;
            } }
    {
        Standing {
            position: first,
            mode: Mode::Waiting,
            retries: 0,
            state: SendState::Running,
            cancel_pending: false,
        }
    }

    /// After a delivery without progress.
    #[inline]
    fn miss(&mut self)
        requires { self.old.retries < GIVE_UP }
        ensures step { self.new ≡ (table.missed self.old).standing }
        ensures retries { self.new.state ≡ SendState.Running → self.new.retries < GIVE_UP }
    {
        self.retries += 1;
        if self.retries >= GIVE_UP {
            self.state = SendState::NoReply;
            self.cancel_pending = true;
        }
    }

    /// After progress to a position and a mode.
    #[inline(always)]
    fn move_to(&mut self, position: Position, mode: Mode)
        ensures { self.new ≡ table.moved self.old position mode }
    {
        self.position = position;
        self.mode = mode;
        self.retries = 0;
    }

    /// After the source of the frame to be sent has failed.
    pub fn source_failed(self) -> Standing
        ensures { result ≡ record self { state = SendState.SourceFailed; cancel_pending = true } }
    {
        Standing {
            state: SendState::SourceFailed,
            cancel_pending: true,
            ..self
        }
    }

    /// After a delivery that a running sender has read, by `read_delivery` from its place and mode
    /// on: what `after` gives on its bytes, without reading them again.
    pub fn after_scan(self, read: Scan) -> SendStep
        requires { self.retries < GIVE_UP }
        ensures step { result ≡ table.after_scan self read.position read.mode read.stop }
        ensures within { (counts : List ℕ) → IsPosition counts self.position →
            IsPosition counts read.position → IsPosition counts result.standing.position }
        ensures retries { result.standing.state ≡ SendState.Running →
            result.standing.retries < GIVE_UP }
    {
        let mut standing = self;
        let fills = standing.take_scan(read);
        SendStep { standing, fills }
    }

    /// The same in place. It answers the position whose frame becomes the sent one.
    #[inline(always)]
    pub fn take_scan(&mut self, read: Scan) -> Option<Position>
        requires { self.old.retries < GIVE_UP }
        ensures step { table.step_to self.new result ≡
            table.after_scan self.old read.position read.mode read.stop }
        ensures within { (counts : List ℕ) → IsPosition counts self.old.position →
            IsPosition counts read.position → IsPosition counts self.new.position }
        ensures retries { self.new.state ≡ SendState.Running → self.new.retries < GIVE_UP }
    {
        if let Some(Stop::Sends) = read.stop {
            self.move_to(read.position, read.mode);
            return Some(read.position);
        }
        self.take_other(read);
        None
    }

    /// The same where no frame becomes the sent one.
    // what was read would go through memory to a call
    #[inline(always)]
    fn take_other(&mut self, read: Scan)
        requires retries { self.old.retries < GIVE_UP }
        requires other { read.stop ≢ Some Stop.Sends }
        ensures step { table.step_to self.new None ≡
            table.after_scan self.old read.position read.mode read.stop }
        ensures within { (counts : List ℕ) → IsPosition counts self.old.position →
            IsPosition counts read.position → IsPosition counts self.new.position }
        ensures retries { self.new.state ≡ SendState.Running → self.new.retries < GIVE_UP }
    {
        match read.stop {
            Some(Stop::Again) => self.miss(),
            Some(Stop::Finishes) => self.state = SendState::Finished,
            Some(Stop::Cancels) => {
                self.position = read.position;
                self.mode = read.mode;
                self.state = SendState::Cancelled;
            }
            _ => {
                if self.mode == read.mode {
                    self.miss();
                } else {
                    self.move_to(read.position, read.mode);
                }
            }
        }
    }

    /// After a delivery of these bytes. Where a position is filled, the host sends its frame, and
    /// keeps it to send it again; where it cannot make that frame, it keeps `source_failed`.
    pub fn after<B: BatchShape>(self, batch: &B, bytes: &[u8]) -> SendStep
        requires position { IsPosition (B.counts batch.now) self.position }
        requires retries { self.state ≡ SendState.Running → self.retries < GIVE_UP }
        ensures step { result ≡ table.hears (B.counts batch.now) self (controls_in bytes.now) }
        ensures within { IsPosition (B.counts batch.now) result.standing.position }
        ensures runs { result.standing.state ≡ SendState.Running →
            result.standing.retries < GIVE_UP }
    {
        if self.state == SendState::Running {
            self.after_scan(read_delivery(batch, self.position, self.mode, bytes))
        } else {
            SendStep {
                standing: Standing {
                    cancel_pending: false,
                    ..self
                },
                fills: None,
            }
        }
    }

    /// Whether more bytes cannot change what these make of it.
    pub fn settled<B: BatchShape>(self, batch: &B, bytes: &[u8]) -> bool
        requires { IsPosition (B.counts batch.now) self.position }
        ensures { result ≡ table.is_settled (B.counts batch.now) self (controls_in bytes.now) }
    {
        if self.state != SendState::Running {
            return true;
        }
        read_delivery(batch, self.position, self.mode, bytes)
            .stop
            .is_some()
    }
}
