//! For how long bytes have been coming.

ghost use Rattle.std.specs.Prelude.{◌≡◌};
ghost use Rattle.ym_host.specs.Drip as table;

use ym_link::Got;
use ym_port::Role;

/// For how many milliseconds bytes may come to a sender with no pause and no write: ten times as
/// long as it waits for a reply at first.
pub const LONGEST_OF_REPLY: u64 = 100_000;

/// The same of what comes to a receiver: ten times as long as it waits for a frame at first.
pub const LONGEST_OF_FRAME: u64 = 30_000;

/// How long bytes have been coming.
#[derive(Clone, Copy)]
pub enum Drip {
    /// None have come since the line was quiet or something was written.
    Nothing,
    /// Since this moment.
    Since(u64),
}

impl Drip {
    /// Whether they have come to this end for too long, at this moment.
    pub fn is_overdue(self, role: Role, moment: u64) -> bool
        ensures { result ≡ table.is_overdue role moment self }
    {
        let longest = match role {
            Role::Sender => LONGEST_OF_REPLY,
            Role::Receiver => LONGEST_OF_FRAME,
        };
        match self {
            Drip::Nothing => false,
            Drip::Since(start) => moment.saturating_sub(start) > longest,
        }
    }

    /// Behind a read that got this, where the clock told this moment last.
    pub fn after(self, moment: u64, got: Got) -> Drip
        ensures { result ≡ table.after got moment self }
    {
        match (got, self) {
            (Got::Quiet | Got::Closed, _) => Drip::Nothing,
            (Got::Bytes(_), Drip::Nothing) => Drip::Since(moment),
            (Got::Bytes(_), drip) => drip,
        }
    }
}
