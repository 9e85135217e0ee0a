//! Where a receiver stands, as plain data.

use crate::stage::Stage;
use crate::state::RecvState;
use std::marker::Model;
use ym_machine::Confirm;

/// Where a receiver stands, as a host may keep it in a form of its own. Contracts see it as the
/// table's receiver.
#[derive(Clone, Copy, Debug, PartialEq, Eq)]
pub struct Stand {
    /// Whether a first EOT is questioned.
    pub confirm: Confirm,
    /// What it waits for.
    pub stage: Stage,
    /// Files committed.
    pub files: usize,
    /// Deliveries in a row without progress.
    pub retries: u8,
    /// Whether it runs, or how it has ended.
    pub state: RecvState,
}

impl Model for Stand {
    ghost use Rattle.ym_core.specs.Receiver.{Receiver};

    ghost Value = { Receiver };

    ghost view = { λ r.
        record {
          confirm = r.confirm;
          stage = r.stage;
          files = r.files;
          retries = r.retries;
          state = r.state;
        } };

    ghost inverse = { λ r.
        record {
          confirm = r.confirm;
          stage = r.stage;
          files = r.files;
          retries = r.retries;
          state = r.state;
        } };
}
