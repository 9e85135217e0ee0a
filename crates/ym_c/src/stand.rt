//! Where a receiver stands, as C keeps it.

ghost use Rattle.std.specs.Prelude.{◌≡◌, Some, IfSome};
ghost use Rattle.ym_core.specs.Receiver.{Receiver};
ghost use Rattle.ym_c.specs.Stands.{Keeps, KeepsStage, ended_receiver};

use crate::codes::{codes_of_state, confirm_of, flag_of, state_of};
use ym_core::{Confirm, OpenFile, ReceiverCore, Stage, Stand};

/// Where a receiver stands: plain numbers, of which any may stand in any field.
#[repr(C)]
pub struct YmStand {
    /// The length in bytes that the header states, while a file is taken.
    pub length: u64,
    /// How many bytes of the file were taken.
    pub taken: u64,
    /// How many data blocks of the file were taken.
    pub blocks: u64,
    /// How many files were committed.
    pub files: u32,
    /// 0: it runs; else how it has ended.
    pub state: u32,
    /// At state 7: the fault of the header.
    pub fault: u32,
    /// Whether a file is taken.
    pub in_file: u32,
    /// Whether a first EOT was accepted.
    pub first_eot: u32,
    /// Deliveries in a row without progress.
    pub retries: u32,
    /// 0: a first EOT is questioned; 1: it is not.
    pub confirm: u32,
}

/// A receiver that has ended, in place of numbers that no receiver has.
pub fn ended() -> ReceiverCore
    ensures { result ≡ ended_receiver }
{
    ReceiverCore::new(Confirm::Twice).failed()
}

/// What the numbers say that is waited for, where a receiver has such.
fn stage_of(kept: &YmStand) -> Option<Stage>
    ensures kept { (core : Receiver) → Keeps kept.now core → result ≡ Some core.stage }
    ensures sound { IfSome result (KeepsStage kept.now) }
{
    match kept.in_file {
        0 => Some(Stage::AwaitHeader),
        1 => {
            let first_eot = flag_of(kept.first_eot)?;
            Some(Stage::InFile(OpenFile {
                length: kept.length,
                taken: kept.taken,
                blocks: kept.blocks,
                first_eot,
            }))
        }
        _ => None,
    }
}

/// The receiver that is kept, where any receiver has these numbers.
pub fn load(kept: &YmStand) -> Option<ReceiverCore>
    ensures kept { (core : Receiver) → Keeps kept.now core → result ≡ Some core }
    ensures sound { IfSome result (Keeps kept.now) }
{
    let state = state_of(kept.state, kept.fault)?;
    let confirm = confirm_of(kept.confirm)?;
    let stage = stage_of(kept)?;
    let Ok(retries) = u8::try_from(kept.retries) else {
        return None;
    };
    ReceiverCore::at(Stand {
        confirm,
        stage,
        files: kept.files as usize,
        retries,
        state,
    })
}

/// Keeps a receiver.
pub fn store(kept: &mut YmStand, core: ReceiverCore)
    ensures { Keeps kept.new core }
{
    let stand = core.stand();
    let (state, fault) = codes_of_state(stand.state);
    kept.state = state;
    kept.fault = fault;
    kept.retries = u32::from(stand.retries);
    kept.files = u32::try_from(stand.files).unwrap_or(u32::MAX);
    kept.confirm = match stand.confirm {
        Confirm::Twice => 0,
        Confirm::Once => 1,
    };
    match stand.stage {
        Stage::AwaitHeader => {
            kept.in_file = 0;
            kept.first_eot = 0;
            kept.length = 0;
            kept.taken = 0;
            kept.blocks = 0;
        }
        Stage::InFile(file) => {
            kept.in_file = 1;
            kept.first_eot = if file.first_eot { 1 } else { 0 };
            kept.length = file.length;
            kept.taken = file.taken;
            kept.blocks = file.blocks;
        }
    }
}
