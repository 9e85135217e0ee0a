//! Where a sender stands, as C keeps it.

ghost use Rattle.std.specs.Prelude.{◌≡◌, ◌<◌, ◌≤◌, ℕ, Some, IfSome};
ghost use Rattle.ym_core.specs.declared.standing.Standing.{Standing as Stood};
ghost use Rattle.ym_core.specs.declared.state.SendState.TheVariants.{Running};
ghost use Rattle.ym_core.specs.declared.state.SendState.{SendState as Ended};
ghost use Rattle.ym_core.specs.declared.position.Mode.{Mode as Moded};
ghost use Rattle.ym_core.specs.declared.position.Position.{Position as Placed};
ghost use Rattle.ym_core.specs.Position.{IsPosition};
ghost use Rattle.ym_c.specs.SenderInC.{FitsC, KeepsPosition, mode_code, send_code, KeepsStanding, Stands, ended_standing};
ghost use Rattle.ym_machine.specs.declared.limits.TheConstants.{GIVE_UP};

use crate::codes::flag_of;
use crate::sender::YmSender;
use ym_core::{Mode, Position, SendState, Standing};
use ym_machine::{GIVE_UP, MOST_FILES};

/// A sender that has ended, with nothing to send, in place of numbers that no sender has.
pub fn ended() -> Standing
    ensures { result ≡ ended_standing }
{
    Standing {
        position: Position::End,
        mode: Mode::Waiting,
        retries: 0,
        state: SendState::NoReply,
        cancel_pending: false,
    }
}

/// The position that is kept, if it is one of the batch.
fn position_of(kept: &YmSender, blocks: &[u64]) -> Option<Position>
    ensures kept { (position : Placed) → KeepsPosition kept.now position →
        IsPosition blocks.now position → result ≡ Some position }
    ensures within { IfSome result (IsPosition blocks.now) }
    ensures sound { IfSome result (KeepsPosition kept.now) }
{
    let file = kept.file as usize;
    match kept.place {
        0 if file < blocks.len() => Some(Position::Header { file }),
        1 if file < blocks.len() && 1 <= kept.number && kept.number <= blocks[file] => {
            Some(Position::Block {
                file,
                number: kept.number,
            })
        }
        2 if file < blocks.len() => Some(Position::Eot { file }),
        3 => Some(Position::End),
        _ => None,
    }
}

/// The state that is kept.
fn state_of(state: u32) -> Option<SendState>
    ensures known { (known : Ended) → state ≡ send_code known → result ≡ Some known }
    ensures sound { IfSome result (λ known. state ≡ send_code known) }
{
    match state {
        0 => Some(SendState::Running),
        1 => Some(SendState::Finished),
        2 => Some(SendState::NoReply),
        3 => Some(SendState::Cancelled),
        4 => Some(SendState::SourceFailed),
        _ => None,
    }
}

/// The mode that is kept.
fn mode_of(mode: u32) -> Option<Mode>
    ensures known { (known : Moded) → mode ≡ mode_code known → result ≡ Some known }
    ensures sound { IfSome result (λ known. mode ≡ mode_code known) }
{
    match mode {
        0 => Some(Mode::Waiting),
        1 => Some(Mode::Sent),
        _ => None,
    }
}

/// How many deliveries in a row without progress are kept, where a sender in this state has so
/// many.
fn retries_of(retries: u32, state: SendState) -> Option<u8>
    ensures known { (known : ℕ) → retries ≡ known → known ≤ GIVE_UP → (state ≡ Running →
        known < GIVE_UP) → result ≡ Some known }
    ensures sound { IfSome result (λ known. (retries ≡ known) × (known ≤ GIVE_UP)
        × (state ≡ Running → known < GIVE_UP)) }
{
    let Ok(retries) = u8::try_from(retries) else {
        return None;
    };
    if retries > GIVE_UP || (retries == GIVE_UP && state == SendState::Running) {
        return None;
    }
    Some(retries)
}

/// Where the sender stands, where a sender of this batch can have these numbers.
pub fn load(kept: &YmSender, blocks: &[u64]) -> Option<Standing>
    ensures kept { (s : Stood) → KeepsStanding kept.now s → Stands blocks.now s → result ≡ Some s }
    ensures sound { IfSome result (λ s. KeepsStanding kept.now s × Stands blocks.now s) }
{
    if kept.len > 1029 || blocks.len() > MOST_FILES {
        return None;
    }
    let position = position_of(kept, blocks)?;
    let mode = mode_of(kept.mode)?;
    let state = state_of(kept.state)?;
    let retries = retries_of(kept.retries, state)?;
    let cancel_pending = flag_of(kept.cancel_pending)?;
    Some(Standing {
        position,
        mode,
        retries,
        state,
        cancel_pending,
    })
}

/// Keeps where a sender stands.
pub fn store(kept: &mut YmSender, standing: Standing)
    ensures stands { FitsC standing.position → kept.old.len ≤ 1029 →
        KeepsStanding kept.new standing }
    ensures len { kept.new.len ≡ kept.old.len }
    ensures frame { kept.new.frame ≡ kept.old.frame }
{
    let (position, file, number) = match standing.position {
        Position::Header { file } => (0, file, 0),
        Position::Block { file, number } => (1, file, number),
        Position::Eot { file } => (2, file, 0),
        Position::End => (3, 0, 0),
    };
    kept.place = position;
    kept.file = u32::try_from(file).unwrap_or(u32::MAX);
    kept.number = number;
    kept.mode = match standing.mode {
        Mode::Waiting => 0,
        Mode::Sent => 1,
    };
    kept.retries = u32::from(standing.retries);
    kept.state = match standing.state {
        SendState::Running => 0,
        SendState::Finished => 1,
        SendState::NoReply => 2,
        SendState::Cancelled => 3,
        SendState::SourceFailed => 4,
    };
    kept.cancel_pending = if standing.cancel_pending { 1 } else { 0 };
}
