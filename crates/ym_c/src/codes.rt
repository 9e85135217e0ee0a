//! The numbers that stand for states, faults and replies.

ghost use Rattle.std.specs.Prelude.{◌≡◌, Some, None, IfSome, Bool};
ghost use Rattle.ym_core.specs.declared.state.RecvState.{RecvState};
ghost use Rattle.ym_frame.specs.declared.control.Reply.{Reply as Replied};
ghost use Rattle.ym_c.specs.Codes as codes;

use ym_core::RecvState;
use ym_frame::Reply;
use ym_header::HeaderFault;
use ym_machine::Confirm;

/// The number of the fault of a header.
pub fn code_of_fault(fault: HeaderFault) -> u32
    ensures { result ≡ codes.header_fault_code fault }
{
    match fault {
        HeaderFault::NameEmpty => 1,
        HeaderFault::NameLong => 2,
        HeaderFault::NameUnsafe => 3,
        HeaderFault::NoLength => 4,
        HeaderFault::LengthLarge => 5,
        HeaderFault::Memory => 6,
    }
}

/// The fault that has this number.
pub fn fault_of(code: u32) -> Option<HeaderFault>
    ensures known { (known : HeaderFault) → code ≡ codes.header_fault_code known →
        result ≡ Some known }
    ensures sound { IfSome result (λ fault. code ≡ codes.header_fault_code fault) }
{
    match code {
        1 => Some(HeaderFault::NameEmpty),
        2 => Some(HeaderFault::NameLong),
        3 => Some(HeaderFault::NameUnsafe),
        4 => Some(HeaderFault::NoLength),
        5 => Some(HeaderFault::LengthLarge),
        6 => Some(HeaderFault::Memory),
        _ => None,
    }
}

/// The numbers of a state, and of the fault of a refused header.
pub fn codes_of_state(state: RecvState) -> (u32, u32)
    ensures state { result.0 ≡ codes.state_code state }
    ensures fault { result.1 ≡ codes.fault_code state }
{
    match state {
        RecvState::Running => (0, 0),
        RecvState::Finished => (1, 0),
        RecvState::TooManyErrors => (2, 0),
        RecvState::Cancelled => (3, 0),
        RecvState::OutOfStep => (4, 0),
        RecvState::TooManyFiles => (5, 0),
        RecvState::SinkFailed => (6, 0),
        RecvState::BadHeader(fault) => (7, code_of_fault(fault)),
    }
}

/// The state that these numbers stand for.
pub fn state_of(state: u32, fault: u32) -> Option<RecvState>
    ensures known { (known : RecvState) → state ≡ codes.state_code known →
        fault ≡ codes.fault_code known → result ≡ Some known }
    ensures sound { IfSome result (λ known. (state ≡ codes.state_code known)
        × (fault ≡ codes.fault_code known)) }
{
    if state == 7 {
        return match fault_of(fault) {
            Some(fault) => Some(RecvState::BadHeader(fault)),
            None => None,
        };
    }
    if fault != 0 {
        return None;
    }
    match state {
        0 => Some(RecvState::Running),
        1 => Some(RecvState::Finished),
        2 => Some(RecvState::TooManyErrors),
        3 => Some(RecvState::Cancelled),
        4 => Some(RecvState::OutOfStep),
        5 => Some(RecvState::TooManyFiles),
        6 => Some(RecvState::SinkFailed),
        _ => None,
    }
}

/// What this number says of a yes or a no.
pub fn flag_of(code: u32) -> Option<bool>
    ensures known { (known : Bool) → code ≡ codes.bool_code known → result ≡ Some known }
    ensures sound { IfSome result (λ flag. code ≡ codes.bool_code flag) }
{
    match code {
        0 => Some(false),
        1 => Some(true),
        _ => None,
    }
}

/// How often an EOT has to come by this number.
pub fn confirm_of(code: u32) -> Option<Confirm>
    ensures known { (known : Confirm) → code ≡ codes.confirm_code known → result ≡ Some known }
    ensures sound { IfSome result (λ confirm. code ≡ codes.confirm_code confirm) }
{
    match code {
        0 => Some(Confirm::Twice),
        1 => Some(Confirm::Once),
        _ => None,
    }
}

/// The number of a reply that is to be given.
pub fn code_of_reply(reply: Reply) -> u32
    ensures { result ≡ codes.reply_code reply }
{
    match reply {
        Reply::Silence => 1,
        Reply::Start => 2,
        Reply::Ack => 3,
        Reply::AckStart => 4,
        Reply::Nak => 5,
        Reply::Cancel => 6,
    }
}

/// The reply that has this number.
pub fn reply_of(code: u32) -> Option<Reply>
    ensures known { (known : Replied) → code ≡ codes.reply_code known → result ≡ Some known }
    ensures sound { IfSome result (λ reply. code ≡ codes.reply_code reply) }
{
    match code {
        1 => Some(Reply::Silence),
        2 => Some(Reply::Start),
        3 => Some(Reply::Ack),
        4 => Some(Reply::AckStart),
        5 => Some(Reply::Nak),
        6 => Some(Reply::Cancel),
        _ => None,
    }
}
