//! The numbers that stand for what the machine knows.

ghost use Rattle.std.specs.Prelude.{◌≡◌};
ghost use Rattle.ym_line_c.specs.LineCodes as codes;

use ym_heard::{Echo, FirstAck, Kind};
use ym_timing::{Expected, Heed, Need, Owed, Role, Trust, Vain};

/// Whether this number says yes.
pub fn flag_of(code: u8) -> bool
    ensures { result ≡ codes.flag_of code }
{
    code != 0
}

/// The number of a yes or a no.
pub fn code_of_flag(flag: bool) -> u8
    ensures { codes.flag_of result ≡ flag }
{
    if flag { 1 } else { 0 }
}

/// Which end this number is.
pub fn role_of(code: u32) -> Role
    ensures { result ≡ codes.role_of code }
{
    match code {
        0 => Role::Sender,
        _ => Role::Receiver,
    }
}

/// The number of an end.
pub fn code_of_role(role: Role) -> u8
    ensures { codes.role_of result ≡ role }
{
    match role {
        Role::Sender => 0,
        Role::Receiver => 1,
    }
}

/// How much this number trusts.
pub fn trust_of(code: u8) -> Trust
    ensures { result ≡ codes.trust_of code }
{
    match code {
        0 => Trust::Unknown,
        1 => Trust::Doubtful,
        _ => Trust::Sure,
    }
}

/// The number of a trust.
pub fn code_of_trust(trust: Trust) -> u8
    ensures { codes.trust_of result ≡ trust }
{
    match trust {
        Trust::Unknown => 0,
        Trust::Doubtful => 1,
        Trust::Sure => 2,
    }
}

/// What this number owes.
pub fn owed_of(code: u8) -> Owed
    ensures { result ≡ codes.owed_of code }
{
    match code {
        0 => Owed::Nothing,
        1 => Owed::One,
        2 => Owed::Late,
        3 => Owed::Likely,
        _ => Owed::Several,
    }
}

/// The number of what is owed.
pub fn code_of_owed(owed: Owed) -> u8
    ensures { codes.owed_of result ≡ owed }
{
    match owed {
        Owed::Nothing => 0,
        Owed::One => 1,
        Owed::Late => 2,
        Owed::Likely => 3,
        Owed::Several => 4,
    }
}

/// What was written, by this number.
pub fn kind_of(code: u8) -> Kind
    ensures { result ≡ codes.kind_of code }
{
    match code {
        0 => Kind::Nothing,
        1 => Kind::Opening,
        2 => Kind::Empty,
        3 => Kind::Data,
        4 => Kind::Eot,
        5 => Kind::End,
        _ => Kind::Short,
    }
}

/// The number of what was written.
pub fn code_of_kind(kind: Kind) -> u8
    ensures { codes.kind_of result ≡ kind }
{
    match kind {
        Kind::Nothing => 0,
        Kind::Opening => 1,
        Kind::Empty => 2,
        Kind::Data => 3,
        Kind::Eot => 4,
        Kind::End => 5,
        Kind::Short => 6,
    }
}

/// What is known of the first ACK of an EOT, by its number.
pub fn first_ack_of(code: u8) -> FirstAck
    ensures { result ≡ codes.first_ack_of code }
{
    match code {
        0 => FirstAck::Counts,
        1 => FirstAck::Doubted,
        2 => FirstAck::Dropped,
        3 => FirstAck::Brief,
        _ => FirstAck::Rested,
    }
}

/// The number of what is known of the first ACK of an EOT.
pub fn code_of_first_ack(first_ack: FirstAck) -> u8
    ensures { codes.first_ack_of result ≡ first_ack }
{
    match first_ack {
        FirstAck::Counts => 0,
        FirstAck::Doubted => 1,
        FirstAck::Dropped => 2,
        FirstAck::Brief => 3,
        FirstAck::Rested => 4,
    }
}

/// How far an echo has come, by these numbers.
pub fn echo_of(code: u8, first: u8, number: u8, place: u64) -> Echo
    ensures { result ≡ codes.echo_of code first number place }
{
    match code {
        0 => Echo::Open,
        1 => Echo::Head(first),
        2 => Echo::Number(first, number),
        3 => Echo::Goes(place as usize),
        _ => Echo::Broken,
    }
}

/// The numbers of an echo.
pub fn codes_of_echo(echo: Echo) -> (u8, u8, u8, u64)
    ensures { codes.echo_of result.0 result.1 result.2 result.3 ≡ echo }
{
    match echo {
        Echo::Open => (0, 0, 0, 0),
        Echo::Head(first) => (1, first, 0, 0),
        Echo::Number(first, number) => (2, first, number, 0),
        Echo::Goes(place) => (3, 0, 0, place as u64),
        Echo::Broken => (4, 0, 0, 0),
    }
}

/// Why a line has to clear, by this number.
pub fn need_of(code: u8) -> Need
    ensures { result ≡ codes.need_of code }
{
    match code {
        0 => Need::Nothing,
        1 => Need::Quiet,
        2 => Need::Late,
        _ => Need::Several,
    }
}

/// The number of why it has to.
pub fn code_of_need(need: Need) -> u8
    ensures { codes.need_of result ≡ need }
{
    match need {
        Need::Nothing => 0,
        Need::Quiet => 1,
        Need::Late => 2,
        Need::Several => 3,
    }
}

/// How much of CAN CAN was dropped, by this number.
pub fn heed_of(code: u8) -> Heed
    ensures { result ≡ codes.heed_of code }
{
    match code {
        0 => Heed::Open,
        1 => Heed::Can,
        2 => Heed::Ack,
        _ => Heed::Other,
    }
}

/// The number of how much was.
pub fn code_of_heed(heed: Heed) -> u8
    ensures { codes.heed_of result ≡ heed }
{
    match heed {
        Heed::Open => 0,
        Heed::Can => 1,
        Heed::Ack => 2,
        Heed::Other => 3,
    }
}

/// What a read waits for, by this number.
pub fn wait_of(code: u32) -> Expected
    ensures { result ≡ codes.wait_of code }
{
    match code {
        0 => Expected::Reply,
        _ => Expected::Within,
    }
}

/// The number of what a read that waited in vain comes to.
pub fn code_of_vain(vain: Vain) -> u32
    ensures { result ≡ codes.vain_code vain }
{
    match vain {
        Vain::Again => 0,
        Vain::Ack => 1,
        Vain::Quiet => 2,
    }
}
