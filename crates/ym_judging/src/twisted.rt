//! What becomes of what is written at a place of a case.

ghost use Rattle.std.specs.Prelude.{◌≡◌, IfOk, IfSome, Some};
ghost use Rattle.ym_judging.specs.Manners.{is_everywhere, rest_ms, twisted_as};

use crate::line::{ENDED_MS, STILL_MS};
use std::alloc::{AllocError, Global};
use ym_judge::{Case, Spot, Twist, carried};

/// What becomes of a frame at this place of a session, where the case has it so.
pub(crate) fn frame_twist(case: Case, spot: Option<Spot>) -> Option<Twist>
    ensures there { (here : Spot) (twist : Twist) → case ≡ Case.Frame here twist →
        spot ≡ Some here → result ≡ Some twist }
    ensures alone { IfSome result (λ twist. (there : Spot) × (spot ≡ Some there)
        × (case ≡ Case.Frame there twist)) }
{
    match (case, spot) {
        (Case::Frame(there, twist), Some(here)) if there == here => Some(twist),
        _ => None,
    }
}

/// What becomes of the answer to what was sent there.
pub(crate) fn answer_twist(case: Case, spot: Option<Spot>) -> Option<Twist>
    ensures there { (here : Spot) (twist : Twist) → case ≡ Case.Answer here twist →
        spot ≡ Some here → result ≡ Some twist }
    ensures alone { IfSome result (λ twist. (there : Spot) × (spot ≡ Some there)
        × (case ≡ Case.Answer there twist)) }
{
    match (case, spot) {
        (Case::Answer(there, twist), Some(here)) if there == here => Some(twist),
        _ => None,
    }
}

/// Whether each step is one of the case.
pub(crate) fn is_everywhere(case: Case) -> bool
    ensures { result ≡ is_everywhere case }
{
    match case {
        Case::Plain | Case::Sends(_) => true,
        Case::Frame(_, _) | Case::Answer(_, _) | Case::Bytes(_) => false,
    }
}

/// For how many milliseconds it is listened for what comes behind the end of the session: longer
/// where CAN CAN was written.
pub(crate) fn rest_ms(case: Case) -> u64
    ensures { result ≡ rest_ms case }
{
    match case {
        Case::Frame(_, Twist::Cancel) | Case::Answer(_, Twist::Cancel) => ENDED_MS,
        _ => STILL_MS,
    }
}

/// What goes out in place of these bytes.
pub(crate) fn twisted(
    alloc: Global,
    twist: Option<Twist>,
    bytes: Vec<u8>,
) -> Result<Vec<u8>, AllocError>
    ensures { IfOk result (λ out. out.items ≡ twisted_as twist bytes.items) }
{
    match twist {
        Some(twist) => carried(alloc, twist, bytes.as_slice()),
        None => Ok(bytes),
    }
}
