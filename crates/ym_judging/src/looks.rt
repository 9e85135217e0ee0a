//! What is noted of a frame that a sender wrote.

ghost use Rattle.std.specs.Prelude.{◌≡◌, ◌≢◌, ◌⊎◌, true, false};
ghost use Rattle.ym_core.specs.Hearing.{heard_of};
ghost use Rattle.ym_judging.specs.Looking.{IsActLook, IsFormLook, looks_at};

use crate::usual::LENGTH;
use ym_form::{BlockForm, form_in, has_name_of};
use ym_judge::{Act, Case, Parcel, Spot};

/// How many bytes the long name has.
const LONG_NAME: usize = 124;

/// What is noted of a frame that a sender wrote.
#[derive(Clone, Copy)]
pub(crate) struct Look {
    /// What the reference does.
    pub(crate) asked: Act,
    /// What the peer did.
    pub(crate) did: Act,
    /// They are the forms of the frame.
    pub(crate) is_form: bool,
}

/// Whether the case looks at the bytes of a frame, by which a sender does this.
fn looks_at(case: Case, act: Act, bytes: &[u8]) -> bool
    ensures { result ≡ looks_at case act (heard_of bytes.now) }
{
    match (case, act) {
        (Case::Bytes(Spot::Header), Act::Header) | (Case::Bytes(Spot::End), Act::End) => true,
        (Case::Sends(Parcel::LongName), Act::Header) => has_name_of(bytes, LONG_NAME),
        _ => false,
    }
}

/// What is noted of a frame by which a sender does this: its form, where it is the frame that is
/// asked for, and the case looks at it.
pub(crate) fn look_of(case: Case, asked: Act, did: Act, bytes: &[u8]) -> Look
    ensures form { asked ≡ did → looks_at case did (heard_of bytes.now) ≡ true →
        IsFormLook (heard_of bytes.now) result }
    ensures act { (asked ≢ did) ⊎ (looks_at case did (heard_of bytes.now) ≡ false) →
        IsActLook asked did result }
{
    if asked == did && looks_at(case, did, bytes) {
        Look {
            asked: Act::Form(BlockForm::Fields),
            did: Act::Form(form_in(bytes, LENGTH)),
            is_form: true,
        }
    } else {
        Look {
            asked,
            did,
            is_form: false,
        }
    }
}
