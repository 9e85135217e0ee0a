//! What becomes of what this end writes.

ghost use Rattle.std.specs.Prelude.{◌≡◌, ◌++◌, ◌∷◌, [], IfOk, OnOk, map};
ghost use Rattle.ym_judge.specs.Carriage.{carried_as, damaged, misnumbered, other};

use crate::twist::Twist;
use std::alloc::{AllocError, Global};

/// Bytes with which no frame begins, and that are no answer.
pub const JUNK: [u8; 3] = [0x55, 0x55, 0x55];

const CAN: u8 = 0x18;

/// These bytes, and those behind them.
fn joined(alloc: Global, prefix: &[u8], rest: &[u8]) -> Result<Vec<u8>, AllocError>
    ensures { IfOk result (λ bytes. bytes.items ≡ prefix.now ++ rest.now) }
{
    let mut bytes = Vec::from_slice(alloc, prefix)?;
    bytes.extend_from_slice(rest)?;
    Ok(bytes)
}

/// Puts another byte behind for each of these.
fn push_others(bytes: &mut Vec<u8>, written: &[u8]) -> Result<(), AllocError>
    ensures { OnOk result (bytes.new.items ≡ bytes.old.items ++ map other written.now) }
{
    for byte in written {
        bytes.push(255 - *byte)?;
    }
    Ok(())
}

/// Another byte for each.
fn garbled(alloc: Global, written: &[u8]) -> Result<Vec<u8>, AllocError>
    ensures { IfOk result (λ bytes. bytes.items ≡ map other written.now) }
{
    let mut bytes = Vec::new(alloc);
    push_others(&mut bytes, written)?;
    Ok(bytes)
}

/// The same bytes with another last one.
fn damaged(alloc: Global, written: &[u8]) -> Result<Vec<u8>, AllocError>
    ensures { IfOk result (λ bytes. bytes.items ≡ damaged written.now) }
{
    let last = written.len().saturating_sub(1);
    let mut bytes = Vec::from_slice(alloc, &written[..last])?;
    push_others(&mut bytes, &written[last..])?;
    Ok(bytes)
}

/// The same block under a number that is five more.
fn misnumbered(alloc: Global, written: &[u8]) -> Result<Vec<u8>, AllocError>
    ensures { IfOk result (λ bytes. bytes.items ≡ misnumbered written.now) }
{
    match written {
        [first, number, _, rest @ ..] => {
            let number = number.wrapping_add(5);
            joined(alloc, &[*first, number, 255 - number], rest)
        }
        _ => Vec::from_slice(alloc, written),
    }
}

/// What goes out in place of these bytes. Of `Twist::Doubled` it goes out twice.
pub fn carried(alloc: Global, twist: Twist, written: &[u8]) -> Result<Vec<u8>, AllocError>
    ensures { IfOk result (λ bytes. bytes.items ≡ carried_as twist written.now) }
{
    match twist {
        Twist::Lost => Ok(Vec::new(alloc)),
        Twist::Damaged => damaged(alloc, written),
        Twist::Garbled => garbled(alloc, written),
        Twist::Cut => Vec::from_slice(alloc, &written[..written.len() / 2]),
        Twist::Doubled | Twist::Late | Twist::AnswerLost | Twist::Unheard | Twist::Prompt => {
            Vec::from_slice(alloc, written)
        }
        Twist::Junk => joined(alloc, &JUNK, written),
        Twist::LoneCan => joined(alloc, &[CAN], written),
        Twist::Cancel => Vec::from_slice(alloc, &[CAN, CAN]),
        Twist::Misnumbered => misnumbered(alloc, written),
        Twist::Early => Vec::from_slice(alloc, &[0x04]),
        Twist::Refused => Vec::from_slice(alloc, &[0x15]),
        Twist::Asked => Vec::from_slice(alloc, &[0x43]),
        Twist::Taken => Vec::from_slice(alloc, &[0x06]),
        Twist::Behind => joined(alloc, written, &[0x15]),
    }
}
