//! The values that a script's words write.

ghost use Rattle.std.specs.Prelude.{◌≡◌, ◌<◌, ◌^◌};
ghost use Rattle.std.specs.Option.{SomeIff};
ghost use Rattle.std.specs.Str.Parse.{IsNumeral, digits_value};
ghost use Rattle.ym_play.specs.Command.{stamp_in, delivery_in};
ghost use Rattle.ym_play.specs.PlayFault.{Gives};
ghost use Rattle.ym_play.specs.Value.{count_at, octal_at, stamp_at, bytes_at, hex_at, delivery_at};

use crate::command::{DeliveryText, StampText};
use crate::fault::{Refusal, ScriptWhy};
use hex::FromHexError;
use std::alloc::Global;
use ym_frame::Bytes;
use ym_header::Stamp;
use ym_line::Delivery;

/// The number below 2^16 that decimal digits alone write.
fn decimal_of(text: &str) -> Option<u16>
    ensures { SomeIff result (IsNumeral 10 text.now × (digits_value 10 text.now < 2 ^ 16))
        (digits_value 10 text.now) }
{
    let bytes = text.as_bytes();
    if bytes.is_empty() || bytes[0] == b'+' {
        return None;
    }
    text.parse::<u16>().ok()
}

/// The number below 2^64 that octal digits alone write.
fn octal_of(text: &str) -> Option<u64>
    ensures { SomeIff result (IsNumeral 8 text.now × (digits_value 8 text.now < 2 ^ 64))
        (digits_value 8 text.now) }
{
    let bytes = text.as_bytes();
    if bytes.is_empty() || bytes[0] == b'+' {
        return None;
    }
    u64::from_str_radix(text, 8).ok()
}

/// A number of rounds, from 1 to 65,535.
pub(crate) fn count_of(text: &str) -> Result<u16, ScriptWhy>
    ensures { result ≡ count_at text.now }
{
    match decimal_of(text) {
        Some(count) => {
            if count == 0 {
                return Err(ScriptWhy::Number);
            }
            Ok(count)
        }
        None => Err(ScriptWhy::Number),
    }
}

/// A time.
fn time_of(text: &str) -> Result<u64, ScriptWhy>
    ensures { result ≡ octal_at (2 ^ 64) text.now }
{
    match octal_of(text) {
        Some(time) => Ok(time),
        None => Err(ScriptWhy::Stamp),
    }
}

/// A mode.
fn mode_of(text: &str) -> Result<u32, ScriptWhy>
    ensures { result ≡ octal_at (2 ^ 32) text.now }
{
    match octal_of(text) {
        Some(mode) => {
            if mode > 0xffff_ffff {
                return Err(ScriptWhy::Stamp);
            }
            Ok(mode as u32)
        }
        None => Err(ScriptWhy::Stamp),
    }
}

/// A stamp.
pub(crate) fn stamp_of(stamp: StampText) -> Result<Stamp, ScriptWhy>
    ensures { result ≡ stamp_at (stamp_in stamp.entry) }
{
    match stamp {
        StampText::Nothing => Ok(Stamp::Nothing),
        StampText::Time(time) => Ok(Stamp::Time(time_of(time)?)),
        StampText::TimeMode(time, mode) => {
            let time = time_of(time)?;
            Ok(Stamp::TimeMode(time, mode_of(mode)?))
        }
    }
}

/// The bytes of hexadecimal digits.
fn decoded(alloc: Global, digits: &str) -> Result<Vec<u8>, Refusal>
    ensures { Gives (λ bytes. bytes.items) result (hex_at digits.now) }
{
    match hex::decode(alloc, digits) {
        Ok(bytes) => Ok(bytes),
        Err(FromHexError::OutOfMemory) => Err(Refusal::Memory),
        Err(_) => Err(Refusal::Why(ScriptWhy::Hex)),
    }
}

/// The bytes of a file: none where `-` stands for them.
pub(crate) fn bytes_of(alloc: Global, text: &str) -> Result<Vec<u8>, Refusal>
    ensures { Gives (λ bytes. bytes.items) result (bytes_at text.now) }
{
    if text == "-" {
        return Ok(Vec::new(alloc));
    }
    decoded(alloc, text)
}

/// What becomes of a delivery.
pub(crate) fn delivery_of(alloc: Global, text: DeliveryText) -> Result<Delivery, Refusal>
    ensures { Gives (λ delivery. delivery) result (delivery_at (delivery_in text.entry)) }
{
    match text {
        DeliveryText::Whole => Ok(Delivery::Whole),
        DeliveryText::Lost => Ok(Delivery::Lost),
        DeliveryText::Damaged(digits) => Ok(Delivery::Damaged(Bytes::new(decoded(alloc, digits)?))),
    }
}
