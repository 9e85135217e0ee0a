//! The check of sixty-four bytes at a time.
//!
//! Modulo x^16 + x^12 + x^5 + 1, x^512 is x^384 + x^160 + 1: a word of four bytes in front of
//! sixteen others is added to these in three places, four, eleven and sixteen words later. So four
//! words in a row can go at once, and no bit moves within a word. A message is folded from the
//! front into its last sixty-four bytes, which have the same check.

ghost use Rattle.std.specs.Prelude.{◌≡◌, ◌%◌, ◌*◌, ◌/◌, ◌^◌, ◌<◌, List, ℕ, ◌++◌, length, bit_xor};
ghost use Rattle.ym_check.specs.Check.{check_of};
ghost use Rattle.ym_check.specs.Fold.{row_number, row_bytes, rows_bytes};

use crate::fold::with_words;
use std::simd::prelude::*;

/// Sixteen bytes as they lie in memory: four words.
#[tactic(auto, using(crate::proofs::FourWords::row_read))]
fn row_of(bytes: &[u8]) -> u32x4
    requires { length bytes.now ≡ 16 }
    ensures { row_bytes result ≡ bytes.now }
{
    u32x4::from_le_bytes(u8x16::from_slice(bytes))
}

/// The sum of two rows without carries.
#[tactic(auto, using(crate::proofs::FourWords::row_xor))]
fn added(row: u32x4, other: u32x4) -> u32x4
    ensures { row_number result ≡ bit_xor (row_number row) (row_number other) }
{
    row ^ other
}

/// The last three words of a row, and the first word of the next one.
#[tactic(auto, using(crate::proofs::FourWords::row_across, crate::proofs::FourWords::row_fits))]
fn across(row: u32x4, next: u32x4) -> u32x4
    ensures sum { row_number result ≡
        bit_xor (row_number row / 2 ^ 32) (row_number next * 2 ^ 96 % 2 ^ 128) }
    ensures fits { row_number next < 2 ^ 128 }
{
    row.shuffle(next, [1, 2, 3, 4])
}

/// Sixty-four bytes, which have the check of all bytes so far. The last three words of the row that
/// went last are still to be added to the third row.
#[derive(Clone, Copy)]
struct Rows {
    first: u32x4,
    second: u32x4,
    third: u32x4,
    fourth: u32x4,
    gone: u32x4,
}

impl Rows {
    /// The first sixty-four bytes behind those that have this check.
    fn of_first(check: u16, bytes: &[u8]) -> Self
        requires { length bytes.now ≡ 64 }
        ensures { (before : List ℕ) → check ≡ check_of before → check_of (before ++ bytes.now) ≡
            check_of (rows_bytes result.first result.second result.third result.fourth
            result.gone) }
    {
        let entered = u32x4::from_array([u32::from(check.swap_bytes()), 0, 0, 0]);
        Rows {
            first: added(row_of(&bytes[..16]), entered),
            second: row_of(&bytes[16..32]),
            third: row_of(&bytes[32..48]),
            fourth: row_of(&bytes[48..64]),
            gone: u32x4::splat(0),
        }
    }

    /// Takes the next sixteen bytes.
    ///
    /// The first sixteen go: they are added to those behind them in three places. Eleven words are
    /// two rows and three words, so in one of these places they lie across two rows. What comes
    /// there into the second of these is added together with what the next row adds to it.
    fn with_row(self, next: u32x4) -> Self
        ensures { check_of (rows_bytes self.first self.second self.third self.fourth self.gone ++
            row_bytes next) ≡
            check_of (rows_bytes result.first result.second result.third result.fourth
            result.gone) }
    {
        let gone = self.first;
        Rows {
            first: added(self.second, gone),
            second: added(self.third, across(self.gone, gone)),
            third: self.fourth,
            fourth: added(next, gone),
            gone,
        }
    }

    /// Takes the next sixty-four bytes. After four rows each one stands where it stood.
    fn with_four(self, bytes: &[u8]) -> Self
        requires { length bytes.now ≡ 64 }
        ensures { (before : List ℕ) →
            check_of before ≡
            check_of (rows_bytes self.first self.second self.third self.fourth self.gone) →
            check_of (before ++ bytes.now) ≡
            check_of (rows_bytes result.first result.second result.third result.fourth
            result.gone) }
    {
        let mut rows = self;
        for i in 0..4 {
            rows = rows.with_row(row_of(&bytes[16 * i..16 * i + 16]));
        }
        rows
    }

    /// Takes the next bytes, sixty-four at a time.
    fn with_all(self, bytes: &[u8]) -> Self
        requires { length bytes.now % 64 ≡ 0 }
        ensures { (before : List ℕ) →
            check_of before ≡
            check_of (rows_bytes self.first self.second self.third self.fourth self.gone) →
            check_of (before ++ bytes.now) ≡
            check_of (rows_bytes result.first result.second result.third result.fourth
            result.gone) }
    {
        let mut rows = self;
        for i in 0..bytes.len() / 64 {
            rows = rows.with_four(&bytes[64 * i..64 * i + 64]);
        }
        rows
    }

    /// The check of the sixty-four bytes.
    fn check(self) -> u16
        ensures { result ≡
            check_of (rows_bytes self.first self.second self.third self.fourth self.gone) }
    {
        let third = added(self.third, across(self.gone, u32x4::splat(0)));
        let mut bytes = [0; 64];
        self.first.to_le_bytes().copy_to_slice(&mut bytes[..16]);
        self.second.to_le_bytes().copy_to_slice(&mut bytes[16..32]);
        third.to_le_bytes().copy_to_slice(&mut bytes[32..48]);
        self.fourth.to_le_bytes().copy_to_slice(&mut bytes[48..]);
        with_words(0, &bytes)
    }
}

/// The check of some bytes and of these behind them, where the check of the first ones is known.
#[inline(never)] // one of it is enough for a small board
pub(crate) fn with_chunks(check: u16, bytes: &[u8]) -> u16
    requires { length bytes.now % 64 ≡ 0 }
    ensures { (before : List ℕ) → check ≡ check_of before →
        result ≡ check_of (before ++ bytes.now) }
{
    if bytes.is_empty() {
        return check;
    }
    let (first, others) = bytes.split_at(64);
    let rows = Rows::of_first(check, first).with_all(others);
    rows.check()
}
