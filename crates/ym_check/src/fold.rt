//! The check of sixteen bytes at a time.
//!
//! Modulo x^16 + x^12 + x^5 + 1, x^128 is x^96 + x^40 + 1: sixteen bytes are folded into the
//! sixteen behind them, which then have the check of them all. So a message is folded from the
//! front into its last sixteen bytes, and these are divided at once.

ghost use Rattle.std.specs.Prelude.{◌≡◌, ◌%◌, List, ℕ, ◌++◌, length, replicate, false};
ghost use Rattle.ym_check.specs.Check.{bits, body_bits, remainder, check_of};
ghost use Rattle.ym_check.specs.Fold.{sixteen};

/// The check of two bytes.
#[tactic(auto, using(crate::proofs::Folding::fold_16))]
pub(crate) fn check_of_16(word: u16) -> u16
    ensures { bits 16 result ≡ remainder (bits 16 word) }
{
    let first = word ^ (word >> 4);
    let above = first ^ (first >> 8) ^ (word >> 11);
    above ^ (above << 5) ^ (above << 12)
}

/// The check of sixteen bytes, the first one highest.
///
/// The quotient of long division is the word divided by 1 + y^4 + y^11 + y^16, where y moves a bit
/// one place down. The thirty-second power of that is 1 + y^128 + .., so 1 for this word: it is
/// multiplied by the sixteenth, eighth, fourth, second and first power instead. Of the quotient the
/// last sixteen bits count, so the fourth power's last sixty-four.
#[tactic(auto, using(crate::proofs::Folding::quotient_128))]
fn check_of_128(word: u128) -> u16
    ensures { bits 16 result ≡ remainder (bits 128 word) }
{
    let sixteenth = word ^ (word >> 64);
    let eighth = sixteenth ^ (sixteenth >> 32) ^ (sixteenth >> 88);
    let fourth = eighth ^ (eighth >> 16) ^ (eighth >> 44) ^ (eighth >> 64);
    let last = (fourth % 0x1_0000_0000_0000_0000) as u64;
    let second = last ^ (last >> 8) ^ (last >> 22) ^ (last >> 32);
    let quotient = second ^ (second >> 4) ^ (second >> 11) ^ (second >> 16);
    ((quotient ^ (quotient << 5) ^ (quotient << 12)) % 0x1_0000) as u16
}

/// Sixteen bytes as they lie in memory.
fn word_of(bytes: &[u8]) -> u128
    requires { length bytes.now ≡ 16 }
    ensures { sixteen result ≡ bytes.now }
{
    let mut block = [0; 16];
    block.copy_from_slice(bytes);
    u128::from_le_bytes(block)
}

/// Sixteen bytes folded down as they lie in memory: with as many zeros behind them they have the
/// check of the sixteen bytes of the result. What lies lower stands further in front.
#[tactic(auto, using(crate::proofs::Words::fold_128))]
fn folded(word: u128) -> u128
    ensures { remainder (body_bits (sixteen word) ++ replicate 128 false) ≡
        remainder (body_bits (sixteen result)) }
{
    let first = word ^ (word << 32);
    let above = first ^ (first << 64) ^ (word << 88);
    above ^ (above >> 40) ^ (above >> 96)
}

/// A word and the next one folded into one, which has the check of both.
#[tactic(auto, using(crate::proofs::Words::folded_on))]
fn next_word(word: u128, next: u128) -> u128
    ensures { check_of (sixteen word ++ sixteen next) ≡ check_of (sixteen result) }
{
    folded(word) ^ next
}

/// The check of sixteen bytes as they lie in memory.
#[tactic(auto, using(crate::proofs::Words::turned))]
fn check_of_word(word: u128) -> u16
    ensures { result ≡ check_of (sixteen word) }
{
    check_of_128(word.swap_bytes())
}

/// The check of some bytes and of these behind them, sixteen bytes at a time, where the check of
/// the first ones is known.
#[inline(never)] // one of it is enough for a small board
pub(crate) fn with_words(check: u16, bytes: &[u8]) -> u16
    requires { length bytes.now % 16 ≡ 0 }
    ensures { (before : List ℕ) → check ≡ check_of before →
        result ≡ check_of (before ++ bytes.now) }
{
    let count = bytes.len() / 16;
    if count == 0 {
        return check;
    }
    let mut word = word_of(&bytes[..16]) ^ u128::from(check.swap_bytes()); // high byte first
    for i in 1..count {
        word = next_word(word, word_of(&bytes[16 * i..16 * i + 16]));
    }
    check_of_word(word)
}
