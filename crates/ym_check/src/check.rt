//! The 16-bit check of a body, as its bytes come.
//!
//! C. Forsberg, XMODEM/YMODEM Protocol Reference (1988), "CRC Calculation". The check is defined by
//! long division over bits. The code takes sixty-four bytes at a time, as `rows` says, then
//! sixteen, as `fold` says, and what is left byte by byte.

ghost use Rattle.std.specs.Prelude.{◌≡◌, List, ℕ, [], ◌∷◌, ◌++◌};
ghost use Rattle.ym_check.specs.Check.{check_of};

use crate::fold::{check_of_16, with_words};
use crate::rows::with_chunks;
use std::marker::Model;

/// The check of the bytes so far. Contracts see it as that number.
#[derive(Drop)]
pub struct CheckState {
    value: u16,
}

impl Model for CheckState {
    ghost Value = { ℕ };

    ghost view = { λ state. state.value };
}

impl CheckState {
    /// The state before any byte.
    #[tactic(auto, unfolding(crate::specs::Check::check_of))]
    pub fn new() -> Self
        ensures { result ≡ check_of [] }
    {
        CheckState { value: 0 }
    }

    /// Takes the next byte: the check of any bytes becomes that of these and the byte.
    pub fn add(&mut self, byte: u8)
        ensures { (bytes : List ℕ) → self.old ≡ check_of bytes →
            self.new ≡ check_of (bytes ++ byte ∷ []) }
    {
        let first = (self.value >> 8) as u8 ^ byte;
        self.value = (self.value << 8) ^ check_of_16(u16::from(first));
    }

    /// Takes the next bytes one by one.
    fn add_each(&mut self, more: &[u8])
        ensures { (bytes : List ℕ) → self.old ≡ check_of bytes →
            self.new ≡ check_of (bytes ++ more.now) }
    {
        for byte in more {
            self.add(*byte);
        }
    }

    /// Takes the next bytes, sixteen at a time and then one by one.
    #[inline(never)] // a block has none
    fn add_rest(&mut self, rest: &[u8])
        ensures { (bytes : List ℕ) → self.old ≡ check_of bytes →
            self.new ≡ check_of (bytes ++ rest.now) }
    {
        let (words, last) = rest.split_at(rest.len() / 16 * 16);
        self.value = with_words(self.value, words);
        self.add_each(last);
    }

    /// Takes the next bytes, in order.
    pub fn add_all(&mut self, more: &[u8])
        ensures { (bytes : List ℕ) → self.old ≡ check_of bytes →
            self.new ≡ check_of (bytes ++ more.now) }
    {
        let (chunks, rest) = more.split_at(more.len() / 64 * 64);
        self.value = with_chunks(self.value, chunks);
        if rest.is_empty() {
            return;
        }
        self.add_rest(rest);
    }

    /// The check of the bytes that were taken.
    pub fn value(&self) -> u16
        ensures { result ≡ self.now }
    {
        self.value // sent high byte first
    }
}

/// The check of these bytes.
pub fn check16(bytes: &[u8]) -> u16
    ensures { result ≡ check_of bytes.now }
{
    let mut state = CheckState::new();
    state.add_all(bytes);
    state.value()
}
