//! The words of a case.

use std::alloc::{AllocError, AllocFailed, Global};
use ym_header::HeaderFault;

/// A line is no case, or there is no memory for it.
#[derive(Clone, Copy)]
pub struct Unread;

impl From<AllocError> for Unread {
    fn from(_: AllocError) -> Unread {
        Unread
    }
}

impl<T: Drop> From<AllocFailed<T>> for Unread {
    fn from(_: AllocFailed<T>) -> Unread {
        Unread
    }
}

impl From<HeaderFault> for Unread {
    fn from(_: HeaderFault) -> Unread {
        Unread
    }
}

/// The number before this sign and what stands behind it, or no number and the whole text.
pub fn counted(text: &str, sign: char) -> (Option<usize>, &str) {
    if let Some((count, rest)) = text.split_once(sign) {
        if let Ok(count) = count.parse::<usize>() {
            return (Some(count), rest);
        }
    }
    (None, text)
}

/// Whether this word stands in a text.
pub fn has(text: &str, word: &str) -> bool {
    for it in text.split_whitespace() {
        if it == word {
            return true;
        }
    }
    false
}

/// The number behind `name:` in a text.
pub fn number(text: &str, name: &str) -> Option<u64> {
    for word in text.split_whitespace() {
        if let Some((found, number)) = word.split_once(':') {
            if found == name {
                return number.parse::<u64>().ok();
            }
        }
    }
    None
}

/// The text with a number in place of every `@`, and with the number's remainder by 251, as a byte
/// in digits, in place of every `%`.
pub fn numbered(alloc: Global, text: &str, number: usize) -> Result<String, AllocError> {
    let mut all = String::new(alloc);
    for letter in text.chars() {
        match letter {
            '@' => write!(all, "{number}")?,
            '%' => write!(all, "{:02x}", number % 251)?,
            _ => all.push(letter)?,
        }
    }
    Ok(all)
}
