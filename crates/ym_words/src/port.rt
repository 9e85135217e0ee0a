//! The number of a port, as a word tells it.

ghost use Rattle.std.specs.Prelude.{◌≡◌};
ghost use Rattle.std.specs.Str.{all_ascii_digits};
ghost use Rattle.ym_words.specs.PortNumber.{IsPort};

fn is_digits(text: &str) -> bool
    ensures { result ≡ all_ascii_digits text.now }
{
    for byte in text.as_bytes() {
        if !byte.is_ascii_digit() {
            return false;
        }
    }
    true
}

/// The number of a port, from 1 to 65535, that decimal digits alone write.
pub fn port_number(text: &str) -> Option<u16>
    ensures { IsPort text.now result }
{
    if !is_digits(text) {
        return None;
    }
    match text.parse::<u16>() {
        Ok(port) => {
            if port == 0 {
                return None;
            }
            Some(port)
        }
        Err(_) => None,
    }
}
