//! Names that a disk may take for one.

ghost use Rattle.std.specs.Prelude.{◌≡◌};
ghost use Rattle.std.specs.List.{list_all};
ghost use Rattle.std.specs.Char.{is_ascii};
ghost use Rattle.ym_folder.specs.OneName.{plain, is_but_for_case, ends_in_part, may_be_one};

/// Whether a name is that of a part, but for characters that are not ASCII, for upper and lower
/// case, and for dots and spaces behind it.
fn is_alike(name: &[u8], part: &[u8]) -> bool
    ensures { result ≡ is_but_for_case (plain name.now) (plain part.now) }
{
    match (name, part) {
        ([byte, rest @ ..], _) if !byte.is_ascii() => is_alike(rest, part),
        (_, [byte, more @ ..]) if !byte.is_ascii() => is_alike(name, more),
        ([byte, rest @ ..], [other, more @ ..]) => {
            byte.eq_ignore_ascii_case(other) && is_alike(rest, more)
        }
        ([byte, rest @ ..], []) => matches!(byte, b'.' | b' ') && is_alike(rest, part),
        ([], _) => part.is_empty(),
    }
}

/// Whether a name ends in `.part`, but for the same.
fn ends_in_part(name: &[u8]) -> bool
    ensures { result ≡ ends_in_part (plain name.now) }
{
    match name {
        [] => false,
        [byte, rest @ ..] => (byte.is_ascii() && is_alike(name, b".part")) || ends_in_part(rest),
    }
}

/// Whether each character of a name is ASCII.
fn is_all_ascii(name: &[u8]) -> bool
    ensures { result ≡ list_all is_ascii name.now }
{
    name.iter().all(|byte| byte.is_ascii())
}

/// Whether a disk that does not tell upper from lower case may have the file of this name under
/// that of a part.
pub(crate) fn may_be_one(name: &str, part: &str) -> bool
    ensures { result ≡ may_be_one name.now part.now }
{
    let (name, part) = (name.as_bytes(), part.as_bytes());
    is_alike(name, part)
        || ((!is_all_ascii(name) || !is_all_ascii(part))
            && ends_in_part(name)
            && ends_in_part(part))
}
