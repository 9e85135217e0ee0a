//! The words of a line.

ghost use Rattle.std.specs.Prelude.{◌≡◌, ◌∷◌, MatchOption, MatchBool, true, false};
ghost use Rattle.ym_play.specs.Words.{words_of, has_empty_word, has_space, before_space, behind_space, HasOneWord, HasMoreWords};

/// Whether one of the line's words is empty: a space stands at an end of the line or behind another
/// space, or the line is empty.
pub(crate) fn has_empty_word(line: &str) -> bool
    ensures { result ≡ has_empty_word line.now }
{
    line.split(' ').any(|word| word.is_empty())
}

fn split_space(text: &str) -> Option<(&str, &str)>
    ensures { MatchOption result (has_space text.now ≡ false)
        (λ parts.
        (has_space text.now ≡ true) × (parts.0.now ≡ before_space text.now) ×
        (parts.1.now ≡ behind_space text.now)) }
{
    text.split_once(' ')
}

/// The first word, and the text of the words behind it; none where the text is one word.
pub(crate) fn split_word(text: &str) -> Option<(&str, &str)>
    ensures { MatchOption result (HasOneWord text.now)
        (λ parts.
        (words_of text.now ≡ parts.0.now ∷ words_of parts.1.now) × HasMoreWords text.now) }
{
    split_space(text)
}

/// Whether the text is one word.
pub(crate) fn is_word(text: &str) -> bool
    ensures { MatchBool result (HasOneWord text.now) (HasMoreWords text.now) }
{
    split_word(text).is_none()
}
