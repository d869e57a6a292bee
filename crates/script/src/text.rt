// Texts: characters, blanks and words.
ghost use Rattle.std.specs.Prelude.{◌≡◌, ◌≤◌, length, option_copied};
ghost use Rattle.script.specs.Text.{blank, leading, trimmed, first, rest, only};

// A space, a tab or another control character, as the one that some systems put at a line's end.
#[tactic(auto, unfolding(crate::specs::Text::blank))]
fn is_blank(c: u8) -> bool
    ensures { result ≡ blank c }
{
    c <= b' '
}

// How many characters in front are all blanks, or are none.
fn count_leading(text: &[u8], blanks: bool) -> usize
    ensures value { result ≡ leading blanks text.now }
    ensures upper_bound { result ≤ length text.now }
{
    text.iter().take_while(|c| is_blank(**c) == blanks).count()
}

// The text without the blanks in front.
#[tactic(auto, unfolding(crate::specs::Text::trimmed))]
fn trim(text: &[u8]) -> &[u8]
    ensures { result.now ≡ trimmed text.now }
{
    &text[count_leading(text, true)..]
}

// Its first word.
#[tactic(auto, unfolding(crate::specs::Text::first))]
pub(crate) fn first_word(text: &[u8]) -> &[u8]
    ensures { result.now ≡ first text.now }
{
    let words = trim(text);
    &words[..count_leading(words, false)]
}

// What follows its first word.
#[tactic(auto, unfolding(crate::specs::Text::rest))]
pub(crate) fn after_first(text: &[u8]) -> &[u8]
    ensures { result.now ≡ rest text.now }
{
    let words = trim(text);
    &words[count_leading(words, false)..]
}

// Its only word, empty where it has none; nothing where it has more.
#[tactic(auto, unfolding(crate::specs::Text::only))]
pub(crate) fn only_word(text: &[u8]) -> Option<&[u8]>
    ensures { option_copied result ≡ only text.now }
{
    if trim(after_first(text)).is_empty() {
        Some(first_word(text))
    } else {
        None
    }
}
