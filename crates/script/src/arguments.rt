// What a person types after a verb: bytes and words in hex, counts in decimal.
ghost use Rattle.std.specs.Prelude.{◌≡◌, ◌<◌, IfSome, unwrap_or};
ghost use Rattle.script.specs.Arguments.{digit_of, octet_of, word_of, pair_of, count_on, count_of, ticks_of, small_of, further_of, follows_at, all_further};

// The value of a hex digit, in either case.
#[tactic(auto, unfolding(crate::specs::Arguments::digit_of))]
pub fn digit(c: u8) -> Option<u8>
    ensures value { result ≡ digit_of c }
    ensures upper_bound { IfSome result (λ d. d < 16) }
{
    match c {
        b'0'..=b'9' => Some(c - b'0'),
        b'A'..=b'F' => Some(c - b'A' + 10),
        b'a'..=b'f' => Some(c - b'a' + 10),
        _ => None,
    }
}

// Two hex digits.
#[tactic(auto, unfolding(crate::specs::Arguments::octet_of))]
pub(crate) fn octet(text: &[u8]) -> Option<u8>
    ensures { result ≡ octet_of text.now }
{
    let [high, low] = text else {
        return None;
    };
    Some(digit(*high)? * 16 + digit(*low)?)
}

// Four hex digits.
#[tactic(auto, unfolding(crate::specs::Arguments::word_of))]
pub fn word(text: &[u8]) -> Option<u16>
    ensures { result ≡ word_of text.now }
{
    if text.len() != 4 {
        return None;
    }
    Some(u16::from(octet(&text[..2])?) * 256 + u16::from(octet(&text[2..])?))
}

// Two bytes with a sign between them.
#[tactic(auto, unfolding(crate::specs::Arguments::pair_of))]
pub(crate) fn pair(sign: u8, text: &[u8]) -> Option<(u8, u8)>
    ensures { result ≡ pair_of sign text.now }
{
    if text.len() != 5 || text[2] != sign {
        return None;
    }
    Some((octet(&text[..2])?, octet(&text[3..])?))
}

// A decimal digit more, where that is 65,535 at most.
fn counted(n: u16, c: u8) -> Option<u16>
    ensures { result ≡ count_on n (digit_of c) }
{
    let d = digit(c).filter(|d| *d <= 9)?;
    n.checked_mul(10)?.checked_add(u16::from(d))
}

// Decimal digits, 65,535 at most.
#[tactic(auto, using(crate::proofs::Counts::counts_stop, crate::proofs::Counts::counts_on, crate::proofs::Counts::counts_end), unfolding(crate::specs::Arguments::count_of))]
fn count(text: &[u8]) -> Option<u16>
    ensures { result ≡ count_of text.now }
{
    let mut n = 0;
    for c in text {
        n = counted(n, *c)?;
    }
    Some(n)
}

// A count, or nothing for 1.
#[tactic(auto, unfolding(crate::specs::Arguments::ticks_of))]
pub(crate) fn ticks(text: &[u8]) -> Option<u16>
    ensures { result ≡ ticks_of text.now }
{
    if text.is_empty() {
        return Some(1);
    }
    count(text)
}

// A count that is a byte.
#[tactic(auto, unfolding(crate::specs::Arguments::small_of))]
pub(crate) fn small(text: &[u8]) -> Option<u8>
    ensures { result ≡ small_of text.now }
{
    if text.is_empty() {
        return None;
    }
    u8::try_from(count(text)?).ok()
}

// Value n of those that follow the first of a write: two hex digits after a comma.
#[tactic(auto, using(crate::proofs::Further::no_further), unfolding(crate::specs::Arguments::further_of))]
fn further(text: &[u8], n: u8) -> Option<u8>
    ensures { result ≡ further_of text.now n }
{
    let at = 3 * usize::from(n) + 6;
    octet(text.get(at..at + 2)?)
}

// The comma and the value are there.
#[tactic(auto, using(crate::proofs::Further::none_follows), unfolding(crate::specs::Arguments::follows_at))]
fn follows(text: &[u8], n: u8) -> bool
    ensures { result ≡ follows_at text.now n }
{
    let at = 3 * usize::from(n) + 5;
    text.get(at).copied() == Some(b',') && further(text, n).is_some()
}

// So many values follow.
#[tactic(auto, unfolding(crate::specs::Arguments::all_further))]
pub(crate) fn all_further(text: &[u8], more: u8) -> bool
    ensures { result ≡ all_further text.now more }
{
    (0..more).all(|n| follows(text, n))
}

// Value n of those that follow the first of a write, 0 where there is none.
pub fn further_value(text: &[u8], n: u8) -> u8
    ensures { result ≡ unwrap_or (further_of text.now n) 0 }
{
    further(text, n).unwrap_or(0)
}
