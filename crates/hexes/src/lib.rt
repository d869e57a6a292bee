// Numbers as texts: upper-case hex, as the trace and the bench write it.
#![tactic(auto)]

ghost use Rattle.std.specs.Prelude.{◌≡◌};
ghost use Rattle.hexes.specs.Digit.{digit_for};

// The character of the lowest hex digit of a number.
#[tactic(auto, unfolding(crate::specs::Digit::digit_for))]
pub fn digit(n: u16) -> u8
    ensures { result ≡ digit_for n }
{
    let d = (n % 16) as u8;
    if d < 10 { b'0' + d } else { b'A' - 10 + d }
}
