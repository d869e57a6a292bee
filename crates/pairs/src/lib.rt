// Words as bytes: each is two of them, the high one first.
#![tactic(auto)]

ghost use Rattle.std.specs.Prelude.{◌≡◌};
ghost use Rattle.pairs.specs.Pairs.{wide, two_bytes};

// The number of two bytes.
pub fn wide(high: u8, low: u8) -> u16
    ensures { result ≡ wide high low }
{
    u16::from_be_bytes([high, low])
}

// The two bytes of a number.
pub fn two_bytes(number: u16) -> [u8; 2]
    ensures { result ≡ two_bytes number }
{
    number.to_be_bytes()
}
