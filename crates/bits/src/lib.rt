// Bits of a byte, each by its weight, and the straps, which are four bits with names.
#![tactic(auto)]

ghost use Rattle.std.specs.Prelude.{◌≡◌, ◌≤◌};
ghost use Rattle.bits.specs.Bits.{has_weight, put_weight};

pub mod straps;

// Whether the bit of that weight is set; no bit has weight 0.
pub fn has(value: u8, weight: u8) -> bool
    ensures { result ≡ has_weight weight value }
{
    if weight == 0 {
        return false;
    }
    value / weight % 2 == 1
}

// What a bit of that weight adds to a byte.
pub fn put(on: bool, weight: u8) -> u8
    ensures value { result ≡ put_weight weight on }
    ensures small { result ≤ weight }
{
    if on { weight } else { 0 }
}
