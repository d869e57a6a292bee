// The straps by name (document 01, "Event words"): SMB_A1, SMB_A0, LOCK_DEF, LOCK_MODE, bit 3 to 0.
ghost use Rattle.std.specs.Prelude.{◌≡◌};
ghost use Rattle.bits.specs.Straps.{smb_a, lock_def, lock_mode};

use crate::has;

// The largest straps.
pub const MOST: u8 = 15;

// The two address straps as a number.
pub fn smb_a(straps: u8) -> u8
    ensures { result ≡ smb_a straps }
{
    straps / 4 % 4
}

#[tactic(auto, unfolding(crate::specs::Straps::lock_def))]
pub fn lock_def(straps: u8) -> bool
    ensures { result ≡ lock_def straps }
{
    has(straps, 2)
}

#[tactic(auto, unfolding(crate::specs::Straps::lock_mode))]
pub fn lock_mode(straps: u8) -> bool
    ensures { result ≡ lock_mode straps }
{
    has(straps, 1)
}
