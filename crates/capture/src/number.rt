// A number as decimal digits.
ghost use Rattle.std.specs.Prelude.{◌+◌, ◌≤◌, ◌≡◌, ◌++◌, length};
ghost use Rattle.lines.specs.Text.{PAGE};
ghost use Rattle.capture.specs.Number.{decimal_of};

use itoa::Buffer;
use lines::text::{Page, put};

// The digits, without leading zeros.
#[tactic(auto, using(crate::proofs::Digits::same_decimal))]
pub(crate) fn decimal(n: u64, page: &mut Page)
    requires { length page.old.items + length (decimal_of n) ≤ PAGE }
    ensures { page.new.items ≡ page.old.items ++ decimal_of n }
{
    let mut buffer = Buffer::new();
    put(buffer.format(n).as_bytes(), page);
}
