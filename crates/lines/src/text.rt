// A text that grows in fixed memory.
ghost use Rattle.std.specs.Prelude.{◌≡◌, ◌+◌, ◌≤◌, ◌++◌, length};
ghost use Rattle.lines.specs.Text.{PAGE, written};

use arrayvec::ArrayVec;

// What a program writes at once: the text of what one read gave, or of the start. One size for all programs, since the check
// states no method of a trait that has a const parameter.
pub const PAGE: usize = 75776;

pub type Page = ArrayVec<u8, PAGE>;

// Puts a text behind what stands there.
pub fn put(text: &[u8], page: &mut Page)
    requires { length page.old.items + length text.now ≤ PAGE }
    ensures { page.new.items ≡ page.old.items ++ text.now }
{
    page.try_extend_from_slice(text).unwrap();
}

// Copies a text to the start of a buffer of any size, and answers how many bytes it has.
#[tactic(auto, unfolding(crate::specs::Text::written))]
pub fn copy(text: &[u8], output: &mut [u8]) -> usize
    requires { length text.now ≤ length output.old }
    ensures value { result ≡ length text.now }
    ensures output_after { output.new ≡ written text.now output.old }
{
    let end = text.len();
    output[..end].copy_from_slice(text);
    end
}
