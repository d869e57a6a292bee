// What a read has answered. A failed one is not the end of the input.
ghost use Rattle.std.specs.Prelude.{◌≡◌, length};
ghost use Rattle.lines.specs.Reads.{came_of};

use std::io;

// Why a program went no further.
#[derive(Clone, Copy)]
pub enum Stopped {
    // The input could not be read.
    Unread,
    // Nobody takes the text.
    Unwritten,
    // More was read than is counted.
    Uncounted,
}

// So many bytes, at the start of the buffer; none at the end of the input.
#[tactic(auto, unfolding(crate::specs::Reads::came_of))]
pub fn answered(got: io::Result<usize>, buffer: &[u8]) -> Result<Option<usize>, Stopped>
    ensures { result ≡ came_of got (length buffer.now) }
{
    match got {
        Ok(0) => Ok(None),
        Ok(count) => Ok(Some(count.min(buffer.len()))),
        Err(_) => Err(Stopped::Unread),
    }
}
