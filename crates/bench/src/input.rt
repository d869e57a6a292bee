// Standard input, line by line.
use crate::{Page, Typed};
use std::io::{Read, Stdin};

// Reads a line. What has no place in it is read and let go.
pub(crate) fn read_line(mut input: Stdin, line: &mut Page) -> Typed {
    line.clear();
    let mut longer = false;
    for _ in 0..u64::MAX {
        let mut one = [0];
        if input.read_exact(&mut one).is_err() {
            break;
        }
        let [c] = one;
        if c == b'\n' {
            return Typed {
                longer,
                ended: false,
            };
        }
        longer |= line.try_push(c).is_err();
    }
    Typed {
        longer,
        ended: true,
    }
}
