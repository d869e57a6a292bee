// A line of the trace: word, refusal, reply, byte, outputs; word, byte and outputs in upper-case hex of 4, 2 and 3
// digits, the others decimal.
ghost use Rattle.std.specs.Prelude.{◌≡◌};
ghost use Rattle.lines.specs.Line.{line_of};

use dock::{Answer, Numbers};
use hexes::digit;

// The bytes of a line, with its end.
pub const LINE: usize = 16;

// Digit by digit, as `line_of` has them: a format's text is no array.
#[tactic(auto, unfolding(crate::specs::Line::line_of))]
pub fn line(word: u16, answer: Answer) -> [u8; LINE]
    ensures { result ≡ line_of word answer }
{
    let Numbers {
        refusal,
        reply,
        byte,
        outputs,
    } = Numbers::from(answer);
    let byte = byte as u16;
    [
        digit(word / 4096),
        digit(word / 256),
        digit(word / 16),
        digit(word),
        b' ',
        digit(refusal as u16),
        b' ',
        digit(reply as u16),
        b' ',
        digit(byte / 16),
        digit(byte),
        b' ',
        digit(outputs / 256),
        digit(outputs / 16),
        digit(outputs),
        b'\n',
    ]
}
