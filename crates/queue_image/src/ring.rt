// Words as bytes, two each, the high one first.
ghost use Rattle.std.specs.Prelude.{◌≡◌, ◌*◌, length};
ghost use Rattle.pairs.specs.Pairs.{words_in, bytes_of};

use pairs::{two_bytes, wide};

pub(crate) fn write(words: &[u16], bytes: &mut [u8])
    requires { length bytes.old ≡ length words.now * 2 }
    ensures { bytes.new ≡ bytes_of words.now }
{
    let mut at = 0;
    for word in words {
        let [high, low] = two_bytes(*word);
        bytes[at] = high;
        bytes[at + 1] = low;
        at += 2;
    }
}

pub(crate) fn read(bytes: &[u8], words: &mut [u16])
    requires { length bytes.now ≡ length words.old * 2 }
    ensures { words.new ≡ words_in bytes.now }
{
    for (i, word) in words.iter_mut().enumerate() {
        *word = wide(bytes[2 * i], bytes[2 * i + 1]);
    }
}
