// A wire cell that the caller holds, as the bytes of its image.
ghost use Rattle.std.specs.Prelude.{◌≡◌, length};
ghost use Rattle.link.specs.Wires.{begun, begun_in, listened_as, outcome_in, listened_in, words_in};

// Writes the image of a fresh held state: both lines high, nothing listened for.
#[unsafe(no_mangle)]
pub extern "C" fn dock_wire_begin(held: &mut [u8]) -> u32
    ensures value { result ≡ begun (length held.old) }
    ensures held_after { held.new ≡ begun_in held.old }
{
    link::wires::dock_wire_begin(held)
}

// Samples in, event words out. Answers the refusal and the number of words written.
#[unsafe(no_mangle)]
pub extern "C" fn dock_wire_listen(held: &mut [u8], samples: &[u8], words: &mut [u16]) -> u32
    ensures value { result ≡ listened_as (outcome_in held.old samples.now (length words.old)) }
    ensures held_after { held.new ≡ listened_in held.old samples.now (length words.old) }
    ensures words_after { words.new ≡ words_in held.old samples.now words.old }
{
    link::wires::dock_wire_listen(held, samples, words)
}
