// The wire cell: a held state that the caller holds, as the bytes of its image.
ghost use Rattle.std.specs.Prelude.{◌≡◌, length};
ghost use Rattle.link.specs.Wires.{begun, begun_in, listened_as, outcome_in, listened_in, words_in};

use crate::answer::{both, counted};
use crate::images::put;
use calls::{Outcome, Refusal};
use wire::image::{load, save};
use wire::listen::listen;
use wire::{Listened, Wire};

// Writes the image of a fresh held state: both lines high, nothing listened for.
#[tactic(auto, unfolding(crate::specs::Wires::begun, crate::specs::Wires::begun_in))]
pub fn dock_wire_begin(held: &mut [u8]) -> u32
    ensures value { result ≡ begun (length held.old) }
    ensures held_after { held.new ≡ begun_in held.old }
{
    if held.len() != wire::image::BYTES {
        return counted(Err(Refusal::Unfit));
    }
    put(save(Wire::fresh()), held);
    both(0, 0)
}

// Hears samples from the held state of an image; refused, every byte and every place stays.
fn hear(held: &mut [u8], samples: &[u8], words: &mut [u16]) -> Outcome
    ensures value { result ≡ outcome_in held.old samples.now (length words.old) }
    ensures held_after { held.new ≡ listened_in held.old samples.now (length words.old) }
    ensures words_after { words.new ≡ words_in held.old samples.now words.old }
{
    let wire = load(&*held).ok_or(Refusal::Unfit)?;
    let Listened { wire, outcome } = listen(wire, samples, words);
    let count = outcome?;
    put(save(wire), held);
    Ok(count)
}

// Samples in, event words out. Answers the refusal and the number of words written.
#[tactic(auto, using(crate::proofs::Wired::heard_most))]
pub fn dock_wire_listen(held: &mut [u8], samples: &[u8], words: &mut [u16]) -> u32
    ensures value { result ≡ listened_as (outcome_in held.old samples.now (length words.old)) }
    ensures held_after { held.new ≡ listened_in held.old samples.now (length words.old) }
    ensures words_after { words.new ≡ words_in held.old samples.now words.old }
{
    counted(hear(held, samples, words))
}
