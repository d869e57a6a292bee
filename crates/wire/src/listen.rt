// The call over a lent list of samples.
ghost use Rattle.std.specs.Prelude.{◌≡◌, length, ◌≤◌};
ghost use Rattle.wire.specs.Hear.{after, words_of};
ghost use Rattle.wire.specs.Listen.{written, listen_of, places_after};

use crate::{Listened, Wire};
use calls::Refusal;
use event::packed_word;

// The most samples in one call.
pub const MOST_SAMPLES: usize = 16384;

// The samples one after the other, and the words that they give at the start of the places.
fn run(wire: Wire, samples: &[u8], words: &mut [u16]) -> Listened
    requires { length samples.now ≤ length words.old }
    ensures value { result ≡ record { wire = after wire samples.now; outcome = Ok (length (words_of wire samples.now)) } }
    ensures words_after { words.new ≡ written (words_of wire samples.now) words.old }
{
    let mut state = wire;
    let mut count = 0;
    for sample in samples {
        let heard = state.hear(*sample);
        if let Some(event) = heard.given {
            words[count] = packed_word(event);
            count += 1;
        }
        state = heard.wire;
    }
    Listened {
        wire: state,
        outcome: Ok(count),
    }
}

// The call. Refusals 1, 5 and 4, in that order, leave the held state as given and write nothing.
#[tactic(auto, unfolding(crate::specs::Listen::outcome_of, crate::specs::Listen::listen_of, crate::specs::Listen::places_after))]
pub fn listen(wire: Wire, samples: &[u8], words: &mut [u16]) -> Listened
    ensures value { result ≡ listen_of wire samples.now (length words.old) }
    ensures words_after { words.new ≡ places_after wire samples.now words.old }
{
    if !wire.fit() {
        return Listened {
            wire,
            outcome: Err(Refusal::Unfit),
        };
    }
    if MOST_SAMPLES < samples.len() {
        return Listened {
            wire,
            outcome: Err(Refusal::TooMany),
        };
    }
    if words.len() < samples.len() {
        return Listened {
            wire,
            outcome: Err(Refusal::TooFewPlaces),
        };
    }
    run(wire, samples, words)
}
