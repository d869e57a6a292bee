// The levels at a dock's inputs, as they were last given to it.
ghost use Rattle.std.specs.Prelude.{◌≤◌, ◌≡◌};
ghost use Rattle.event.specs.Words.{unpacked};
ghost use Rattle.bench.specs.Levels.{pulled, raised, given_by, levels_after, bay_levels, levels_in};

use crate::docks::{AT_REST, place_at, with_place};
use bay::Bay;
use chassis::{Answer, MOST};
use dock::Controller;
use event::Event;

// Inputs, each by its weight, go to 0; the others stay.
#[tactic(auto, unfolding(crate::specs::Levels::pulled))]
pub(crate) fn pulled(levels: u8, inputs: u8) -> u8
    ensures { result ≡ pulled levels inputs }
{
    levels & (0xFF - inputs)
}

// They go to 1.
#[tactic(auto, unfolding(crate::specs::Levels::raised))]
pub(crate) fn raised(levels: u8, inputs: u8) -> u8
    ensures { result ≡ raised levels inputs }
{
    levels | inputs
}

// A PINS and a RESET give levels.
#[tactic(auto, unfolding(crate::specs::Levels::given_by))]
fn given_by(event: Event, levels: u8) -> u8
    ensures { result ≡ given_by event levels }
{
    match event {
        Event::Pins(given) | Event::Reset { levels: given, .. } => given,
        _ => levels,
    }
}

// The levels of all docks after a word, by the answer to it, with the number beside it: a word that is refused gives none.
#[tactic(auto, unfolding(crate::specs::Levels::levels_after, crate::specs::Docks::levels_at, crate::specs::Docks::with_levels))]
pub(crate) fn levels_after(answer: Answer, word: u16, dock: u8, levels: [u8; MOST]) -> [u8; MOST]
    ensures { result ≡ levels_after answer (unpacked word) dock levels }
{
    let Ok(_) = answer else {
        return levels;
    };
    let Ok(event) = event::unpack(word) else {
        return levels;
    };
    let given = given_by(event, place_at(levels, dock, AT_REST));
    with_place(levels, dock, given)
}

// The levels that a bay has stored, in its four bits.
#[tactic(auto, unfolding(crate::specs::Levels::bay_levels))]
fn bay_levels(bay: Bay) -> u8
    ensures value { result ≡ bay_levels bay }
    ensures upper_bound { result ≤ 15 }
{
    bits::put(bay.levels[Bay::N1394], 8)
        + bits::put(bay.levels[Bay::NUSB], 4)
        + bits::put(bay.levels[Bay::NREMREQ], 2)
        + bits::put(bay.n_sl, 1)
}

// The levels that a dock has stored: those of its last samples.
#[tactic(auto, unfolding(crate::specs::Levels::levels_in))]
pub(crate) fn levels_in(controller: Controller) -> u8
    ensures { result ≡ levels_in controller.machine }
{
    let [bay_0, bay_1] = controller.machine.bays;
    bay_levels(bay_0) * 16 + bay_levels(bay_1)
}
