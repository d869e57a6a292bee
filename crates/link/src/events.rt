// Events and their words.
ghost use Rattle.std.specs.Prelude.{◌≡◌, cond, Some, None};
ghost use Rattle.link.specs.Events.{pair, reset_first, numbers_of, unpacked_as, meant_by, packed_as};

use crate::answer::both;
use event::{Event, NoEvent};

// What asks for the short pulse in the first number of a RESET, beside its straps.
const SHORT_PULSE: u16 = 256;

// The first number of a RESET is below this.
const RESET_FIRSTS: u16 = 512;

// One more in bits 31-24 of an answer.
const ABOVE_REFUSAL: u32 = 0x0100_0000;

// Two numbers side by side. What the first has above a byte stands above the refusal, so that a program that knows of
// bytes only takes the answer for a refusal.
fn pair(first: u16, second: u8) -> u32
    ensures { result ≡ pair first second }
{
    (first / 256) as u32 * ABOVE_REFUSAL + (first % 256) as u32 * 256 + second as u32
}

// The first number of a RESET.
fn reset_first(straps: u8, short_pulse: bool) -> u16
    ensures { result ≡ reset_first straps short_pulse }
{
    if short_pulse {
        SHORT_PULSE + straps as u16
    } else {
        straps as u16
    }
}

// The two numbers of an event beside its kind.
#[tactic(auto, using(image::proofs::Bytes::cast_flag), unfolding(crate::specs::Events::numbers_of))]
fn numbers(event: Event) -> u32
    ensures { result ≡ numbers_of event }
{
    match event {
        Event::Start => pair(0, 0),
        Event::Stop => pair(0, 0),
        Event::Byte(b) => pair(b as u16, 0),
        Event::Take(ack) => pair(ack as u16, 0),
        Event::Pins(levels) => pair(levels as u16, 0),
        Event::Tick => pair(0, 0),
        Event::Reset {
            straps,
            levels,
            short_pulse,
        } => pair(reset_first(straps, short_pulse), levels),
        Event::Timeout => pair(0, 0),
    }
}

// The refusal and the two numbers of a word's event, whose kind is bits 15-13 of the word.
#[tactic(auto, unfolding(crate::specs::Events::unpacked_as))]
pub fn dock_unpack(word: u16) -> u32
    ensures { result ≡ unpacked_as word }
{
    match event::unpack(word) {
        Ok(event) => numbers(event),
        Err(refusal) => both(refusal.number(), 0),
    }
}

// An event where the numbers beside its kind are its own.
fn given(proper: bool, event: Event) -> Option<Event>
    ensures { result ≡ cond proper (Some event) None }
{
    proper.then_some(event)
}

// The event of a kind and its two numbers.
#[tactic(auto, using(event::proofs::Rows::by_kind), unfolding(crate::specs::Events::meant_by))]
fn event_by(kind: u8, first: u16, second: u8) -> Option<Event>
    ensures { result ≡ meant_by kind first second }
{
    let one = second == 0;
    let bare = (first == 0) & one;
    let byte = first <= 255;
    let low = (first % 256) as u8;
    match kind {
        0 => given(bare, Event::Start),
        1 => given(bare, Event::Stop),
        2 => given(byte & one, Event::Byte(low)),
        3 => given((first <= 1) & one, Event::Take(first == 1)),
        4 => given(byte & one, Event::Pins(low)),
        5 => given(bare, Event::Tick),
        6 => given(
            first < RESET_FIRSTS,
            Event::Reset {
                straps: low,
                levels: second,
                short_pulse: !byte,
            },
        ),
        7 => given(bare, Event::Timeout),
        _ => None,
    }
}

// The refusal and the word of three numbers. Where they are no event's they are refused as a word is that has none.
#[tactic(auto, unfolding(crate::specs::Events::packed_as))]
pub fn dock_pack(kind: u8, first: u16, second: u8) -> u32
    ensures { result ≡ packed_as kind first second }
{
    let Some(event) = event_by(kind, first, second) else {
        return both(NoEvent.number(), 0);
    };
    match event::pack(event) {
        Ok(word) => both(0, word),
        Err(refusal) => both(refusal.number(), 0),
    }
}
