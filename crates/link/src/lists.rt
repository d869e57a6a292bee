// A list of states that the caller holds, as the bytes of their images, one after the other.
ghost use Rattle.std.specs.Prelude.{◌≡◌, true, ◌*◌, ◌+◌, ◌≤◌, ◌<◌, ◌^◌, length, take, drop};
ghost use Rattle.chassis.specs.Judge.{MOST};
ghost use Rattle.image.specs.Layout.{BYTES};
ghost use Rattle.chassis.specs.Passing.{passed_of};
ghost use Rattle.image.specs.Load.{is_image, state_in, state_of};
ghost use Rattle.image.specs.Save.{saved};
ghost use Rattle.link.specs.Lists.{parts_of, all_images, count_in, seen_in, round_in, passed_in, refused_with, told_in, list_in, output_sets, chassis_as};

use crate::answer::value;
use crate::held::{dock_outputs, dock_step};
use batch::answer_in;
use bus::Reply;
use chassis::{Errand, MOST, Refusal, Round, Seen, Told};
use dock::{Controller, outputs_of, reply_in};
use image::load::state_of;

// The bytes of more images than one.
const TWO: usize = 2 * image::BYTES;

const THREE: usize = 3 * image::BYTES;

const FOUR: usize = 4 * image::BYTES;

// How many images so many bytes are, where they are those of one to four. They are compared and not divided: a small processor would need a
// function for a division of 64 bits, and the library links alone.
#[tactic(auto, using(crate::proofs::RanList::none_of_four))]
fn images_in(bytes: usize) -> Option<usize>
    ensures { result ≡ count_in bytes }
{
    if bytes == image::BYTES {
        return Some(1);
    }
    if bytes == TWO {
        return Some(2);
    }
    if bytes == THREE {
        return Some(3);
    }
    if bytes == FOUR {
        return Some(4);
    }
    None
}

// The part at a place.
fn state_at(states: &[u8], place: usize) -> Option<Controller>
    requires place_bound { place ≤ 3 }
    requires place_in_bounds { (place + 1) * BYTES ≤ length states.now }
    ensures { result ≡ state_of (take BYTES (drop (place * BYTES) states.now)) }
{
    let start = place * image::BYTES;
    let end = start + image::BYTES;
    state_of(&states[start..end])
}

// The parts as they stand on the bus, where each is an image. By index: an iterator over parts answers a reference in an Option, which has another layout
// on a processor of 32 bits than the library's module says.
fn look(states: &[u8], count: usize) -> Option<Seen>
    requires count_bound { count ≤ MOST }
    requires states_len { length states.now ≡ count * BYTES }
    ensures { result ≡ seen_in states.now count }
{
    let mut seen = Seen::begun();
    for i in 0..count {
        seen = seen.with(state_at(states, i)?);
    }
    Some(seen)
}

// An image is passed: where the event reaches it, by the call on one state, whose record tells what it says on the bus.
#[tactic(auto, using(dock::proofs::Shown::shown_after, crate::proofs::Passed::step_tells, crate::proofs::Passed::step_leaves, crate::proofs::Passed::left_alone, crate::proofs::Passed::outputs_told), unfolding(chassis::specs::Passing::passed_of, chassis::specs::Passing::passed_by))]
fn pass_part(part: &mut [u8], round: Round, errand: Errand) -> Round
    requires { is_image part.old ≡ true }
    ensures value { result ≡ (passed_of errand round (state_in part.old)).round }
    ensures part_after { part.new ≡ saved (passed_of errand round (state_in part.old)).controller }
{
    if errand.reaches(round.place) {
        let answer = answer_in(dock_step(part, errand.word));
        return round.gathered(reply_in(answer), outputs_of(answer));
    }
    round.gathered(Reply::Nothing, value(dock_outputs(&*part)))
}

// The parts are passed one after the other, in their place: no list of states is copied.
fn pass(states: &mut [u8], places: usize, errand: Errand) -> Round
    requires places_bound { places ≤ MOST }
    requires places_in_bounds { places * BYTES ≤ length states.old }
    requires states_value { all_images (parts_of places states.old) ≡ true }
    ensures value { result ≡ round_in states.old places errand }
    ensures states_after { states.new ≡ passed_in states.old places errand }
{
    let mut round = errand.set_out();
    for i in 0..places {
        let start = i * image::BYTES;
        let end = start + image::BYTES;
        round = pass_part(&mut states[start..end], round, errand);
    }
    round
}

fn refused(refusal: Refusal) -> Told
    ensures { result ≡ refused_with refusal }
{
    Told {
        answer: Err(refusal),
        outputs: [0; MOST],
    }
}

// Takes one event for the states held. A refused call writes nothing.
#[tactic(auto, using(chassis::proofs::Loops::places_within))]
fn run(states: &mut [u8], named: usize, word: u16) -> Told
    ensures value { result ≡ told_in states.old named word }
    ensures states_after { states.new ≡ list_in states.old named word }
{
    let Some(count) = images_in(states.len()) else {
        return refused(Refusal::WrongLength);
    };
    let Some(seen) = look(&*states, count) else {
        return refused(Refusal::Unfit);
    };
    let errand = seen.errand(count, named, word);
    let round = pass(states, errand.places(count), errand);
    errand.told(round)
}

// Four sets of outputs side by side.
fn output_sets(first: u16, second: u16, third: u16, fourth: u16) -> u64
    ensures value { result ≡ output_sets first second third fourth }
    ensures bounded { result < 2 ^ 53 }
{
    first as u64 * 0x10_0000_0000
        + second as u64 * 0x100_0000
        + third as u64 * 0x1000
        + fourth as u64
}

// An answer as 64 bits.
#[tactic(auto, using(crate::proofs::SixtyFour::answer_small), unfolding(crate::specs::Lists::chassis_as))]
fn number(told: Told) -> u64
    ensures { result ≡ chassis_as told }
{
    let head = match told.answer {
        Ok(reply) => reply.number() as u64 * 256 + reply.byte() as u64,
        Err(refusal) => refusal.number() as u64 * 2048,
    };
    let [first, second, third, fourth] = told.outputs;
    head * 0x2_0000_0000_0000 + output_sets(first, second, third, fourth)
}

// One event for one to four states on one bus; PINS and RESET are for the one that is named, counted from 0.
pub fn dock_chassis_step(states: &mut [u8], named: usize, word: u16) -> u64
    ensures value { result ≡ chassis_as (told_in states.old named word) }
    ensures states_after { states.new ≡ list_in states.old named word }
{
    number(run(states, named, word))
}
