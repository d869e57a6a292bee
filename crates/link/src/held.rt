// A state that the caller holds, as the bytes of its image.
ghost use Rattle.std.specs.Prelude.{◌≡◌, length};
ghost use Rattle.batch.specs.Decode.{number_of};
ghost use Rattle.batch.specs.Record.{record_of};
ghost use Rattle.link.specs.Answer.{batched_as, named_as, told_as, held_as};
ghost use Rattle.link.specs.Held.{begun, begun_in, answer_in, stepped_in, outcome_in, batched_in, records_in, naming_in, named_in, reading_in, outputs_in, held_in};

use crate::answer::{both, counted};
use crate::images::put;
use batch::Batched;
use calls::Outcome;
use dock::{Controller, NamingRefusal, Refusal, Renamed, held_value};
use image::load::state_of;
use image::save::{fresh, save};

// The record of refusal 1.
const UNFIT_RECORD: u32 = 0x1000_0000;

// What a question answered: the refusal and the value.
fn told(answer: Result<u16, Refusal>) -> u32
    ensures { result ≡ told_as answer }
{
    match answer {
        Ok(value) => both(0, value),
        Err(refusal) => both(refusal.number(), 0),
    }
}

// Writes the image of a fresh controller.
#[tactic(auto, unfolding(crate::specs::Held::begun, crate::specs::Held::begun_in))]
pub fn dock_begin(state: &mut [u8]) -> u32
    ensures value { result ≡ begun (length state.old) }
    ensures state_after { state.new ≡ begun_in state.old }
{
    if state.len() != image::BYTES {
        return told(Err(Refusal::Unfit));
    }
    put(fresh(), state);
    both(0, 0)
}

// Takes words from the state held: the one place of the library that takes events.
pub(crate) fn run(state: &mut [u8], words: &[u16], records: &mut [u8]) -> Outcome
    ensures value { result ≡ outcome_in state.old (length words.now) (length records.old) }
    ensures state_after { state.new ≡ batched_in state.old words.now (length records.old) }
    ensures records_after { records.new ≡ records_in state.old words.now records.old }
{
    let Some(controller) = state_of(&*state) else {
        return Err(calls::Refusal::Unfit);
    };
    let Batched {
        controller,
        outcome,
    } = batch::batch(controller, words, records);
    let count = outcome?;
    put(save(controller), state);
    Ok(count)
}

// One event. Answers its record's 32 bits.
#[tactic(auto, using(crate::proofs::OneWord::one_state, crate::proofs::OneWord::one_refused, crate::proofs::OneWord::one_record), unfolding(batch::specs::Record::record_of, batch::specs::Record::record_number))]
pub fn dock_step(state: &mut [u8], word: u16) -> u32
    ensures value { result ≡ number_of (record_of (answer_in state.old word)) }
    ensures state_after { state.new ≡ stepped_in state.old word }
{
    let mut record = [0; batch::RECORD];
    let Ok(_) = run(state, &[word], &mut record) else {
        return UNFIT_RECORD;
    };
    u32::from_be_bytes(record)
}

// Many events, a record for each. Answers the refusal and the count.
#[tactic(auto, using(crate::proofs::Counts::held_most))]
pub fn dock_batch(state: &mut [u8], words: &[u16], records: &mut [u8]) -> u32
    ensures value { result ≡ batched_as (outcome_in state.old (length words.now) (length records.old)) }
    ensures state_after { state.new ≡ batched_in state.old words.now (length records.old) }
    ensures records_after { records.new ≡ records_in state.old words.now records.old }
{
    counted(run(state, words, records))
}

fn name(state: &mut [u8], kind: u8) -> Result<(), NamingRefusal>
    ensures value { result ≡ naming_in state.old kind }
    ensures state_after { state.new ≡ named_in state.old kind }
{
    let Some(controller) = state_of(&*state) else {
        return Err(NamingRefusal::Unfit);
    };
    let Renamed { controller, naming } = controller.name(kind);
    naming?;
    put(save(controller), state);
    Ok(())
}

// What became of a name.
fn named(naming: Result<(), NamingRefusal>) -> u32
    ensures { result ≡ named_as naming }
{
    match naming {
        Ok(()) => both(0, 0),
        Err(refusal) => both(refusal.number(), 0),
    }
}

// Names a kind, 1 the first and 2 the second, for the RESETs to come. Answers the refusal.
pub fn dock_name_kind(state: &mut [u8], kind: u8) -> u32
    ensures value { result ≡ named_as (naming_in state.old kind) }
    ensures state_after { state.new ≡ named_in state.old kind }
{
    named(name(state, kind))
}

// One register's reading, outside the bus.
#[tactic(auto, unfolding(image::specs::Load::state_of, crate::specs::Held::reading_in))]
pub fn dock_reading(state: &[u8], address: u8) -> u32
    ensures { result ≡ told_as (reading_in state.now address) }
{
    told(state_of(state).map_or(
        Err(Refusal::Unfit),
        |controller| controller.reading(address),
    ))
}

// The nine outputs.
#[tactic(auto, unfolding(image::specs::Load::state_of, crate::specs::Held::outputs_in))]
pub fn dock_outputs(state: &[u8]) -> u32
    ensures { result ≡ told_as (outputs_in state.now) }
{
    told(state_of(state).map_or(Err(Refusal::Unfit), |controller| controller.outputs()))
}

// The byte that an open read holds, with bit 8 of the value set, or that none is: 0.
#[tactic(auto, unfolding(image::specs::Load::state_of, crate::specs::Held::held_in))]
pub fn dock_held_byte(state: &[u8]) -> u32
    ensures { result ≡ held_as (held_in state.now) }
{
    let byte = state_of(state).map_or(Err(Refusal::Unfit), |controller| controller.held());
    told(byte.map(|byte| held_value(byte)))
}
