// Many events in one call, and the four-byte record of an answer (document 01, "Replies and refusal numbers").
#![tactic(auto)]

ghost use Rattle.std.specs.Prelude.{◌≡◌, true, ◌++◌, length, drop, ◌*◌, ◌%◌, ◌≤◌};
ghost use Rattle.machine.specs.Record.{fits};
ghost use Rattle.dock.specs.Run.{after, answers_to};
ghost use Rattle.batch.specs.Record.{fields, record_number, record_of, records_of};
ghost use Rattle.batch.specs.Decode.{reply_by, answer_by, answer_in};
ghost use Rattle.batch.specs.Batch.{batch_of, buffer_after, outcome_of};

use bus::Reply;
use calls::{Outcome, Refusal};
use dock::{Answer, Controller, Done, Went};

// The most words in one batch.
pub const MOST_WORDS: usize = 16384;
// The bytes of a record.
pub const RECORD: usize = 4;

#[derive(Clone, Copy)]
pub struct Batched {
    pub controller: Controller,
    // So many records were written, or why none was.
    pub outcome: Outcome,
}

// Four fields as one number: refusal 4 bits, reply 3, byte 8, outputs 9, eight zero bits.
fn fields(refusal: u8, reply: u8, byte: u8, outputs: u16) -> u32
    ensures { result ≡ fields (refusal % 16) (reply % 8) byte (outputs % 512) }
{
    let high = (refusal % 16) as u32 * 8 + (reply % 8) as u32;
    ((high * 256 + byte as u32) * 512 + (outputs % 512) as u32) * 256
}

// The record as one number.
#[tactic(auto, unfolding(crate::specs::Record::record_number))]
fn record_number(answer: Answer) -> u32
    ensures { result ≡ record_number answer }
{
    match answer {
        Ok(Done { reply, outputs }) => fields(0, reply.number(), reply.byte(), outputs),
        Err(refusal) => fields(refusal.number(), 0, 0, refusal.outputs()),
    }
}

// The record of an answer, most significant byte first.
#[tactic(auto, unfolding(crate::specs::Record::record_of))]
pub fn record(answer: Answer) -> [u8; 4]
    ensures { result ≡ record_of answer }
{
    record_number(answer).to_be_bytes()
}

// A reply by its number and byte: any past 3 is that of a TAKE that isn't driven.
#[tactic(auto, using(crate::proofs::Decode::reply_past))]
fn reply_by(number: u8, byte: u8) -> Reply
    ensures { result ≡ reply_by number byte }
{
    match number {
        0 => Reply::Nothing,
        1 => Reply::Ack,
        2 => Reply::NoAck,
        3 => Reply::Driven(byte),
        _ => Reply::NotDriven,
    }
}

// An answer by its numbers: any refusal past 2 is that of a controller that isn't started.
#[tactic(auto, using(crate::proofs::Decode::answer_past))]
fn answer_by(refusal: u8, reply: Reply, outputs: u16) -> Answer
    ensures { result ≡ answer_by refusal reply outputs }
{
    match refusal {
        0 => Ok(Done { reply, outputs }),
        1 => Err(dock::Refusal::Unfit),
        2 => Err(dock::Refusal::StrayBit(outputs)),
        _ => Err(dock::Refusal::NotStarted),
    }
}

// The answer that a record's 32 bits tell.
#[tactic(auto, unfolding(crate::specs::Decode::answer_in))]
pub fn answer_in(number: u32) -> Answer
    ensures { result ≡ answer_in number }
{
    let refusal = (number / 0x1000_0000) as u8;
    let reply = (number / 0x0200_0000 % 8) as u8;
    let byte = (number / 0x0002_0000 % 256) as u8;
    let outputs = (number / 256 % 512) as u16;
    answer_by(refusal, reply_by(reply, byte), outputs)
}

// Writes an answer's record into the four bytes lent.
fn write_record(answer: Answer, place: &mut [u8])
    requires { length place.old ≡ 4 }
    ensures { place.new ≡ record_of answer }
{
    place.copy_from_slice(&record(answer));
}

// Refusals 1, 5 and 4, in that order.
#[tactic(auto, unfolding(crate::specs::Batch::outcome_of))]
fn verdict(controller: Controller, words: &[u16], records: &[u8]) -> Outcome
    ensures { result ≡ outcome_of controller (length words.now) (length records.now) }
{
    if !controller.fit() {
        return Err(Refusal::Unfit);
    }
    if MOST_WORDS < words.len() {
        return Err(Refusal::TooMany);
    }
    if records.len() < RECORD * words.len() {
        return Err(Refusal::TooFewPlaces);
    }
    Ok(words.len())
}

// The words one after the other, each with its record at its own place. Each leaves the state fit, so it isn't asked again.
#[tactic(auto, using(crate::proofs::Loop::Going, crate::proofs::Loop::none_gone, crate::proofs::Loop::goes_on, crate::proofs::Loop::length_kept, crate::proofs::Loop::all_taken))]
fn run(controller: Controller, words: &[u16], records: &mut [u8]) -> Controller
    requires machine_value { fits controller.machine ≡ true }
    requires words_in_bounds { 4 * length words.now ≤ length records.old }
    ensures value { result ≡ after controller words.now }
    ensures records_after { records.new ≡ records_of (answers_to controller words.now) ++ drop (4 * length words.now) records.old }
{
    let mut state = controller;
    let mut shown = controller.machine.outputs();
    for (i, word) in words.iter().enumerate() {
        let Went {
            controller,
            answer,
            outputs,
        } = state.goes(shown, *word);
        let at = RECORD * i;
        write_record(answer, &mut records[at..at + RECORD]);
        state = controller;
        shown = outputs;
    }
    state
}

// The batch call. A word refused with 2 or 3 gets its record and the batch goes on.
#[tactic(auto, using(crate::proofs::Accepted::has_room, crate::proofs::Accepted::as_it_came), unfolding(crate::specs::Batch::batch_of, crate::specs::Batch::buffer_after))]
pub fn batch(controller: Controller, words: &[u16], records: &mut [u8]) -> Batched
    ensures value { result ≡ batch_of controller words.now (length records.old) }
    ensures records_after { records.new ≡ buffer_after controller words.now records.old }
{
    let outcome = verdict(controller, words, &*records);
    let Ok(_) = outcome else {
        return Batched {
            controller,
            outcome,
        };
    };
    Batched {
        controller: run(controller, words, records),
        outcome,
    }
}
