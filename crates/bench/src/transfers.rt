// Whole writes and reads, of one byte or of several, event by event.
ghost use Rattle.std.specs.Prelude.{◌≡◌, map, ◌∷◌};
ghost use Rattle.script.specs.Arguments.{further_values};
ghost use Rattle.bench.specs.Orders.{byte_word, write_words, take_words, read_words, after_words};

use crate::Bench;
use crate::every::answering;
use crate::registers::tell_taken;
use crate::sending::{send, sent, tell_end, word_for};
use arrayvec::ArrayVec;
use bus::Reply;
use chassis::Answer;
use event::Event;
use std::io::Stdout;

// The most bytes that a line reads: one of each register.
const REGISTERS: usize = 256;

// The values of a write after its first, which the text holds.
#[tactic(auto, using(crate::proofs::InTurn::value_more), unfolding(crate::specs::Orders::after_words, script::specs::Arguments::further_values))]
fn give(out: Stdout, bench: Bench, more: u8, text: &[u8]) -> Bench
    ensures { result ≡ after_words bench (map byte_word (further_values text.now more)) }
{
    let mut state = bench;
    for i in 0..more {
        state = sent(out, state, Event::Byte(script::further_value(text, i)));
    }
    state
}

// A whole write.
#[tactic(auto, using(crate::proofs::InTurn::one_after_the_other), unfolding(crate::specs::Orders::after_words))]
pub(crate) fn write(
    out: Stdout,
    bench: Bench,
    register: u8,
    value: u8,
    more: u8,
    text: &[u8],
) -> Bench
    ensures { result ≡ after_words bench (write_words bench.address register (value ∷ further_values text.now more)) }
{
    let opened = sent(out, bench, Event::Start);
    let addressed = sent(out, opened, Event::Byte(bench.address));
    let chosen = sent(out, addressed, Event::Byte(register));
    let given = sent(out, chosen, Event::Byte(value));
    let all = give(out, given, more, text);
    let next = sent(out, all, Event::Stop);
    tell_end(out, bench, next);
    next
}

// Keeps the byte that was driven, where one was.
fn keep(given: &mut ArrayVec<u8, REGISTERS>, answer: Answer) {
    if let Ok(Reply::Driven(value)) = answer {
        let _ = given.try_push(value);
    }
}

// The TAKEs of a read, the last without ACK; the bytes that were driven are kept.
#[tactic(auto, using(crate::proofs::InTurn::one_after_the_other, crate::proofs::InTurn::once_more), unfolding(crate::specs::Orders::after_words))]
fn take(out: Stdout, bench: Bench, more: u8, given: &mut ArrayVec<u8, REGISTERS>) -> Bench
    ensures { result ≡ after_words bench (take_words more) }
{
    let mut state = bench;
    for _ in 0..more {
        let taken = send(out, state, word_for(Event::Take(true)));
        keep(given, taken.answer);
        state = taken.bench;
    }
    let last = send(out, state, word_for(Event::Take(false)));
    keep(given, last.answer);
    last.bench
}

// A whole read, and what the bytes say that were driven.
#[tactic(auto, unfolding(crate::specs::Orders::after_words))]
pub(crate) fn read(out: Stdout, bench: Bench, register: u8, more: u8) -> Bench
    ensures { result ≡ after_words bench (read_words bench.address register more) }
{
    let opened = sent(out, bench, Event::Start);
    let addressed = sent(out, opened, Event::Byte(bench.address));
    let chosen = sent(out, addressed, Event::Byte(register));
    let again = sent(out, chosen, Event::Start);
    let decided = sent(out, again, Event::Byte(bench.address / 2 * 2 + 1));
    let mut given = ArrayVec::new();
    let next = take(out, decided, more, &mut given);
    let kind = answering(next.chassis, bench.address).machine.kind;
    tell_end(out, bench, next);
    tell_taken(out, kind, register, given.as_slice());
    next
}
