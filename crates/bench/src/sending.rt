// Event words to the docks, one after the other, and what is told of each.
ghost use Rattle.std.specs.Prelude.{◌≡◌};
ghost use Rattle.bench.specs.Orders.{word_for, sent_of};

use crate::events::{tell_answer, tell_word};
use crate::every::tell_all_changed;
use crate::levels::levels_after;
use crate::say::tell;
use crate::{Bench, Sent};
use event::Event;
use std::io::Stdout;

pub(crate) fn word_for(event: Event) -> u16
    ensures { result ≡ word_for event }
{
    event::packed_word(event)
}

// One word, by the chassis's call with the number of the chosen dock.
#[tactic(auto, unfolding(crate::specs::Orders::sent_of))]
pub(crate) fn step(bench: Bench, word: u16) -> Sent
    ensures { result ≡ sent_of bench word }
{
    let stepped = bench.chassis.step(usize::from(bench.dock), word);
    let answer = stepped.told.answer;
    Sent {
        bench: Bench {
            chassis: stepped.chassis,
            levels: levels_after(answer, word, bench.dock, bench.levels),
            ..bench
        },
        answer,
    }
}

// One word, with its event and the answer told.
pub(crate) fn send(out: Stdout, bench: Bench, word: u16) -> Sent
    ensures { result ≡ sent_of bench word }
{
    tell_word(out, word);
    let sent = step(bench, word);
    tell_answer(out, sent.answer, bench, word);
    sent
}

pub(crate) fn sent(out: Stdout, bench: Bench, event: Event) -> Bench
    ensures { result ≡ (sent_of bench (word_for event)).bench }
{
    send(out, bench, word_for(event)).bench
}

// What comes after the events of a line: their end, and what they changed.
pub(crate) fn tell_end(out: Stdout, before: Bench, after: Bench) {
    tell(out, "\n");
    tell_all_changed(out, before.chassis, after.chassis);
}
