// What an order does to the docks, event word by event word, and what is told of it.
ghost use Rattle.std.specs.Prelude.{◌≡◌, replicate};
ghost use Rattle.event.specs.declared.Event.TheVariants.{Tick};
ghost use Rattle.bench.specs.Orders.{word_for, sent_of, after_words, named_as, fresh_docks, fresh_bench, obeyed};

use crate::Bench;
use crate::docks::{AT_REST, is_on, is_there, place_at, record_at, with_record};
use crate::events::{
    is_reset, tell_absent, tell_address, tell_answer, tell_choice, tell_docks, tell_naming,
};
use crate::every::{any_changed, tell_all_changed, tell_dock, tell_every};
use crate::help::tell_help;
use crate::images::{load, tell_image};
use crate::levels::{pulled, raised};
use crate::registers::tell_registers;
use crate::say::{part, say, tell};
use crate::sending::{send, step, tell_end, word_for};
use crate::transfers::{read, write};
use chassis::{Answer, Chassis, MOST};
use dock::Controller;
use event::Event;
use script::Order;
use std::io::Stdout;

// What one word did. After a RESET everything of its dock is told, since everything is new.
fn tell_one(out: Stdout, before: Bench, word: u16, answer: Answer, after: Bench) {
    if is_reset(word) && answer.is_ok() {
        tell(out, "\n");
        tell_dock(out, after.chassis, after.dock);
    } else {
        tell_end(out, before, after);
    }
}

// One word.
fn one(out: Stdout, bench: Bench, word: u16) -> Bench
    ensures { result ≡ (sent_of bench word).bench }
{
    let sent = send(out, bench, word);
    tell_one(out, bench, word, sent.answer, sent.bench);
    sent.bench
}

// The call that names a kind: it is no event, and changes nothing that is told besides.
#[tactic(auto, unfolding(crate::specs::Orders::named_as))]
fn name(out: Stdout, bench: Bench, number: u8) -> Bench
    ensures { result ≡ named_as number bench }
{
    if !is_there(bench) {
        tell_absent(out, bench.dock);
        return bench;
    }
    let renamed = record_at(bench.chassis, bench.dock).name(number);
    tell_naming(out, number, renamed.naming);
    Bench {
        chassis: with_record(bench.chassis, bench.dock, renamed.controller),
        ..bench
    }
}

// What the i-th TICK of a line changed, or why it was refused; answers whether there was anything to tell.
fn tell_tick(out: Stdout, i: u16, answer: Answer, before: Bench, after: Bench) -> bool {
    if answer.is_err() {
        if i == 1 {
            tell(out, "  TICK");
            tell_answer(out, answer, before, word_for(Event::Tick));
            tell(out, "\n");
        }
        return true;
    }
    let changed = any_changed(before.chassis, after.chassis);
    if changed {
        say(out, format_args!("  after tick {i}:\n"));
        tell_all_changed(out, before.chassis, after.chassis);
    }
    changed
}

// So many TICKs.
#[tactic(auto, using(crate::proofs::InTurn::once_more), unfolding(crate::specs::Orders::after_words))]
fn ticks(out: Stdout, bench: Bench, count: u16) -> Bench
    ensures { result ≡ after_words bench (replicate count (word_for Tick)) }
{
    let word = word_for(Event::Tick);
    let mut state = bench;
    let mut quiet = true;
    for i in 0..count {
        let sent = step(state, word);
        quiet &= !tell_tick(out, i + 1, sent.answer, state, sent.bench);
        state = sent.bench;
    }
    tell(out, part(quiet, "  no change\n"));
    state
}

// Something of the chosen dock, where it is there.
fn tell_of<F: Fn(Stdout, Controller)>(out: Stdout, bench: Bench, tell: F)
    requires { F.IsAlwaysCallable tell }
{
    if is_there(bench) {
        tell(out, record_at(bench.chassis, bench.dock));
    } else {
        tell_absent(out, bench.dock);
    }
}

impl Bench {
    // So many fresh docks on the bus.
    #[tactic(auto, unfolding(crate::specs::Orders::fresh_docks))]
    fn of(count: usize, address: u8) -> Bench
        ensures { result ≡ fresh_docks count address }
    {
        Bench {
            chassis: Chassis {
                records: [Controller::fresh(); MOST],
                count,
            },
            dock: 0,
            address,
            levels: [AT_REST; MOST],
        }
    }

    // A bench that nothing has been done to.
    #[tactic(auto, unfolding(crate::specs::Orders::fresh_bench))]
    pub(crate) fn fresh() -> Bench
        ensures { result ≡ fresh_bench }
    {
        Bench::of(1, 0x90)
    }

    // An order, with the word beside its verb.
    #[tactic(auto, unfolding(crate::specs::Orders::obeyed, crate::specs::Orders::words_of, crate::specs::Orders::after_words, crate::specs::Docks::levels_at))]
    pub(crate) fn obey(self, out: Stdout, order: Order, text: &[u8]) -> Bench
        ensures { result ≡ obeyed order text.now self }
    {
        let here = place_at(self.levels, self.dock, AT_REST);
        match order {
            Order::Event(event) => one(out, self, word_for(event)),
            Order::Pull(inputs) => one(out, self, word_for(Event::Pins(pulled(here, inputs)))),
            Order::Raise(inputs) => one(out, self, word_for(Event::Pins(raised(here, inputs)))),
            Order::Ticks(count) => ticks(out, self, count),
            Order::Word(word) => one(out, self, word),
            Order::Write {
                register,
                value,
                more,
            } => write(out, self, register, value, more, text),
            Order::Read { register, more } => read(out, self, register, more),
            Order::Address(address) => {
                tell_address(out, address);
                Bench { address, ..self }
            }
            Order::Outputs => {
                tell_every(out, self.chassis);
                self
            }
            Order::Registers => {
                tell_of(out, self, tell_registers);
                self
            }
            Order::Help => {
                tell_help(out);
                self
            }
            Order::Save => {
                tell_of(out, self, tell_image);
                self
            }
            Order::Load => load(out, self, text),
            Order::Name(number) => name(out, self, number),
            Order::Docks(count) => {
                tell_docks(out, count);
                Bench::of(usize::from(count), self.address)
            }
            Order::Choose(number) => {
                tell_choice(out, number, is_on(self.chassis, number));
                Bench {
                    dock: number,
                    ..self
                }
            }
        }
    }
}
