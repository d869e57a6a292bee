// What a line means: a verb, what it takes, and a comment after `#`.
ghost use Rattle.std.specs.Prelude.{◌≡◌};
ghost use Rattle.script.specs.Lines.{alone, reset_line, take_line, write_line, span, read_line, chassis_line, order_line, verb_line, plain, argument_of, line_of};

use crate::arguments::{all_further, octet, pair, small, ticks, word};
use crate::hands::at_bay;
use crate::text::{after_first, first_word, only_word};
use crate::verbs::named;
use crate::{Mistake, Named, Order, Verb};
use event::Event;

// The characters of two bytes with a sign between them, and of each value after that.
const PAIR: usize = 5;

const FURTHER: usize = 3;

// The longest text of a write: so many values as there are registers.
const MOST_WRITE: usize = PAIR + FURTHER * 255;

// As many docks as one bus has.
const MOST_DOCKS: u8 = 4;

// An order of a verb that takes nothing.
fn alone(text: &[u8], order: Order) -> Option<Order>
    ensures { result ≡ alone text.now order }
{
    text.is_empty().then_some(order)
}

// The word of a RESET.
#[tactic(auto, unfolding(crate::specs::Lines::reset_line))]
fn reset(text: &[u8]) -> Option<Order>
    ensures { result ≡ reset_line text.now }
{
    let Ok(event) = event::unpack(word(text)?) else {
        return None;
    };
    event.is_reset().then_some(Order::Event(event))
}

#[tactic(auto, unfolding(crate::specs::Lines::take_line))]
fn take(text: &[u8]) -> Option<Order>
    ensures { result ≡ take_line text.now }
{
    match text {
        b"ack" => Some(Order::Event(Event::Take(true))),
        b"nack" => Some(Order::Event(Event::Take(false))),
        _ => None,
    }
}

// A register, `=` and a value, and more values, each after a comma.
#[tactic(auto, unfolding(crate::specs::Lines::write_line))]
fn write(text: &[u8]) -> Option<Order>
    ensures { result ≡ write_line text.now }
{
    let length = text.len();
    if length < PAIR || MOST_WRITE < length || length % FURTHER != PAIR % FURTHER {
        return None;
    }
    let (register, value) = pair(b'=', &text[..PAIR])?;
    let more = ((length - PAIR) / FURTHER) as u8;
    all_further(text, more).then_some(Order::Write {
        register,
        value,
        more,
    })
}

// How many registers come after the first, up to the last; FFh is followed by 00h.
#[tactic(auto, unfolding(crate::specs::Lines::span))]
fn span(first: u8, last: u8) -> u8
    ensures { result ≡ span first last }
{
    last.wrapping_sub(first)
}

// A register, or the first and the last with `-` between them.
#[tactic(auto, unfolding(crate::specs::Lines::read_line))]
fn read(text: &[u8]) -> Option<Order>
    ensures { result ≡ read_line text.now }
{
    if text.len() == PAIR {
        let (register, last) = pair(b'-', text)?;
        let more = span(register, last);
        return Some(Order::Read { register, more });
    }
    let register = octet(text)?;
    Some(Order::Read { register, more: 0 })
}

// One to four docks.
#[tactic(auto, unfolding(crate::specs::Lines::chassis_line))]
fn chassis(text: &[u8]) -> Option<Order>
    ensures { result ≡ chassis_line text.now }
{
    match small(text)? {
        docks @ 1..=MOST_DOCKS => Some(Order::Docks(docks)),
        _ => None,
    }
}

// A verb and the word after it, empty where there is none.
#[tactic(auto, unfolding(crate::specs::Lines::order_line))]
fn order(verb: Verb, text: &[u8]) -> Option<Order>
    ensures { result ≡ order_line verb text.now }
{
    match verb {
        Verb::Reset => reset(text),
        Verb::Pins => Some(Order::Event(Event::Pins(octet(text)?))),
        Verb::Tick => Some(Order::Ticks(ticks(text)?)),
        Verb::Timeout => alone(text, Order::Event(Event::Timeout)),
        Verb::Start => alone(text, Order::Event(Event::Start)),
        Verb::Stop => alone(text, Order::Event(Event::Stop)),
        Verb::Byte => Some(Order::Event(Event::Byte(octet(text)?))),
        Verb::Take => take(text),
        Verb::Word => Some(Order::Word(word(text)?)),
        Verb::W => write(text),
        Verb::R => read(text),
        Verb::At => Some(Order::Address(octet(text)?)),
        Verb::Out => alone(text, Order::Outputs),
        Verb::Regs => alone(text, Order::Registers),
        Verb::Help => alone(text, Order::Help),
        Verb::Save => alone(text, Order::Save),
        Verb::Load => (!text.is_empty()).then_some(Order::Load),
        Verb::Kind => Some(Order::Name(small(text)?)),
        Verb::Chassis => chassis(text),
        Verb::Dock => Some(Order::Choose(small(text)?)),
    }
}

// The text in front of a comment.
fn before_comment(line: &[u8]) -> &[u8]
    ensures { result.now ≡ plain line.now }
{
    match line.iter().position(|c| *c == b'#') {
        Some(end) => &line[..end],
        None => line,
    }
}

// A verb and what follows it. No verb takes more than one word.
#[tactic(auto, unfolding(crate::specs::Lines::verb_line))]
fn with_verb(verb: Verb, text: &[u8]) -> Option<Order>
    ensures { result ≡ verb_line verb text.now }
{
    order(verb, only_word(text)?)
}

// The word after the first of a line, empty where there is none.
#[tactic(auto, unfolding(crate::specs::Lines::argument_of))]
pub fn argument(line: &[u8]) -> &[u8]
    ensures { result.now ≡ argument_of line.now }
{
    first_word(after_first(before_comment(line)))
}

// What a line means; nothing where it has only blanks and a comment.
#[tactic(auto, unfolding(crate::specs::Lines::text_line, crate::specs::Lines::line_of))]
pub fn meaning(line: &[u8]) -> Result<Option<Order>, Mistake>
    ensures { result ≡ line_of line.now }
{
    let text = before_comment(line);
    let name = first_word(text);
    if name.is_empty() {
        return Ok(None);
    }
    let follows = after_first(text);
    let order = match named(name).ok_or(Mistake::Unknown)? {
        Named::This(verb) => with_verb(verb, follows).ok_or(Mistake::Misused(verb))?,
        Named::AtBay(hand) => at_bay(hand, follows).ok_or(Mistake::Mishandled(hand))?,
    };
    Ok(Some(order))
}
