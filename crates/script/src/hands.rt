// What a person does at a bay: which of its inputs change, and to which level.
ghost use Rattle.std.specs.Prelude.{◌≤◌, ◌≡◌, IfSome};
ghost use Rattle.script.specs.Hands.{bay_of, only_bay, kind_of, insert_line, hand_line};

use crate::text::{after_first, first_word, only_word};
use crate::{Hand, Order};

// The inputs of a bay by their weights among its four.
const N1394: u8 = 8;

const NUSB: u8 = 4;

const NREMREQ: u8 = 2;

const NSL: u8 = 1;

// Where the four inputs of a bay begin in the levels.
#[tactic(auto, unfolding(crate::specs::Hands::bay_of))]
fn bay(text: &[u8]) -> Option<u8>
    ensures value { result ≡ bay_of text.now }
    ensures upper_bound { IfSome result (λ place. place ≤ 16) }
{
    match text {
        b"0" => Some(16),
        b"1" => Some(1),
        _ => None,
    }
}

// What is inserted, by the input that tells of it.
#[tactic(auto, unfolding(crate::specs::Hands::kind_of))]
fn kind(text: &[u8]) -> Option<u8>
    ensures value { result ≡ kind_of text.now }
    ensures upper_bound { IfSome result (λ input. input ≤ 8) }
{
    match text {
        b"1394" => Some(N1394),
        b"usb" => Some(NUSB),
        _ => None,
    }
}

// A bay, and nothing after it.
#[tactic(auto, unfolding(crate::specs::Hands::only_bay))]
fn only_bay(text: &[u8]) -> Option<u8>
    ensures value { result ≡ only_bay text.now }
    ensures upper_bound { IfSome result (λ place. place ≤ 16) }
{
    bay(only_word(text)?)
}

// A bay, and what is inserted there.
#[tactic(auto, unfolding(crate::specs::Hands::insert_line))]
fn insert(text: &[u8]) -> Option<Order>
    ensures { result ≡ insert_line text.now }
{
    let place = bay(first_word(text))?;
    let input = kind(only_word(after_first(text))?)?;
    Some(Order::Pull(place * input))
}

// The hand's word and what follows it.
#[tactic(auto, unfolding(crate::specs::Hands::hand_line))]
pub(crate) fn at_bay(hand: Hand, text: &[u8]) -> Option<Order>
    ensures { result ≡ hand_line hand text.now }
{
    match hand {
        Hand::Insert => insert(text),
        Hand::Remove => Some(Order::Raise(only_bay(text)? * (N1394 + NUSB))),
        Hand::Press => Some(Order::Pull(only_bay(text)? * NREMREQ)),
        Hand::Release => Some(Order::Raise(only_bay(text)? * NREMREQ)),
        Hand::Secure => Some(Order::Pull(only_bay(text)? * NSL)),
        Hand::Unsecure => Some(Order::Raise(only_bay(text)? * NSL)),
    }
}
