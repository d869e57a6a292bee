// The verbs by their names.
ghost use Rattle.std.specs.Prelude.{◌≡◌};
ghost use Rattle.script.specs.Verbs.{verb_of};

use crate::{Hand, Named, Verb};

#[tactic(auto, unfolding(crate::specs::Verbs::verb_of, crate::specs::Verbs::verbs))]
fn by_name(name: &str) -> Option<Named>
    ensures { result ≡ verb_of name.now }
{
    match name {
        "reset" => Some(Named::This(Verb::Reset)),
        "pins" => Some(Named::This(Verb::Pins)),
        "tick" => Some(Named::This(Verb::Tick)),
        "timeout" => Some(Named::This(Verb::Timeout)),
        "start" => Some(Named::This(Verb::Start)),
        "stop" => Some(Named::This(Verb::Stop)),
        "byte" => Some(Named::This(Verb::Byte)),
        "take" => Some(Named::This(Verb::Take)),
        "word" => Some(Named::This(Verb::Word)),
        "w" => Some(Named::This(Verb::W)),
        "r" => Some(Named::This(Verb::R)),
        "at" => Some(Named::This(Verb::At)),
        "out" => Some(Named::This(Verb::Out)),
        "regs" => Some(Named::This(Verb::Regs)),
        "help" => Some(Named::This(Verb::Help)),
        "save" => Some(Named::This(Verb::Save)),
        "load" => Some(Named::This(Verb::Load)),
        "kind" => Some(Named::This(Verb::Kind)),
        "chassis" => Some(Named::This(Verb::Chassis)),
        "dock" => Some(Named::This(Verb::Dock)),
        "insert" => Some(Named::AtBay(Hand::Insert)),
        "remove" => Some(Named::AtBay(Hand::Remove)),
        "press" => Some(Named::AtBay(Hand::Press)),
        "release" => Some(Named::AtBay(Hand::Release)),
        "secure" => Some(Named::AtBay(Hand::Secure)),
        "unsecure" => Some(Named::AtBay(Hand::Unsecure)),
        _ => None,
    }
}

// What a word names.
#[tactic(auto, using(crate::proofs::Names::no_text))]
pub(crate) fn named(word: &[u8]) -> Option<Named>
    ensures { result ≡ verb_of word.now }
{
    by_name(std::str::from_utf8(word).ok()?)
}
