// One event word at a time (document 01, "Replies and refusal numbers"): the refusals 1, 2 and 3 in that order, or
// the next state and the answer.
ghost use Rattle.std.specs.Prelude.{◌≡◌};
ghost use Rattle.event.specs.Words.{unpacked};
ghost use Rattle.dock.specs.Step.{step_of, takes_word, untaken, went_of, told_reading, told_outputs};

use crate::{Answer, Controller, Done, Refusal, Stepped, Taken, Went};

// A controller that isn't started takes only a RESET.
fn takes(started: bool, word: u16) -> bool
    ensures { result ≡ takes_word started word }
{
    started | event::resets(word)
}

// What a word that isn't taken is answered. Refusal 2 comes first, with the outputs as they are.
fn untaken(shown: u16, word: u16) -> Answer
    ensures { result ≡ untaken shown (unpacked word) }
{
    match event::unpack(word) {
        Ok(_) => Err(Refusal::NotStarted),
        Err(_) => Err(Refusal::StrayBit(shown)),
    }
}

impl Controller {
    // The state as it came; its outputs are `shown`.
    fn refused(self, answer: Answer, shown: u16) -> Went
        ensures { result ≡ record { controller = self; answer = answer; outputs = shown } }
    {
        Went {
            controller: self,
            answer,
            outputs: shown,
        }
    }

    // The single call on a state that is fit and whose outputs are `shown`; on any other it goes by the same rules.
    #[tactic(auto, using(crate::proofs::Goes::went_untaken, crate::proofs::Goes::went_stray, crate::proofs::Goes::went_taken), unfolding(crate::specs::Events::next, crate::specs::Step::outputs_after))]
    pub fn goes(self, shown: u16, word: u16) -> Went
        ensures { result ≡ went_of self shown word }
    {
        if !takes(self.machine.started, word) {
            return self.refused(untaken(shown, word), shown);
        }
        let Ok(event) = event::unpack(word) else {
            return self.refused(Err(Refusal::StrayBit(shown)), shown);
        };
        let turn = self.turn(event);
        let reply = turn.reply;
        let Taken { controller, keeps } = turn.taken(self.machine);
        let outputs = if keeps {
            shown
        } else {
            controller.machine.outputs()
        };
        Went {
            controller,
            answer: Ok(Done { reply, outputs }),
            outputs,
        }
    }

    // The single call.
    #[tactic(auto, using(crate::proofs::Goes::goes_as_step), unfolding(crate::specs::Step::step_of))]
    pub fn step(self, word: u16) -> Stepped
        ensures { result ≡ step_of self word }
    {
        if !self.fit() {
            return Stepped {
                controller: self,
                answer: Err(Refusal::Unfit),
            };
        }
        let Went {
            controller,
            answer,
            ..
        } = self.goes(self.machine.outputs(), word);
        Stepped { controller, answer }
    }

    // One register's reading, outside the bus.
    #[tactic(auto, unfolding(crate::specs::Step::told_reading))]
    pub fn reading(self, address: u8) -> Result<u16, Refusal>
        ensures { result ≡ told_reading self address }
    {
        if self.fit() {
            Ok(self.machine.reading(address) as u16)
        } else {
            Err(Refusal::Unfit)
        }
    }

    // The nine outputs, outside the bus.
    #[tactic(auto, unfolding(crate::specs::Step::told_outputs))]
    pub fn outputs(self) -> Result<u16, Refusal>
        ensures { result ≡ told_outputs self }
    {
        if self.fit() {
            Ok(self.machine.outputs())
        } else {
            Err(Refusal::Unfit)
        }
    }
}
