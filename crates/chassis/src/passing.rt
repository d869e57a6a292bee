// The records of a list get the event, one after the other, and what they answer is gathered.
ghost use Rattle.std.specs.Prelude.{◌≡◌};
ghost use Rattle.chassis.specs.Chassis.{unanswered};
ghost use Rattle.chassis.specs.Passing.{spoken, louder, set_out_of, gathered, reaches_by, passed_of, places_by, PassedAll};

use crate::judge::names;
use crate::{Errand, MOST, Passed, Round};
use bus::Reply;
use dock::{Controller, Stepped, outputs_of, reply_in};
use event::Event;

// The reply where none ACKs and none drives.
#[tactic(auto, using(bus::proofs::Cases::among, bus::proofs::Cases::found))]
fn unanswered(event: Event) -> Reply
    ensures { result ≡ unanswered event }
{
    match event {
        Event::Byte(_) => Reply::NoAck,
        Event::Take(_) => Reply::NotDriven,
        _ => Reply::Nothing,
    }
}

// A second reply counts where it is an ACK or a driven byte.
#[tactic(auto, using(bus::proofs::Cases::among, bus::proofs::Cases::found))]
fn spoken(first: Reply, second: Reply) -> Reply
    ensures { result ≡ spoken first second }
{
    match second {
        Reply::Ack | Reply::Driven(_) => second,
        _ => first,
    }
}

// .. and the first was neither.
#[tactic(auto, using(bus::proofs::Cases::among, bus::proofs::Cases::found))]
fn louder(first: Reply, second: Reply) -> Reply
    ensures { result ≡ louder first second }
{
    match first {
        Reply::Ack | Reply::Driven(_) => first,
        _ => spoken(first, second),
    }
}

impl Round {
    // One record more has replied so, and drives these outputs.
    pub fn gathered(self, reply: Reply, outputs: u16) -> Round
        ensures { result ≡ gathered self reply outputs }
    {
        let place = self.place;
        if place < MOST {
            let mut all = self.outputs;
            all[place] = outputs;
            return Round {
                reply: louder(self.reply, reply),
                outputs: all,
                place: place + 1,
            };
        }
        self
    }
}

impl Errand {
    // With a refusal no record is passed.
    pub fn places(self, records: usize) -> usize
        ensures { result ≡ places_by self.verdict records }
    {
        match self.verdict {
            Ok(_) => records,
            Err(_) => 0,
        }
    }

    pub fn set_out(self) -> Round
        ensures { result ≡ set_out_of self }
    {
        Round {
            reply: match self.verdict {
                Ok(event) => unanswered(event),
                Err(_) => Reply::Nothing,
            },
            outputs: [0; MOST],
            place: 0,
        }
    }

    // Whether the record at a place gets the event: PINS and RESET go to the one that is named.
    pub fn reaches(self, place: usize) -> bool
        ensures { result ≡ reaches_by self.verdict self.named place }
    {
        match self.verdict {
            Ok(event) => !names(event) | (place == self.named),
            Err(_) => false,
        }
    }

    // A record gets the event, or is left as it is.
    #[tactic(auto, using(dock::proofs::Shown::shown_after), unfolding(crate::specs::Passing::passed_of, crate::specs::Passing::passed_by))]
    fn passed(self, round: Round, controller: Controller) -> Passed
        ensures { result ≡ passed_of self round controller }
    {
        if !self.reaches(round.place) {
            return Passed {
                controller,
                round: round.gathered(Reply::Nothing, controller.outputs().unwrap_or(0)),
            };
        }
        let Stepped { controller, answer } = controller.step(self.word);
        Passed {
            controller,
            round: round.gathered(reply_in(answer), outputs_of(answer)),
        }
    }
}

pub(crate) fn pass(list: &mut [Controller], errand: Errand) -> Round
    ensures { PassedAll errand list.old list.new result }
{
    let places = errand.places(list.len());
    let mut round = errand.set_out();
    for record in list[..places].iter_mut() {
        let passed = errand.passed(round, *record);
        *record = passed.controller;
        round = passed.round;
    }
    round
}
