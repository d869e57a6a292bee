// Which call is refused, and with what (document 02, request 9): 9, 1, 2, 10, 3, 11, in this order.
ghost use Rattle.std.specs.Prelude.{◌≡◌, get_or};
ghost use Rattle.chassis.specs.declared.Refusal.TheVariants.{StrayBit};
ghost use Rattle.event.specs.Words.{unpacked};
ghost use Rattle.chassis.specs.Judge.{some, clash, faulty, names, nobody, started, unheard, has, neighbours, address_taken, by_event, judged};

use crate::{Errand, MOST, Refusal, Seen, Verdict};
use dock::Standing;
use event::{Event, NoEvent};

// Two started ones have one own address, or both a read open.
fn clash(a: Standing, b: Standing) -> bool
    ensures { result ≡ clash a b }
{
    a.started & b.started & ((a.address == b.address) | (a.reading & b.reading))
}

// A started one has this own address.
fn has(standing: Standing, address: u8) -> bool
    ensures { result ≡ has address standing }
{
    standing.started & (standing.address == address)
}

// PINS and RESET name a record.
pub(crate) fn names(event: Event) -> bool
    ensures { result ≡ names event }
{
    matches!(event, Event::Pins(_) | Event::Reset { .. })
}

// A word that is no event has a bit set that must be 0.
impl From<NoEvent> for Refusal {
    ghost from_gives = { λ _ refusal. refusal ≡ StrayBit };

    fn from(_no_event: NoEvent) -> Refusal {
        Refusal::StrayBit
    }
}

impl Seen {
    // A record isn't fit, or two clash: four places, six pairs.
    #[tactic(auto, using(crate::proofs::Four::faulty_four))]
    fn faulty(self) -> bool
        ensures { result ≡ faulty self.standings }
    {
        let [a, b, c, d] = self.standings;
        let fit = a.fit & b.fit & c.fit & d.fit;
        let first = clash(a, b) | clash(a, c) | clash(a, d);
        let others = clash(b, c) | clash(b, d) | clash(c, d);
        !fit | first | others
    }

    // Some record is started.
    #[tactic(auto, using(crate::proofs::Four::some_four))]
    fn hears(self) -> bool
        ensures { result ≡ some started self.standings }
    {
        let [a, b, c, d] = self.standings;
        a.started | b.started | c.started | d.started
    }

    // The record of this number is started.
    fn is_started(self, named: usize) -> bool
        ensures { result ≡ (get_or self.standings named nobody).started }
    {
        named < MOST && self.standings[named].started
    }

    // A started neighbour of the record named has this own address.
    #[tactic(auto, using(crate::proofs::Four::neighbours_four))]
    fn is_taken(self, named: usize, address: u8) -> bool
        ensures { result ≡ some (has address) (neighbours named self.standings) }
    {
        let [a, b, c, d] = self.standings;
        let first = (named != 0) & has(a, address);
        let second = (named != 1) & has(b, address);
        let third = (named != 2) & has(c, address);
        let fourth = (named != 3) & has(d, address);
        first | second | third | fourth
    }

    // Nobody takes the event up.
    #[tactic(auto, using(bus::proofs::Cases::among, bus::proofs::Cases::found))]
    fn is_unheard(self, named: usize, event: Event) -> bool
        ensures { result ≡ unheard event named self.standings }
    {
        match event {
            Event::Pins(_) => !self.is_started(named),
            Event::Reset { .. } => false,
            _ => !self.hears(),
        }
    }

    // The RESET would give a started neighbour's own address.
    #[tactic(auto, using(bus::proofs::Cases::among, bus::proofs::Cases::found))]
    fn is_address_taken(self, named: usize, event: Event) -> bool
        ensures { result ≡ address_taken event named self.standings }
    {
        match event {
            Event::Reset { straps, .. } => self.is_taken(named, bus::own_write(straps)),
            _ => false,
        }
    }

    // Refusals 10, 3, 11.
    fn by_event(self, records: usize, named: usize, event: Event) -> Verdict
        ensures { result ≡ by_event records self.standings named event }
    {
        if names(event) & (records <= named) {
            return Err(Refusal::Absent);
        }
        if self.is_unheard(named, event) {
            return Err(Refusal::NotStarted);
        }
        if self.is_address_taken(named, event) {
            return Err(Refusal::AddressTaken);
        }
        Ok(event)
    }

    // What becomes of a word for a list of so many records.
    #[tactic(auto, unfolding(crate::specs::Judge::judged, crate::specs::Judge::by_word))]
    fn verdict(self, records: usize, named: usize, word: u16) -> Verdict
        ensures { result ≡ judged records self.standings named word }
    {
        if (records == 0) | (MOST < records) {
            return Err(Refusal::WrongLength);
        }
        if self.faulty() {
            return Err(Refusal::Unfit);
        }
        self.by_event(records, named, event::unpack(word)?)
    }

    pub fn errand(self, records: usize, named: usize, word: u16) -> Errand
        ensures { result ≡ record { verdict = judged records self.standings named word; named = named; word = word } }
    {
        Errand {
            verdict: self.verdict(records, named, word),
            named,
            word,
        }
    }
}
