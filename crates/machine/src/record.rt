// The machine's record: fresh, fit, and its bays by number.
ghost use Rattle.std.specs.Prelude.{◌≡◌};
ghost use Rattle.machine.specs.Record.{unwritten, fresh_machine, most_pulse, most_wait, shared_fit, fits, bay_at, open_by};

use crate::{Machine, Shared};
use bay::Bay;
use bits::straps;
use kind::Kind;
use second::Second;

impl Machine {
    // A machine before its first RESET.
    #[tactic(auto, unfolding(crate::specs::Record::fresh_machine))]
    pub fn fresh() -> Machine
        ensures { result ≡ fresh_machine }
    {
        Machine {
            started: false,
            straps: 0,
            kind: Kind::First,
            named: Kind::First,
            shared: Shared::unwritten(0, 0),
            second: Second::fresh(),
            phase: 0,
            bays: [Bay::empty(); 2],
        }
    }

    // Whether each number of the record is one that the rules of the kind in force can make.
    #[tactic(auto, unfolding(crate::specs::Record::fits, crate::specs::Record::bay_in))]
    pub fn fit(self) -> bool
        ensures { result ≡ fits self }
    {
        let pulse = most_pulse(self.kind);
        let wait = most_wait(self.kind);
        (self.phase < Machine::PHASES)
            & (self.straps <= straps::MOST)
            & self.shared.fit()
            & self.second.fit()
            & self.bays[0].fit(pulse, wait)
            & self.bays[1].fit(pulse, wait)
    }

    // Bay 0, or else bay 1.
    #[tactic(auto, unfolding(crate::specs::Record::bay_in))]
    pub(crate) fn bay(self, i: u8) -> Bay
        ensures { result ≡ bay_at self i }
    {
        if i == 0 { self.bays[0] } else { self.bays[1] }
    }
}

impl Shared {
    // As a RESET leaves them, with this bay count and this LETR.
    pub(crate) fn unwritten(bay_count: u8, lock_time: u8) -> Shared
        ensures { result ≡ unwritten bay_count lock_time }
    {
        Shared {
            wait_time: 0,
            bay_count,
            dbccr_written: false,
            lock_time,
            seclock: false,
        }
    }

    // Bay 0 is always open, bay 1 unless the stored count is 1.
    #[tactic(auto, unfolding(crate::specs::Record::open_by))]
    pub(crate) fn is_open(self, i: u8) -> bool
        ensures { result ≡ open_by self.bay_count i }
    {
        (i == 0) | (self.bay_count != Shared::ONE_BAY)
    }

    fn fit(self) -> bool
        ensures { result ≡ shared_fit self }
    {
        (self.lock_time <= Shared::MOST_LOCK_TIME) & (self.bay_count <= Shared::MOST_BAYS)
    }
}

// The longest pulse and the longest wait of a kind, in ticks.
fn most_pulse(kind: Kind) -> u16
    ensures { result ≡ most_pulse kind }
{
    match kind {
        Kind::First => 200,
        Kind::Second => 1200,
    }
}

fn most_wait(kind: Kind) -> u16
    ensures { result ≡ most_wait kind }
{
    match kind {
        Kind::First => 255,
        Kind::Second => 560,
    }
}
