// The registers that both kinds have (document 01, "Registers"; document 03, "Registers"): DBCCR, and a bay's BSTR and BCER, as
// they read and what a write does. Where they are is each kind's own.
ghost use Rattle.std.specs.Prelude.{◌≡◌, true, false, cond, eqb};
ghost use Rattle.bay.specs.declared.Bay.{Bay};
ghost use Rattle.bay.specs.Record.{empty_bay};
ghost use Rattle.machine.specs.Record.{ONE_BAY, bay_at, is_open, with_bay};
ghost use Rattle.machine.specs.Registers.{dbccr_of, bstr_at, bcer_at, count_written, dbccr_write, bstr_write, bcer_write};

use crate::{Machine, Shared};
use bay::{Bay, Control};
use bits::{has, put};
use kind::Kind;

// The bay count that a byte written to DBCCR stores.
#[tactic(auto, unfolding(crate::specs::Registers::count_written))]
fn count_written(kind: Kind, value: u8) -> u8
    ensures { result ≡ count_written kind value }
{
    match kind {
        Kind::First => value % 4,
        Kind::Second => { if 2 < value % 16 { 2 } else { value % 16 } }
    }
}

// Bay 1 after DBCCR stored a count. A function, since with the bay chosen in `with_dbccr` itself the compiler keeps fields of `Shared` in pairs, and takes
// them apart at every event.
fn closed_by(bay_count: u8, bay: Bay) -> Bay
    ensures { result ≡ cond (eqb bay_count ONE_BAY) empty_bay bay }
{
    if bay_count == Shared::ONE_BAY {
        Bay::empty()
    } else {
        bay
    }
}

impl Shared {
    // DBCCR as it reads: bit 4 SECLOCK, bits 1-0 bay count.
    #[tactic(auto, unfolding(crate::specs::Registers::dbccr_of))]
    fn dbccr(self) -> u8
        ensures { result ≡ dbccr_of self }
    {
        self.bay_count % 4 + put(self.seclock, 16)
    }
}

impl Machine {
    // DBCCR as it reads.
    pub(crate) fn dbccr(self) -> u8
        ensures { result ≡ dbccr_of self.shared }
    {
        self.shared.dbccr()
    }

    // BSTR of bay i, and BCER: of a closed one they read 0.
    #[tactic(auto, unfolding(crate::specs::Registers::bstr_at))]
    pub(crate) fn bstr(self, i: u8) -> u8
        ensures { result ≡ bstr_at self i }
    {
        if self.shared.is_open(i) {
            self.bay(i).bstr(self.hides(), self.secured())
        } else {
            0
        }
    }

    #[tactic(auto, unfolding(crate::specs::Registers::bcer_at))]
    pub(crate) fn bcer(self, i: u8) -> u8
        ensures { result ≡ bcer_at self i }
    {
        if self.shared.is_open(i) {
            self.bay(i).bcer()
        } else {
            0
        }
    }

    // Only the first write after a RESET counts; count 1 closes bay 1 and makes its record empty.
    #[tactic(auto, unfolding(crate::specs::Registers::dbccr_write, crate::specs::Registers::dbccr_stored, crate::specs::Record::bay_in))]
    pub(crate) fn with_dbccr(self, value: u8) -> Machine
        ensures { result ≡ dbccr_write value self }
    {
        if self.shared.dbccr_written {
            return self;
        }
        let bay_count = count_written(self.kind, value);
        Machine {
            shared: Shared {
                bay_count,
                dbccr_written: true,
                seclock: has(value, 16),
                ..self.shared
            },
            bays: [self.bays[0], closed_by(bay_count, self.bays[1])],
            ..self
        }
    }

    // Bay i after a change; a closed one is passed by.
    #[tactic(auto, unfolding(crate::specs::Record::placed))]
    fn changed<F: FnOnce(Bay) -> Bay>(self, i: u8, change: F) -> Machine
        requires { F.IsAlwaysCallable change }
        ensures shut { is_open self i ≡ false → result ≡ self }
        ensures made { is_open self i ≡ true → (b : Bay) × F.post change (bay_at self i) b × (result ≡ with_bay i b self) }
    {
        if !self.shared.is_open(i) {
            return self;
        }
        let bay = change(self.bay(i));
        Machine {
            bays: if i == 0 {
                [bay, self.bays[1]]
            } else {
                [self.bays[0], bay]
            },
            ..self
        }
    }

    #[tactic(auto, unfolding(crate::specs::Registers::bstr_write))]
    pub(crate) fn with_bstr(self, i: u8, value: u8) -> Machine
        ensures { result ≡ bstr_write i value self }
    {
        self.changed(i, |bay| bay.with_bstr(value))
    }

    #[tactic(auto, unfolding(crate::specs::Registers::bcer_write))]
    pub(crate) fn with_bcer(self, i: u8, value: u8) -> Machine
        ensures { result ≡ bcer_write i value self }
    {
        let hides = self.hides();
        let setting = self.setting();
        self.changed(
            i,
            |bay| bay.controlled(hides, Control::from(value), setting),
        )
    }
}
