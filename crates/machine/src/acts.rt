// What each act does to a machine (document 01; document 03, "Naming the kind" and "Registers").
ghost use Rattle.std.specs.Prelude.{◌≡◌, Bool, true, ℕ, [], ◌∷◌};
ghost use Rattle.bay.specs.Moves.{ticked_bay};
ghost use Rattle.bay.specs.declared.Setting.{Setting};
ghost use Rattle.machine.specs.Record.{bay_in};
ghost use Rattle.machine.specs.Acts.{lock_after_reset, letr_after_reset, count_after_reset, reset_to, name_to, pins_to, next_phase, ticked_at, restful, acted};

use crate::setting::is_lit;
use crate::{Act, Acted, Machine, Shared};
use bay::Bay;
use bits::straps::{lock_def, lock_mode};
use kind::Kind;

// 199 is followed by 0.
#[tactic(auto, unfolding(crate::specs::Acts::next_phase))]
fn next_phase(phase: u8) -> u8
    ensures { result ≡ next_phase phase }
{
    if phase < Machine::PHASES - 1 {
        phase + 1
    } else {
        0
    }
}

// LOCK_CTL, LETR and the bay count after a RESET into this kind.
#[tactic(auto, unfolding(crate::specs::Acts::lock_after_reset))]
fn lock_after_reset(kind: Kind, straps: u8) -> bool
    ensures { result ≡ lock_after_reset kind straps }
{
    match kind {
        Kind::First => lock_def(straps) & !lock_mode(straps),
        Kind::Second => false,
    }
}

#[tactic(auto, unfolding(crate::specs::Acts::letr_after_reset))]
fn letr_after_reset(kind: Kind, short_pulse: bool) -> u8
    ensures { result ≡ letr_after_reset kind short_pulse }
{
    match kind {
        Kind::First => { if short_pulse { 0 } else { 1 } }
        Kind::Second => 0,
    }
}

#[tactic(auto, unfolding(crate::specs::Acts::count_after_reset))]
fn count_after_reset(kind: Kind) -> u8
    ensures { result ≡ count_after_reset kind }
{
    match kind {
        Kind::First => 0,
        Kind::Second => 2,
    }
}

// A tick finds nothing to do in either bay, and leaves both as they are.
#[tactic(auto, unfolding(crate::specs::Acts::restful, crate::specs::Record::bay_in))]
fn rest(bays: [Bay; 2]) -> bool
    ensures value { result ≡ restful bays }
    ensures two { bays ≡ bay_in bays 0 ∷ bay_in bays 1 ∷ [] }
    ensures i_value { result ≡ true → (hides : Bool) (s : Setting) (i : ℕ) → ticked_bay hides s (bay_in bays i) ≡ bay_in bays i }
{
    bays[0].rests() & bays[1].rests()
}

impl Machine {
    // The named kind comes into force. Bay 0's levels are bits 7-4.
    #[tactic(auto, unfolding(crate::specs::Acts::reset_as))]
    fn reset(self, straps: u8, levels: u8, short_pulse: bool) -> Machine
        ensures { result ≡ reset_to straps levels short_pulse self }
    {
        let kind = self.named;
        let lock_ctl = lock_after_reset(kind, straps);
        Machine {
            started: true,
            straps,
            kind,
            named: kind,
            shared: Shared::unwritten(count_after_reset(kind), letr_after_reset(kind, short_pulse)),
            second: self.second.reset(),
            phase: 0,
            bays: [
                Bay::reset(levels / 16, lock_ctl),
                Bay::reset(levels % 16, lock_ctl),
            ],
        }
    }

    // The name stays for every later RESET; until one comes nothing else changes.
    #[tactic(auto, unfolding(crate::specs::Acts::name_to))]
    pub fn name(self, kind: Kind) -> Machine
        ensures { result ≡ name_to kind self }
    {
        Machine {
            named: kind,
            ..self
        }
    }

    // A closed bay is passed by.
    #[tactic(auto, unfolding(crate::specs::Acts::pins_to, crate::specs::Acts::sampled_at, crate::specs::Record::bay_in, crate::specs::Record::open_by))]
    fn pins(self, levels: u8) -> Machine
        ensures { result ≡ pins_to levels self }
    {
        let other = if self.shared.is_open(1) {
            self.bays[1].sampled(levels % 16)
        } else {
            self.bays[1]
        };
        Machine {
            bays: [self.bays[0].sampled(levels / 16), other],
            ..self
        }
    }

    // Both bays after a tick: the inputs of both come first, and then the record; a closed bay is passed by.
    #[tactic(auto, unfolding(crate::specs::Record::bay_in, crate::specs::Acts::ticked_at, bay::specs::Moves::ticked_bay, crate::specs::Record::open_by))]
    fn ticked(self) -> [Bay; 2]
        ensures { result ≡ ticked_at self 0 ∷ ticked_at self 1 ∷ [] }
    {
        let hides = self.hides();
        let ticks = self.setting().wait_ticks;
        let inputs = self.bays[0].inputs();
        let other_inputs = self.bays[1].inputs();
        let other = if self.shared.is_open(1) {
            self.bays[1].moved(hides, ticks, other_inputs)
        } else {
            self.bays[1]
        };
        [self.bays[0].moved(hides, ticks, inputs), other]
    }

    // Where both bays rest, as in most ticks, only the phase moves, and nothing is paid for the bays that `ticked` makes.
    #[tactic(auto, unfolding(crate::specs::Acts::does, crate::specs::Acts::keeps, crate::specs::Acts::tick_to))]
    fn tick(self) -> Acted
        ensures { result ≡ acted Act.Tick self }
    {
        let phase = next_phase(self.phase);
        if rest(self.bays) {
            return Acted {
                machine: Machine { phase, ..self },
                keeps: is_lit(self.kind, self.phase) == is_lit(self.kind, phase),
            };
        }
        Acted {
            machine: Machine {
                phase,
                bays: self.ticked(),
                ..self
            },
            keeps: false,
        }
    }

    // The machine after an act.
    #[tactic(auto, unfolding(crate::specs::Acts::does, crate::specs::Acts::keeps))]
    pub fn does(self, act: Act) -> Acted
        ensures { result ≡ acted act self }
    {
        match act {
            Act::Write { register, value } => Acted {
                machine: self.write(register, value),
                keeps: false,
            },
            Act::Read(_) => Acted {
                machine: self,
                keeps: true,
            },
            Act::Pins(levels) => Acted {
                machine: self.pins(levels),
                keeps: true,
            },
            Act::Tick => self.tick(),
            Act::Reset {
                straps,
                levels,
                short_pulse,
            } => Acted {
                machine: self.reset(straps, levels, short_pulse),
                keeps: false,
            },
            Act::Name(kind) => Acted {
                machine: self.name(kind),
                keeps: true,
            },
        }
    }
}
