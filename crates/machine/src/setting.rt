// What the kind in force, the straps and the shared registers make of a bay's rules (document 01, "Registers" and "Bay moves";
// document 03, "Bay moves" and "Outputs").
ghost use Rattle.std.specs.Prelude.{◌%◌, ◌≡◌};
ghost use Rattle.machine.specs.Setting.{hides, secured, is_lit, pulse_ticks_of, first_setting, second_setting, setting_of};

use crate::Machine;
use bay::Setting;
use bits::straps::lock_mode;
use kind::Kind;

// How many ticks a lock time stands for.
#[tactic(auto, unfolding(crate::specs::Setting::pulse_ticks_of))]
pub fn pulse_ticks(lock_time: u8) -> u16
    ensures { result ≡ pulse_ticks_of lock_time }
{
    match lock_time {
        0 => 12,
        1 => 50,
        2 => 100,
        _ => 200,
    }
}

// A phase within the second kind's period. Without a division, which a small processor hasn't.
fn within_period(phase: u8) -> u8
    ensures { result ≡ phase % 100 }
{
    if phase < Machine::SECOND_PERIOD {
        return phase;
    }
    if phase < 2 * Machine::SECOND_PERIOD {
        return phase - Machine::SECOND_PERIOD;
    }
    phase - 2 * Machine::SECOND_PERIOD
}

// Whether a flashing lamp is lit in this phase.
#[tactic(auto, unfolding(crate::specs::Setting::is_lit))]
pub(crate) fn is_lit(kind: Kind, phase: u8) -> bool
    ensures { result ≡ is_lit kind phase }
{
    match kind {
        Kind::First => phase < Machine::LIT,
        Kind::Second => within_period(phase) < Machine::SECOND_LIT,
    }
}

impl Machine {
    // Whether a wait hides the device.
    #[tactic(auto, unfolding(crate::specs::Setting::hides))]
    pub(crate) fn hides(self) -> bool
        ensures { result ≡ hides self }
    {
        self.kind.is_second()
    }

    // Whether the security lock shows in BSTR.
    #[tactic(auto, unfolding(crate::specs::Setting::secured))]
    pub(crate) fn secured(self) -> bool
        ensures { result ≡ secured self }
    {
        !self.kind.is_second() | self.shared.seclock
    }

    // LOCK_MODE, LETR and 42h.
    #[tactic(auto, unfolding(crate::specs::Setting::first_setting))]
    fn first_setting(self) -> Setting
        ensures { result ≡ first_setting self }
    {
        Setting {
            pulsed: lock_mode(self.straps),
            pulse_high: false,
            pulse_ticks: pulse_ticks(self.shared.lock_time),
            wait_ticks: self.shared.wait_time as u16,
        }
    }

    // SFR.
    #[tactic(auto, unfolding(crate::specs::Setting::second_setting))]
    fn second_setting(self) -> Setting
        ensures { result ≡ second_setting self }
    {
        Setting {
            pulsed: self.second.pulsed(),
            pulse_high: true,
            pulse_ticks: self.second.pulse_ticks(),
            wait_ticks: self.second.wait_ticks(),
        }
    }

    #[tactic(auto, unfolding(crate::specs::Setting::setting_of))]
    pub(crate) fn setting(self) -> Setting
        ensures { result ≡ setting_of self }
    {
        match self.kind {
            Kind::First => self.first_setting(),
            Kind::Second => self.second_setting(),
        }
    }
}
