// What a bay drives (document 01, "Bay moves", outputs and interrupt; document 03, "Outputs").
ghost use Rattle.std.specs.Prelude.{◌≡◌};
ghost use Rattle.bay.specs.Outputs.{awaited, bay_outputs, interrupts};

use crate::moves::hidden;
use crate::{Bay, Setting};
use bits::put;

impl Bay {
    // The green lamp flashes for a device that is hidden, with DEVSTSCHG_EN.
    fn awaited(self, hides: bool) -> bool
        ensures { result ≡ awaited hides self }
    {
        hidden(hides, self.wait) & (self.state == Bay::EMPTY) & self.control.devstschg_en
    }

    // Power, lock pin, green and yellow, bit 3 to 0. `lit` is the half of the phase in which a flashing lamp is on.
    #[tactic(auto, unfolding(crate::specs::Outputs::bay_outputs, crate::specs::Outputs::lock_pin, crate::specs::Outputs::green, crate::specs::Outputs::yellow))]
    pub fn outputs(self, hides: bool, setting: Setting, lit: bool) -> u8
        ensures { result ≡ bay_outputs hides setting lit self }
    {
        let state = self.state;
        let lock_pin = (setting.pulsed & (setting.pulse_high == (0 < self.pulse)))
            | (!setting.pulsed & self.control.lock_ctl);
        let green = (state == Bay::ENABLED)
            | ((self.awaited(hides) | (state == Bay::INSERTED)) & lit);
        let yellow = (state == Bay::REMOVAL_REQUESTED) & lit;
        put(self.control.pwr_ctl, 8) + put(lock_pin, 4) + put(green, 2) + put(yellow, 1)
    }

    // The bay asks for the host.
    #[tactic(auto, unfolding(crate::specs::Outputs::interrupts))]
    pub fn interrupt(self) -> bool
        ensures { result ≡ interrupts self }
    {
        (self.remreq_sts & self.control.remreq_en) | (self.devstschg & self.control.devstschg_en)
    }
}
