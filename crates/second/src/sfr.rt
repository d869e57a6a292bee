// What SFR means (document 03, "Registers" and "Bay moves"): bits 7-5 ITO, 4-1 SOL, 0 SPD.
ghost use Rattle.std.specs.Prelude.{◌≡◌};
ghost use Rattle.second.specs.Sfr.{wait_ticks_of, pulsed, pulse_ticks_of};

use crate::Second;
use bits::has;

impl Second {
    // For so many ticks a device seats that arrives: 800 ms for each of ITO.
    #[tactic(auto, unfolding(crate::specs::Sfr::wait_ticks_of))]
    pub fn wait_ticks(self) -> u16
        ensures { result ≡ wait_ticks_of self }
    {
        (self.sfr / 32 % 8) as u16 * Second::LONG
    }

    // The lock is pulsed where SOL is above 0.
    #[tactic(auto, unfolding(crate::specs::Sfr::pulsed))]
    pub fn pulsed(self) -> bool
        ensures { result ≡ pulsed self }
    {
        0 < self.sfr / 2 % 16
    }

    // A pulse's ticks: 50 ms for each of SOL, or 800 ms with SPD.
    #[tactic(auto, unfolding(crate::specs::Sfr::pulse_ticks_of))]
    pub fn pulse_ticks(self) -> u16
        ensures { result ≡ pulse_ticks_of self }
    {
        let sol = (self.sfr / 2 % 16) as u16;
        if has(self.sfr, 1) {
            sol * Second::LONG
        } else {
            sol * Second::SHORT
        }
    }
}
