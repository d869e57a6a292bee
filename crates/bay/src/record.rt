// The records that a closing and a RESET make, and whether a record is fit.
ghost use Rattle.std.specs.Prelude.{◌≡◌};
ghost use Rattle.bay.specs.Record.{locked_control, empty_bay, reset_bay, bay_fit};

use crate::{Bay, Control};
use bits::has;

impl Control {
    // All 0 but LOCK_CTL.
    fn locked(lock_ctl: bool) -> Control
        ensures { result ≡ locked_control lock_ctl }
    {
        Control {
            lock_ctl,
            request: 0,
            remreq_en: false,
            devstschg_en: false,
            remevtwak_en: false,
            pwr_ctl: false,
        }
    }
}

impl Bay {
    // Levels 1, the rest 0.
    #[tactic(auto, unfolding(crate::specs::Record::empty_bay))]
    pub fn empty() -> Bay
        ensures { result ≡ empty_bay }
    {
        Bay {
            levels: [true; Bay::INPUTS],
            accepted: [true; Bay::INPUTS],
            counts: [0; Bay::INPUTS],
            n_sl: true,
            state: Bay::EMPTY,
            remreq_sts: false,
            devstschg: false,
            control: Control::locked(false),
            pulse: 0,
            wait: 0,
        }
    }

    // RESET, with the bay's four levels, nSL lowest, and what LOCK_CTL starts as.
    #[tactic(auto, unfolding(crate::specs::Record::reset_bay, crate::specs::Record::empty_bay))]
    pub fn reset(levels: u8, lock_ctl: bool) -> Bay
        ensures { result ≡ reset_bay levels lock_ctl }
    {
        let n1394 = has(levels, 8);
        let nusb = has(levels, 4);
        let nremreq = has(levels, 2);
        Bay {
            levels: [n1394, nusb, nremreq],
            accepted: [n1394, nusb, nremreq],
            n_sl: has(levels, 1),
            devstschg: !n1394 | !nusb,
            control: Control::locked(lock_ctl),
            ..Bay::empty()
        }
    }

    // Whether each number of the record is one that the rules can make, with pulses and waits up to these.
    #[tactic(auto, unfolding(crate::specs::Record::bay_fit))]
    pub fn fit(self, most_pulse: u16, most_wait: u16) -> bool
        ensures { result ≡ bay_fit most_pulse most_wait self }
    {
        (self.counts[Bay::N1394] < Bay::PRESENCE_TICKS)
            & (self.counts[Bay::NUSB] < Bay::PRESENCE_TICKS)
            & (self.counts[Bay::NREMREQ] < Bay::REMREQ_TICKS)
            & (self.state <= Bay::REMOVAL_ALLOWED)
            & (self.control.request <= Bay::REMOVAL_ALLOWED)
            & (self.pulse <= most_pulse)
            & (self.wait <= most_wait)
    }
}
