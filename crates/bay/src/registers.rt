// A bay's two registers (document 01, "Registers"): BSTR and BCER as they read, and what a write does.
ghost use Rattle.std.specs.Prelude.{◌≡◌};
ghost use Rattle.bay.specs.Registers.{bstr_of, bcer_of, bstr_written, control_of, asks, finds, state_written, wait_written, request_written, control_written, pulse_written, controlled_bay, control_unlocked, unlocked_bay};

use crate::moves::{at_once, begun, shown};
use crate::{Bay, Control, Setting};
use bits::{has, put};

impl Bay {
    // BSTR as it reads. `secured` is whether the security lock shows.
    #[tactic(auto, unfolding(crate::specs::Registers::bstr_of))]
    pub fn bstr(self, hides: bool, secured: bool) -> u8
        ensures { result ≡ bstr_of hides secured self }
    {
        put(secured & !self.n_sl, 128)
            + self.state % 8 * 16
            + put(self.remreq_sts, 8)
            + put(self.devstschg, 4)
            + put(shown(hides, self.wait, self.accepted[Bay::N1394]), 2)
            + put(shown(hides, self.wait, self.accepted[Bay::NUSB]), 1)
    }

    // BCER as it reads.
    #[tactic(auto, unfolding(crate::specs::Registers::bcer_of))]
    pub fn bcer(self) -> u8
        ensures { result ≡ bcer_of self }
    {
        put(self.control.lock_ctl, 128)
            + self.control.request % 8 * 16
            + put(self.control.remreq_en, 8)
            + put(self.control.devstschg_en, 4)
            + put(self.control.remevtwak_en, 2)
            + put(self.control.pwr_ctl, 1)
    }

    // A write to BSTR: 1 clears REMREQ_STS or DEVSTSCHG.
    #[tactic(auto, unfolding(crate::specs::Registers::bstr_written))]
    pub fn with_bstr(self, value: u8) -> Bay
        ensures { result ≡ bstr_written value self }
    {
        Bay {
            remreq_sts: self.remreq_sts & !has(value, 8),
            devstschg: self.devstschg & !has(value, 4),
            ..self
        }
    }

    // The lock opens, as SFR is first written: power goes with it, and there is no pulse.
    #[tactic(auto, unfolding(crate::specs::Registers::unlocked_bay))]
    pub fn unlocked(self) -> Bay
        ensures { result ≡ unlocked_bay self }
    {
        Bay {
            control: self.control.unlocked(),
            pulse: 0,
            ..self
        }
    }

    // The write brings DEVSTSCHG_EN from 0 to 1 in Empty, with a device.
    #[tactic(auto, unfolding(crate::specs::Registers::finds))]
    fn finds(self, c: Control, present: bool) -> bool
        ensures { result ≡ finds c present self }
    {
        c.devstschg_en & !self.control.devstschg_en & (self.state == Bay::EMPTY) & present
    }

    // The state after a write: the first move that applies.
    #[tactic(auto, unfolding(crate::specs::Registers::state_written))]
    fn state_written(self, hides: bool, c: Control, present: bool, ticks: u16) -> u8
        ensures { result ≡ state_written hides ticks c present self }
    {
        if c.asks() & present {
            return c.request;
        }
        if self.finds(c, present) & at_once(hides, ticks) {
            return Bay::INSERTED;
        }
        if c.remreq_en & !self.control.remreq_en & self.remreq_sts & self.in_use() {
            return Bay::REMOVAL_REQUESTED;
        }
        self.state
    }

    // The wait after a write: one that hides the device goes on; else DEVSTSCHG_EN written 0 or a request over a device ends
    // it, and a device that is found begins one.
    #[tactic(auto, unfolding(crate::specs::Registers::wait_written))]
    fn wait_written(self, hides: bool, c: Control, present: bool, ticks: u16) -> u16
        ensures { result ≡ wait_written hides ticks c present self }
    {
        if hides {
            return self.wait;
        }
        if !c.devstschg_en | (c.asks() & present) {
            return 0;
        }
        if self.finds(c, present) {
            begun(ticks, self.wait)
        } else {
            self.wait
        }
    }

    // Where the lock is pulsed, LOCK_CTL from 1 to 0 starts a pulse of `ticks`.
    #[tactic(auto, unfolding(crate::specs::Registers::pulse_written))]
    fn pulse_written(self, c: Control, pulsed: bool, ticks: u16) -> u16
        ensures { result ≡ pulse_written c pulsed ticks self }
    {
        if pulsed & self.control.lock_ctl & !c.lock_ctl {
            ticks
        } else {
            self.pulse
        }
    }

    // What a driver's write does.
    #[tactic(auto, unfolding(crate::specs::Registers::controlled_bay))]
    pub fn controlled(self, hides: bool, c: Control, setting: Setting) -> Bay
        ensures { result ≡ controlled_bay hides c setting self }
    {
        let present = self.present(hides);
        Bay {
            state: self.state_written(hides, c, present, setting.wait_ticks),
            control: self.control.written(c, present),
            pulse: self.pulse_written(c, setting.pulsed, setting.pulse_ticks),
            wait: self.wait_written(hides, c, present, setting.wait_ticks),
            ..self
        }
    }
}

// What a byte written to BCER asks.
impl From<u8> for Control {
    #[tactic(auto, unfolding(crate::specs::Registers::control_of))]
    fn from(value: u8) -> Control
        ensures { result ≡ control_of value }
    {
        Control {
            lock_ctl: has(value, 128),
            request: value / 16 % 8,
            remreq_en: has(value, 8),
            devstschg_en: has(value, 4),
            remevtwak_en: has(value, 2),
            pwr_ctl: has(value, 1),
        }
    }
}

impl Control {
    // LOCK_CTL 0, PWR_CTL 0.
    fn unlocked(mut self) -> Control
        ensures { result ≡ control_unlocked self }
    {
        self.lock_ctl = false;
        self.pwr_ctl = false;
        self
    }

    // A request that is stored: 0 and 5-7 keep the old one.
    #[tactic(auto, unfolding(crate::specs::Registers::asks))]
    fn asks(self) -> bool
        ensures { result ≡ asks self }
    {
        (Bay::EMPTY < self.request) & (self.request <= Bay::REMOVAL_ALLOWED)
    }

    // The stored request after a write.
    #[tactic(auto, unfolding(crate::specs::Registers::request_written))]
    fn request_written(self, c: Control) -> u8
        ensures { result ≡ request_written c self }
    {
        if c.asks() { c.request } else { self.request }
    }

    // BCER after a write: power only with the lock and a device.
    fn written(self, c: Control, present: bool) -> Control
        ensures { result ≡ control_written c present self }
    {
        Control {
            request: self.request_written(c),
            pwr_ctl: c.pwr_ctl & c.lock_ctl & present,
            ..c
        }
    }
}
