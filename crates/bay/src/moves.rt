// What a TICK makes of a bay (document 01, "Bay moves"; document 03, "Bay moves"): the wait goes on, and then at most one
// move, presence first.
ghost use Rattle.std.specs.Prelude.{◌≡◌, ◌<◌, Bool, true, false, ◌-◌};
ghost use Rattle.bay.specs.Record.{INPUTS, contact as record_contact, hidden, shown, present as record_present};
ghost use Rattle.bay.specs.Moves.{input, inputs_of, leaves, changes, moved_bay, moved_to, ticked_bay, rests, begins, begun, wait_after, inserts, at_once, state_after, control_after, in_use};
ghost use Rattle.bay.specs.declared.Setting.{Setting};

use crate::debounce::{debounced, ticks_for};
use crate::{Bay, Control, Input, Inputs};

// A device that seats is hidden, where a wait does that.
pub(crate) fn hidden(hides: bool, wait: u16) -> bool
    ensures { result ≡ hidden hides wait }
{
    hides & (0 < wait)
}

// A presence bit shows its contact, unless the device is hidden.
pub(crate) fn shown(hides: bool, wait: u16, accepted: bool) -> bool
    ensures { result ≡ shown hides wait accepted }
{
    !hidden(hides, wait) & !accepted
}

// A device that comes, or that a write finds, is Inserted at once.
pub(crate) fn at_once(hides: bool, ticks: u16) -> bool
    ensures { result ≡ at_once hides ticks }
{
    hides | (ticks == 0)
}

impl Bay {
    // A contact is closed, by the accepted levels.
    #[tactic(auto, unfolding(crate::specs::Record::contact))]
    fn contact(self) -> bool
        ensures { result ≡ record_contact self }
    {
        !self.accepted[Bay::N1394] | !self.accepted[Bay::NUSB]
    }

    // A device is in the bay, and not hidden.
    #[tactic(auto, unfolding(crate::specs::Record::present))]
    pub fn present(self, hides: bool) -> bool
        ensures { result ≡ record_present hides self }
    {
        !hidden(hides, self.wait) & self.contact()
    }

    // A press can ask for the device in these states.
    #[tactic(auto, unfolding(crate::specs::Moves::in_use))]
    pub(crate) fn in_use(self) -> bool
        ensures { result ≡ in_use self }
    {
        (self.state == Bay::INSERTED) | (self.state == Bay::ENABLED)
    }

    // A TICK with this contact begins a wait.
    fn begins(self, hides: bool, before: bool, now: bool) -> bool
        requires { before ≡ record_contact self }
        ensures { result ≡ begins hides self now }
    {
        let new = !before & now;
        if hides {
            new & !(0 < self.wait)
        } else {
            new & self.control.devstschg_en
        }
    }

    // The wait after a TICK with this contact.
    #[tactic(auto, unfolding(crate::specs::Moves::wait_after))]
    fn wait_after(self, hides: bool, ticks: u16, now: bool) -> u16
        ensures { result ≡ wait_after hides ticks self now }
    {
        let before = self.contact();
        if (hides | before) & !now {
            return 0;
        }
        if self.begins(hides, before, now) {
            begun(ticks, self.wait)
        } else {
            fallen(self.wait)
        }
    }

    // A TICK in which no device leaves makes the bay Inserted.
    #[tactic(auto, unfolding(crate::specs::Moves::inserts))]
    fn inserts(self, hides: bool, ticks: u16, arrives: bool) -> bool
        ensures { result ≡ inserts hides ticks self arrives }
    {
        if arrives & self.control.devstschg_en {
            at_once(hides, ticks)
        } else {
            !hides & (self.wait == 1)
        }
    }

    // The one move of such a TICK.
    #[tactic(auto, unfolding(crate::specs::Moves::state_after))]
    fn state_after(self, hides: bool, ticks: u16, arrives: bool, heeded: bool) -> u8
        ensures { result ≡ state_after hides ticks self false arrives heeded }
    {
        if self.inserts(hides, ticks, arrives) {
            return Bay::INSERTED;
        }
        if heeded & self.control.remreq_en & !self.remreq_sts & self.in_use() {
            return Bay::REMOVAL_REQUESTED;
        }
        self.state
    }

    // A presence bit shows another contact after a TICK with this wait and these inputs.
    #[tactic(auto, unfolding(crate::specs::Moves::changes))]
    fn changes(self, hides: bool, wait: u16, inputs: Inputs) -> bool
        ensures { result ≡ changes hides self wait inputs.n1394 inputs.nusb }
    {
        (shown(hides, self.wait, self.accepted[Bay::N1394])
            != shown(hides, wait, inputs.n1394.accepted))
            | (shown(hides, self.wait, self.accepted[Bay::NUSB])
                != shown(hides, wait, inputs.nusb.accepted))
    }

    // One input after a TICK.
    fn input(self, i: usize) -> Input
        requires { i < INPUTS }
        ensures { result ≡ input self i }
    {
        debounced(
            ticks_for(i),
            self.levels[i],
            self.accepted[i],
            self.counts[i],
        )
    }

    // The inputs after a TICK.
    pub fn inputs(self) -> Inputs
        ensures { result ≡ inputs_of self }
    {
        Inputs {
            n1394: self.input(Bay::N1394),
            nusb: self.input(Bay::NUSB),
            nremreq: self.input(Bay::NREMREQ),
        }
    }

    // A device leaves in a TICK with this wait and these inputs, whatever ticks there are to wait. The pulse has fallen already.
    #[tactic(auto, using(crate::proofs::Ticks::left))]
    fn left(self, hides: bool, pulse: u16, wait: u16, change: bool, inputs: Inputs) -> Bay
        requires pulse_value { pulse ≡ self.pulse - 1 }
        requires change_value { change ≡ changes hides self wait inputs.n1394 inputs.nusb }
        requires nusb_value { leaves hides self wait inputs.n1394 inputs.nusb ≡ true }
        ensures { result ≡ moved_to hides 0 self wait inputs.n1394 inputs.nusb inputs.nremreq }
    {
        let Inputs {
            n1394,
            nusb,
            nremreq,
        } = inputs;
        let quiet = (self.state == Bay::REMOVAL_ALLOWED) & !self.control.remevtwak_en;
        Bay {
            counts: [n1394.count, nusb.count, nremreq.count],
            accepted: [n1394.accepted, nusb.accepted, nremreq.accepted],
            devstschg: self.devstschg | (change & !quiet),
            state: Bay::EMPTY,
            control: self.control.released(),
            pulse,
            wait,
            ..self
        }
    }

    // What a TICK makes of the bay, with its inputs. A press is heeded only over a device, so not as one leaves.
    #[tactic(auto, using(crate::proofs::Ticks::left, crate::proofs::Ticks::stayed), unfolding(crate::specs::Moves::moved_bay))]
    pub fn moved(self, hides: bool, ticks: u16, inputs: Inputs) -> Bay
        ensures { result ≡ moved_bay hides ticks self inputs.n1394 inputs.nusb inputs.nremreq }
    {
        let Inputs {
            n1394,
            nusb,
            nremreq,
        } = inputs;
        let now = !n1394.accepted | !nusb.accepted;
        let wait = self.wait_after(hides, ticks, now);
        let change = self.changes(hides, wait, inputs);
        let before = self.present(hides);
        let after = !hidden(hides, wait) & now;
        let pulse = fallen(self.pulse);
        if before & !after {
            return self.left(hides, pulse, wait, change, inputs);
        }
        let arrives = !before & after;
        let heeded = nremreq.settled & !nremreq.accepted & after;
        Bay {
            counts: [n1394.count, nusb.count, nremreq.count],
            accepted: [n1394.accepted, nusb.accepted, nremreq.accepted],
            remreq_sts: self.remreq_sts | heeded,
            devstschg: self.devstschg | change,
            state: self.state_after(hides, ticks, arrives, heeded),
            pulse,
            wait,
            ..self
        }
    }

    // A TICK finds nothing to do, and leaves the bay as it is: every level is the accepted one, no device seats and no pulse runs.
    #[tactic(auto, using(crate::proofs::Ticks::at_rest), unfolding(crate::specs::Moves::rests))]
    pub fn rests(self) -> bool
        ensures value { result ≡ rests self }
        ensures self_value { result ≡ true → (hides : Bool) (s : Setting) → ticked_bay hides s self ≡ self }
    {
        (self.levels[Bay::N1394] == self.accepted[Bay::N1394])
            & (self.levels[Bay::NUSB] == self.accepted[Bay::NUSB])
            & (self.levels[Bay::NREMREQ] == self.accepted[Bay::NREMREQ])
            & (self.wait == 0)
            & (self.pulse == 0)
    }
}

impl Control {
    // The device has left: stored request 0, PWR_CTL 0.
    fn released(mut self) -> Control
        ensures { result ≡ control_after true self }
    {
        self.request = 0;
        self.pwr_ctl = false;
        self
    }
}

// A pulse or a wait above 0 falls by one.
fn fallen(ticks: u16) -> u16
    ensures { result ≡ ticks - 1 }
{
    if ticks == 0 { 0 } else { ticks - 1 }
}

// A wait begins with so many ticks; with 0 none begins.
#[tactic(auto, unfolding(crate::specs::Moves::begun))]
pub(crate) fn begun(ticks: u16, wait: u16) -> u16
    ensures { result ≡ begun ticks wait }
{
    if ticks == 0 { wait } else { ticks }
}
