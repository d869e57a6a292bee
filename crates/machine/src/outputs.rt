// The nine outputs (document 01, "Replies and refusal numbers" and "Bay moves").
ghost use Rattle.std.specs.Prelude.{◌≡◌};
ghost use Rattle.machine.specs.Outputs.{outputs};

use crate::Machine;
use crate::setting::is_lit;
use bits::put;

impl Machine {
    // Bit 8 to 0: bay 0's power, lock pin, green, yellow, the same for bay 1, interrupt asserted.
    #[tactic(auto, unfolding(crate::specs::Outputs::outputs, crate::specs::Outputs::nibble, crate::specs::Outputs::wants, crate::specs::Record::bay_in, crate::specs::Record::open_by))]
    pub fn outputs(self) -> u16
        ensures { result ≡ outputs self }
    {
        if !self.started {
            return 0;
        }
        let open = self.shared.is_open(1);
        let hides = self.hides();
        let setting = self.setting();
        let lit = is_lit(self.kind, self.phase);
        let first = self.bays[0].outputs(hides, setting, lit);
        let other = if open {
            self.bays[1].outputs(hides, setting, lit)
        } else {
            0
        };
        let wanted = self.bays[0].interrupt() | (open & self.bays[1].interrupt());
        first as u16 * 32 + other as u16 * 2 + put(wanted, 1) as u16
    }
}
