// The held state: a fresh one, which ones are fit, and what one sample makes of it.
ghost use Rattle.std.specs.Prelude.{◌≡◌};
ghost use Rattle.wire.specs.Record.{fresh_wire, fits};
ghost use Rattle.wire.specs.Hear.{hear_of};

use crate::{Ear, Heard, Lines, Listening, Told, Wire};

impl Wire {
    // Both lines are high, and nothing is listened for.
    #[tactic(auto, unfolding(crate::specs::Record::fresh_wire))]
    pub fn fresh() -> Wire
        ensures { result ≡ fresh_wire }
    {
        Wire {
            lines: Lines { sdat: true, low: 0 },
            ear: Ear::waiting(Listening::Nothing),
        }
    }

    // At most eight bits, and a low run that has ended in a TIMEOUT or before it.
    #[tactic(auto, unfolding(crate::specs::Record::fits))]
    pub fn fit(self) -> bool
        ensures { result ≡ fits self }
    {
        (self.ear.bits <= Ear::BITS) & (self.lines.low <= Lines::MOST_LOW + 1)
    }

    // One sample. Most show nothing, and leave what has come of a byte where it is. It is defined for a state that isn't
    // fit too.
    #[tactic(auto, unfolding(crate::specs::Nine::tells, crate::specs::Hear::hear_of))]
    pub fn hear(self, sample: u8) -> Heard
        ensures { result ≡ hear_of self sample }
    {
        let shown = self.lines.shown(sample);
        let lines = self.lines.after(sample);
        let Some(shown) = shown else {
            return Heard {
                wire: Wire { lines, ..self },
                given: None,
            };
        };
        let Told { ear, given } = self.ear.hears(shown);
        Heard {
            wire: Wire { lines, ear },
            given,
        }
    }
}
