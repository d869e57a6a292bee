// A fresh record, what a RESET makes of one, and whether one is fit (document 03, "State").
ghost use Rattle.std.specs.Prelude.{◌≡◌};
ghost use Rattle.second.specs.Record.{fresh, reset, fits};

use crate::Second;

impl Second {
    // All 0 and unwritten.
    #[tactic(auto, unfolding(crate::specs::Record::fresh))]
    pub fn fresh() -> Second
        ensures { result ≡ fresh }
    {
        Second {
            subsystem: [0; Second::SUBSYSTEM],
            subsystem_written: [false; Second::SUBSYSTEM],
            form_factors: [0; Second::BAYS],
            form_factors_written: [false; Second::BAYS],
            sfr: 0,
            sfr_written: false,
        }
    }

    // A RESET into either kind: the subsystem words stay and can be written again, SFR is 0 and can be too. A form
    // factor is written once in the controller's life.
    #[tactic(auto, unfolding(crate::specs::Record::reset))]
    pub fn reset(self) -> Second
        ensures { result ≡ reset self }
    {
        Second {
            subsystem_written: [false; Second::SUBSYSTEM],
            sfr: 0,
            sfr_written: false,
            ..self
        }
    }

    // Whether each number of the record is one that the rules can make.
    #[tactic(auto, unfolding(crate::specs::Record::fits))]
    pub fn fit(self) -> bool
        ensures { result ≡ fits self }
    {
        (self.form_factors[0] <= Second::MOST_FORM_FACTOR)
            & (self.form_factors[1] <= Second::MOST_FORM_FACTOR)
    }
}
