// The controller's record: fresh, and fit.
ghost use Rattle.std.specs.Prelude.{◌≡◌};
ghost use Rattle.machine.specs.Record.{fits};
ghost use Rattle.dock.specs.Record.{fresh_controller};

use crate::Controller;
use bus::Progress;
use machine::Machine;

impl Controller {
    // A controller before its first RESET.
    #[tactic(auto, unfolding(crate::specs::Record::fresh_controller))]
    pub fn fresh() -> Controller
        ensures { result ≡ fresh_controller }
    {
        Controller {
            machine: Machine::fresh(),
            progress: Progress::Idle,
        }
    }

    // Whether each number of the record is one that the rules can make: a command in progress may hold any.
    pub fn fit(self) -> bool
        ensures { result ≡ fits self.machine }
    {
        self.machine.fit()
    }
}
