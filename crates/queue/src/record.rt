// The queue in which nothing waits yet, and which records are fit.
ghost use Rattle.std.specs.Prelude.{◌≡◌};
ghost use Rattle.queue.specs.Record.{empty_queue, fits};

use crate::{PLACES, Queue};

impl Queue {
    #[tactic(auto, unfolding(crate::specs::Record::empty_queue))]
    pub fn empty() -> Queue
        ensures { result ≡ empty_queue }
    {
        Queue {
            words: [0; PLACES],
            start: 0,
            count: 0,
        }
    }

    // Whether start and count are ones that a record may have.
    #[tactic(auto, unfolding(crate::specs::Record::in_range))]
    pub(crate) fn fit(&self) -> bool
        ensures { result ≡ fits self.now }
    {
        (self.start as usize) < PLACES && self.count as usize <= PLACES
    }
}
