// A put and a take.
ghost use Rattle.std.specs.Prelude.{◌≡◌};
ghost use Rattle.queue.specs.Turns.{place, refused, put_of, take_of};

use crate::{Answer, PLACES, Queue, Refusal};

// The place so many after another, round the ring.
fn place(start: u16, after: u16) -> usize
    ensures { result ≡ place start after }
{
    (start as usize + after as usize) % PLACES
}

impl Queue {
    // The queue as it came.
    fn refused<T>(self, refusal: Refusal) -> Answer<T>
        ensures { result ≡ refused refusal self }
    {
        Answer {
            queue: self,
            outcome: Err(refusal),
        }
    }

    // Puts a word behind those that wait. Refusals 1 and 7, in that order.
    #[tactic(auto, unfolding(crate::specs::Record::in_range, crate::specs::Turns::put_of))]
    pub fn put(self, word: u16) -> Answer<()>
        ensures { result ≡ put_of self word }
    {
        if !self.fit() {
            return self.refused(Refusal::Unfit);
        }
        if self.count as usize == PLACES {
            return self.refused(Refusal::Full);
        }
        let mut queue = self;
        let at = place(self.start, self.count);
        queue.words[at] = word;
        queue.count += 1;
        Answer {
            queue,
            outcome: Ok(()),
        }
    }

    // Takes the word that has waited longest; the ring stays as it is. Refusals 1 and 8, in that order.
    #[tactic(auto, unfolding(crate::specs::Record::in_range, crate::specs::Turns::take_of))]
    pub fn take(self) -> Answer<u16>
        ensures { result ≡ take_of self }
    {
        if !self.fit() {
            return self.refused(Refusal::Unfit);
        }
        if self.count == 0 {
            return self.refused(Refusal::Empty);
        }
        Answer {
            queue: Queue {
                start: place(self.start, 1) as u16,
                count: self.count - 1,
                ..self
            },
            outcome: Ok(self.words[self.start as usize]),
        }
    }
}
