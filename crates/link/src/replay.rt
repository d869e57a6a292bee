// A whole history in one call.
ghost use Rattle.std.specs.Prelude.{◌≡◌, length};
ghost use Rattle.dock.specs.Record.{fresh_controller};
ghost use Rattle.batch.specs.Batch.{outcome_of, buffer_after};
ghost use Rattle.link.specs.Answer.{batched_as};

use crate::answer::counted;
use crate::held::run;
use image::save::fresh;

// Replays words from a fresh controller, a record for each. Answers the refusal and the count.
#[tactic(auto, using(crate::proofs::Counts::held_most, crate::proofs::Saved::fresh_outcome, crate::proofs::Saved::fresh_records))]
pub fn dock_replay(words: &[u16], records: &mut [u8]) -> u32
    ensures value { result ≡ batched_as (outcome_of fresh_controller (length words.now) (length records.old)) }
    ensures records_after { records.new ≡ buffer_after fresh_controller words.now records.old }
{
    let mut state = fresh();
    counted(run(&mut state, words, records))
}
