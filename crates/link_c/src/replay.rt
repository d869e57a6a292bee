// Words from a fresh state.
ghost use Rattle.std.specs.Prelude.{◌≡◌, length};
ghost use Rattle.dock.specs.Record.{fresh_controller};
ghost use Rattle.batch.specs.Batch.{outcome_of, buffer_after};
ghost use Rattle.link.specs.Answer.{batched_as};

// Replays words from a fresh controller, a record for each. Answers the refusal and the count.
#[unsafe(no_mangle)]
pub extern "C" fn dock_replay(words: &[u16], records: &mut [u8]) -> u32
    ensures value { result ≡ batched_as (outcome_of fresh_controller (length words.now) (length records.old)) }
    ensures records_after { records.new ≡ buffer_after fresh_controller words.now records.old }
{
    link::replay::dock_replay(words, records)
}
