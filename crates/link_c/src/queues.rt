// A queue that the caller holds, as the bytes of its image.
ghost use Rattle.std.specs.Prelude.{◌≡◌, length};
ghost use Rattle.queue.specs.Run.{put, take};
ghost use Rattle.link.specs.Queues.{begun, begun_in, answered_as, outcome_in, turned_in};

// Writes the image of a queue in which nothing waits.
#[unsafe(no_mangle)]
pub extern "C" fn dock_queue_begin(queue: &mut [u8]) -> u32
    ensures value { result ≡ begun (length queue.old) }
    ensures queue_after { queue.new ≡ begun_in queue.old }
{
    link::queues::dock_queue_begin(queue)
}

// Puts a word behind those that wait. Answers the refusal.
#[unsafe(no_mangle)]
pub extern "C" fn dock_queue_put(queue: &mut [u8], word: u16) -> u32
    ensures value { result ≡ answered_as (outcome_in queue.old (put word)) }
    ensures queue_after { queue.new ≡ turned_in queue.old (put word) }
{
    link::queues::dock_queue_put(queue, word)
}

// Takes the word that has waited longest. Answers the refusal and the word.
#[unsafe(no_mangle)]
pub extern "C" fn dock_queue_take(queue: &mut [u8]) -> u32
    ensures value { result ≡ answered_as (outcome_in queue.old take) }
    ensures queue_after { queue.new ≡ turned_in queue.old take }
{
    link::queues::dock_queue_take(queue)
}
