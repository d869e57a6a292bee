// The queue of waiting words: one that the caller holds, as the bytes of its image.
ghost use Rattle.std.specs.Prelude.{◌≡◌, length};
ghost use Rattle.queue.specs.Run.{put, take, no_word};
ghost use Rattle.link.specs.Queues.{begun, begun_in, answered_as, held_in, outcome_in, turned_in};

use crate::answer::both;
use queue::{Queue, Refusal, number, word};
use queue_image::load::queue_of;
use queue_image::save::{save, save_put, save_take};

// The refusal and the word.
fn answered(outcome: Result<u16, Refusal>) -> u32
    ensures { result ≡ answered_as outcome }
{
    both(number(outcome), word(outcome))
}

// Writes the image of a queue in which nothing waits.
#[tactic(auto, unfolding(crate::specs::Queues::begun, crate::specs::Queues::begun_in, queue_image::specs::Save::saved_in))]
pub fn dock_queue_begin(queue: &mut [u8]) -> u32
    ensures value { result ≡ begun (length queue.old) }
    ensures queue_after { queue.new ≡ begun_in queue.old }
{
    if queue.len() != queue_image::BYTES {
        return answered(Err(Refusal::Unfit));
    }
    save(Queue::empty(), queue);
    both(0, 0)
}

// The queue of an image, fit or not.
#[tactic(auto, unfolding(queue_image::specs::Load::queue_of))]
fn held(image: &[u8]) -> Result<Queue, Refusal>
    ensures { result ≡ held_in image.now }
{
    queue_of(image).ok_or(Refusal::Unfit)
}

fn put(image: &mut [u8], word: u16) -> Result<(), Refusal>
    ensures value { no_word result ≡ outcome_in image.old (put word) }
    ensures image_after { image.new ≡ turned_in image.old (put word) }
{
    let answer = held(&*image)?.put(word);
    answer.outcome?;
    save_put(answer.queue, word, image);
    Ok(())
}

// Puts a word behind those that wait. Answers the refusal.
pub fn dock_queue_put(queue: &mut [u8], word: u16) -> u32
    ensures value { result ≡ answered_as (outcome_in queue.old (put word)) }
    ensures queue_after { queue.new ≡ turned_in queue.old (put word) }
{
    answered(put(queue, word).map(|()| 0))
}

fn take(image: &mut [u8]) -> Result<u16, Refusal>
    ensures value { result ≡ outcome_in image.old take }
    ensures image_after { image.new ≡ turned_in image.old take }
{
    let answer = held(&*image)?.take();
    let word = answer.outcome?;
    save_take(answer.queue, image);
    Ok(word)
}

// Takes the word that has waited longest. Answers the refusal and the word.
pub fn dock_queue_take(queue: &mut [u8]) -> u32
    ensures value { result ≡ answered_as (outcome_in queue.old take) }
    ensures queue_after { queue.new ≡ turned_in queue.old take }
{
    answered(take(queue))
}
