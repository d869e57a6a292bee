// Writing an image.
ghost use Rattle.std.specs.Prelude.{◌≡◌, [], ◌∷◌, length};
ghost use Rattle.pairs.specs.Pairs.{bytes_of};
ghost use Rattle.queue_image.specs.Layout.{BYTES, START};
ghost use Rattle.queue_image.specs.Save.{over, saved_in, newest, put_in, take_in};

use crate::ring::write;
use crate::{BYTES, COUNT, LAYOUT, START, VERSION, WORDS};
use queue::{PLACES, Queue};

// Writes start and count.
#[tactic(auto, unfolding(pairs::specs::Pairs::bytes_of))]
fn numbers(start: u16, count: u16, image: &mut [u8])
    requires { length image.old ≡ BYTES }
    ensures { image.new ≡ over START (bytes_of (start ∷ count ∷ [])) image.old }
{
    write(&[start, count], &mut image[START..WORDS]);
}

// Writes the image of a queue into bytes that are as many as an image has; others stay as they are.
#[tactic(auto, unfolding(crate::specs::Save::saved_in, crate::specs::Save::saved, pairs::specs::Pairs::bytes_of))]
pub fn save(queue: Queue, image: &mut [u8])
    ensures { image.new ≡ saved_in queue image.old }
{
    if image.len() != BYTES {
        return;
    }
    image[VERSION] = LAYOUT;
    numbers(queue.start, queue.count, image);
    write(&queue.words, &mut image[WORDS..]);
}

// The place of the word that was put last.
fn newest(start: u16, count: u16) -> usize
    ensures { result ≡ newest start count }
{
    (start as usize + count as usize + (PLACES - 1)) % PLACES
}

// After a put of this word, what it changed: the count, and the word at its place. The word comes by itself, so that
// nobody looks for it in the ring.
#[tactic(auto, unfolding(crate::specs::Save::put_in, pairs::specs::Pairs::bytes_of))]
pub fn save_put(queue: Queue, word: u16, image: &mut [u8])
    ensures { image.new ≡ put_in queue word image.old }
{
    if image.len() != BYTES {
        return;
    }
    let at = WORDS + 2 * newest(queue.start, queue.count);
    write(&[queue.count], &mut image[COUNT..WORDS]);
    write(&[word], &mut image[at..at + 2]);
}

// After a take, what it changed: start and count.
#[tactic(auto, unfolding(crate::specs::Save::take_in))]
pub fn save_take(queue: Queue, image: &mut [u8])
    ensures { image.new ≡ take_in queue image.old }
{
    if image.len() != BYTES {
        return;
    }
    numbers(queue.start, queue.count, image);
}
