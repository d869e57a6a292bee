// Reading one.
ghost use Rattle.std.specs.Prelude.{◌≡◌, length};
ghost use Rattle.queue_image.specs.Layout.{BYTES};
ghost use Rattle.queue_image.specs.Load.{is_image, queue_in, queue_of, load_of};

use crate::ring::read;
use crate::{BYTES, COUNT, LAYOUT, START, VERSION, WORDS};
use pairs::wide;
use queue::Queue;

// Whether bytes are the image of a queue, fit or not.
#[tactic(auto, unfolding(crate::specs::Load::is_image))]
pub fn is_image(image: &[u8]) -> bool
    ensures { result ≡ is_image image.now }
{
    image.len() == BYTES && image[VERSION] == LAYOUT
}

// The queue of as many bytes as an image has. The ring comes first, into the record itself: where start and count are all
// that is looked at, the compiler then leaves the ring out.
#[tactic(auto, unfolding(crate::specs::Load::queue_in))]
fn queue_in(image: &[u8]) -> Queue
    requires { length image.now ≡ BYTES }
    ensures { result ≡ queue_in image.now }
{
    let mut queue = Queue::empty();
    read(&image[WORDS..], &mut queue.words);
    queue.start = wide(image[START], image[START + 1]);
    queue.count = wide(image[COUNT], image[COUNT + 1]);
    queue
}

// The queue of an image; other bytes are none.
#[tactic(auto, using(crate::proofs::RoundTrip::parts), unfolding(crate::specs::Load::queue_of))]
pub fn queue_of(image: &[u8]) -> Option<Queue>
    ensures { result ≡ queue_of image.now }
{
    if !is_image(image) {
        return None;
    }
    Some(queue_in(image))
}

// The queue of an image; an empty one where the bytes are none.
#[tactic(auto, unfolding(crate::specs::Load::load_of, crate::specs::Load::queue_of))]
pub fn load(image: &[u8]) -> Queue
    ensures { result ≡ load_of image.now }
{
    queue_of(image).unwrap_or(Queue::empty())
}
