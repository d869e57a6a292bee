// A program that hears an input in pieces and puts out a text: the loop over a piece, and the run from one read to the next.
ghost use Rattle.std.specs.Prelude.{◌≡◌, ◌+◌, ◌*◌, ◌<◌, ◌≤◌, [], ◌∷◌, ◌++◌, length, Err, OnOk, IfErr};
ghost use Rattle.std.specs.Io.KnownBytes.{Appends, IsAtEnd};
ghost use Rattle.lines.specs.declared.reads.Stopped.TheVariants.{Unread, Unwritten};
ghost use Rattle.lines.specs.Text.{PAGE};
ghost use Rattle.lines.specs.Telling.{Tells, run_text};

use crate::reads::{Stopped, answered};
use crate::text::Page;
use std::io::{Read, Write};

// What a program does with a byte. Its text goes behind what was put out before.
pub trait Telling {
    ghost use Rattle.std.specs.Prelude.{◌≡◌, ℕ, ◌+◌, ◌≤◌, List, [], ◌∷◌, ◌++◌, length};
    ghost use Rattle.lines.specs.Telling.{TellingLaws};
    ghost use Rattle.lines.specs.Text.{PAGE};

    // The text of some bytes, the state after them, and the text at the end of the input.
    ghost text: { Self → List ℕ → List ℕ };

    ghost after: { Self → List ℕ → Self };

    ghost ending: { Self → List ℕ };

    // The most characters that so many bytes give, and whether so many can still be counted.
    ghost most: { ℕ → ℕ };

    ghost hears: { Self → ℕ → Type 0 };

    ghost laws: { TellingLaws text after ending most hears };

    fn hear(&mut self, byte: u8, page: &mut Page)
        requires countable { hears self.old 1 }
        requires room { length page.old.items + length (text self.old (byte ∷ [])) ≤ PAGE }
        ensures state { self.new ≡ after self.old (byte ∷ []) }
        ensures written { page.new.items ≡ page.old.items ++ text self.old (byte ∷ []) };

    fn finish(&self, page: &mut Page)
        requires { length page.old.items + length (ending self.now) ≤ PAGE }
        ensures { page.new.items ≡ page.old.items ++ ending self.now };
}

// A piece of the input.
#[tactic(auto, using(crate::proofs::Telling::none_heard, crate::proofs::Telling::one_counts, crate::proofs::Telling::one_fits, crate::proofs::Telling::one_more, crate::proofs::Telling::all_heard))]
pub fn feed<T: Telling>(teller: &mut T, input: &[u8], page: &mut Page)
    requires countable { T.hears teller.old (length input.now) }
    requires room { length page.old.items + length (T.text teller.old input.now) ≤ PAGE }
    ensures state { teller.new ≡ T.after teller.old input.now }
    ensures written { page.new.items ≡ page.old.items ++ T.text teller.old input.now }
{
    for byte in input {
        teller.hear(*byte, page);
    }
}

// Writes what stands in the page, which is empty then.
fn put_out<W: Write>(page: &mut Page, out: &mut W) -> Result<(), Stopped>
    ensures empty { page.new.items ≡ [] }
    ensures failed { IfErr result (λ e. e ≡ Unwritten) }
    ensures told { OnOk result (Appends (W.contents out.old) (W.contents out.new) page.old.items) }
{
    let told = out.write_all(page.as_slice());
    page.clear();
    told.map_err(|_| Stopped::Unwritten)
}

// Tells what stands in the page, and then each piece that a read gives, at once: where a later one fails, the text of what had
// come is written. The reads are counted, since a proved loop ends.
#[tactic(auto, using(crate::proofs::Running::running_first, crate::proofs::Running::piece_counts, crate::proofs::Running::running_on, crate::proofs::Running::running_out, crate::proofs::Running::running_unread, crate::proofs::Known::some_came, crate::proofs::Known::none_came, crate::proofs::Known::none_lost))]
pub fn run<T: Telling, R: Read, W: Write>(
    teller: &mut T,
    page: &mut Page,
    piece: &mut [u8],
    reads: u64,
    input: &mut R,
    out: &mut W,
) -> Result<(), Stopped>
    requires countable { T.hears teller.old (reads * length piece.old) }
    requires in_pieces { 0 < length piece.old }
    requires room { T.most (length piece.old) ≤ PAGE }
    ensures end { OnOk result (IsAtEnd (R.remaining input.new)) }
    ensures told { OnOk result (Tells (run_text T.text T.after T.ending teller.old page.old.items) (R.remaining input.old) (R.remaining input.new) (W.contents out.old) (W.contents out.new)) }
    ensures unread { result ≡ Err Unread → Tells (λ bytes. page.old.items ++ T.text teller.old bytes) (R.remaining input.old) (R.remaining input.new) (W.contents out.old) (W.contents out.new) }
{
    for n in 0..reads {
        put_out(page, out)?;
        let Some(count) = answered(input.read(piece), piece)? else {
            teller.finish(page);
            return put_out(page, out);
        };
        feed(teller, &piece[..count], page);
    }
    Err(Stopped::Uncounted)
}
