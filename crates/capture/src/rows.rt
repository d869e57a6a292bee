// The text of one word: a line of the trace behind the number of a sample, or the bare word.
ghost use Rattle.std.specs.Prelude.{◌+◌, ◌≤◌, ◌≡◌, ◌++◌, [], ◌∷◌, length};
ghost use Rattle.pairs.specs.Pairs.{bytes_of};
ghost use Rattle.lines.specs.Text.{PAGE};
ghost use Rattle.capture.specs.Rows.{row_line};

use crate::number::decimal;
use dock::Answer;
use lines::line::line;
use lines::text::{Page, put};
use pairs::two_bytes;

// What is written for each word.
#[derive(Clone, Copy)]
pub enum Form {
    Lines,
    Words,
}

// A line with its number in front.
#[tactic(auto, unfolding(crate::specs::Rows::row_line))]
pub(crate) fn row(number: u64, word: u16, answer: Answer, page: &mut Page)
    requires { length page.old.items + length (row_line number word answer) ≤ PAGE }
    ensures { page.new.items ≡ page.old.items ++ row_line number word answer }
{
    decimal(number, page);
    put(b" ", page);
    put(&line(word, answer), page);
}

// A bare word, high byte first.
#[tactic(auto, unfolding(pairs::specs::Pairs::bytes_of))]
pub(crate) fn bare(word: u16, page: &mut Page)
    requires { length page.old.items + length (bytes_of (word ∷ [])) ≤ PAGE }
    ensures { page.new.items ≡ page.old.items ++ bytes_of (word ∷ []) }
{
    put(&two_bytes(word), page);
}
