// Texts on standard output.
use arrayvec::ArrayVec;
use std::fmt;
use std::fmt::{Display, Write};
use std::io::Stdout;

// The longest text that is written at once.
const AT_ONCE: usize = 128;

// A text on its way out. Its parts are put together and written by one call, where they have room: `print!` clears a
// buffer of a kibibyte for each text, and puts one character after the other into it.
#[derive(Drop)]
struct Parts {
    out: Stdout,
    waiting: ArrayVec<u8, AT_ONCE>,
}

impl Parts {
    fn written(&mut self) -> bool {
        let taken = self.out.write_all(self.waiting.as_slice()).is_ok();
        self.waiting.clear();
        taken
    }
}

impl Write for Parts {
    fn write_str(&mut self, text: &str) -> fmt::Result {
        let text = text.as_bytes();
        if self.waiting.try_extend_from_slice(text).is_ok() {
            return Ok(());
        }
        if self.written() && self.out.write_all(text).is_ok() {
            Ok(())
        } else {
            Err(fmt::Error)
        }
    }
}

// A text as it stands. Answers whether it was taken: it is not where nobody reads any more.
pub(crate) fn said(out: Stdout, text: &str) -> bool {
    out.write_all(text.as_bytes()).is_ok()
}

pub(crate) fn tell(out: Stdout, text: &str) {
    said(out, text);
}

// One that is put together.
pub(crate) fn say(out: Stdout, text: impl Display + Drop) {
    let mut parts = Parts {
        out,
        waiting: ArrayVec::new(),
    };
    let _ = write!(parts, "{text}");
    parts.written();
}

// Characters as they were typed, which may be no text.
pub(crate) fn say_typed(out: Stdout, line: &[u8]) {
    let _ = out.write_all(line);
}

// A part of a text, where it is so.
pub(crate) fn part(yes: bool, text: &'static str) -> &'static str {
    if yes { text } else { "" }
}

// The end of a word that is counted.
pub(crate) fn plural(count: u64) -> &'static str {
    part(count != 1, "s")
}
