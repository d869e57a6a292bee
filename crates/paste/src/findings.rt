// What a text is: digits, then bytes, then an image, then a fit state.
ghost use Rattle.std.specs.Prelude.{◌≡◌};
ghost use Rattle.paste.specs.Findings.{finding_of, unread, judged, pasted_of};

use crate::digits::{bytes_in, count_digits};
use crate::ranges::out_of;
use crate::{DIGITS, Finding, Pasted, Refused};
use dock::Controller;
use image::load::checked;

// What is wrong with the state of an image: where it isn't fit, its first number out of its range.
#[tactic(auto, unfolding(crate::specs::Findings::finding_of))]
fn finding_of(controller: Controller) -> Option<Finding>
    ensures { result ≡ finding_of controller }
{
    if controller.fit() {
        return None;
    }
    out_of(controller.machine).map(Finding::Unfit)
}

// As many bytes as an image has.
#[tactic(auto, unfolding(crate::specs::Findings::judged))]
fn judged(bytes: [u8; image::BYTES]) -> Result<Pasted, Refused>
    ensures { result ≡ judged bytes }
{
    let controller = match checked(&bytes) {
        Ok(controller) => controller,
        Err(flaw) => {
            return Err(Refused {
                finding: Finding::NoImage(flaw),
                bytes,
                controller: Controller::fresh(),
            });
        }
    };
    match finding_of(controller) {
        None => Ok(Pasted { bytes, controller }),
        Some(finding) => Err(Refused {
            finding,
            bytes,
            controller,
        }),
    }
}

// A text that isn't as many bytes.
#[tactic(auto, unfolding(crate::specs::Findings::unread))]
fn unread(finding: Finding) -> Refused
    ensures { result ≡ unread finding }
{
    Refused {
        finding,
        bytes: [0; image::BYTES],
        controller: Controller::fresh(),
    }
}

#[tactic(auto, unfolding(crate::specs::Findings::pasted_of))]
pub fn read(text: &[u8]) -> Result<Pasted, Refused>
    ensures { result ≡ pasted_of text.now }
{
    let digits = count_digits(text);
    if digits != text.len() {
        return Err(unread(Finding::NoDigit(digits)));
    }
    if digits % 2 == 1 {
        return Err(unread(Finding::OddDigit(digits)));
    }
    if digits != DIGITS {
        return Err(unread(Finding::OtherLength(digits / 2)));
    }
    judged(bytes_in(text))
}
