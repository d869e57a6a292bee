// Bytes read as a state.
ghost use Rattle.std.specs.Prelude.{◌≡◌, map, length, ◌≤◌};
ghost use Rattle.image.specs.Layout.{BYTES};
ghost use Rattle.image.specs.Load.{is_set, bay_by, second_by, machine_in, progress_by, all_flags, first_over, progress_verdict, sized_verdict, state_in, checked_of, load_of, state_of};

use crate::{BYTES, Flaw, Loaded};
use bay::{Bay, Control};
use bus::Progress;
use dock::Controller;
use kind::Kind;
use machine::{Machine, Shared};
use pairs::wide;
use second::Second;

#[tactic(auto, using(crate::proofs::Bytes::flag_at))]
fn bay_from(flags: &[u8], numbers: &[u8]) -> Bay
    requires flags_len { length flags.now ≡ 14 }
    requires numbers_len { length numbers.now ≡ 9 }
    ensures { result ≡ bay_by (map is_set flags.now) numbers.now }
{
    Bay {
        levels: [
            flags[crate::LEVELS] == 1,
            flags[crate::LEVELS + 1] == 1,
            flags[crate::LEVELS + 2] == 1,
        ],
        accepted: [
            flags[crate::ACCEPTED] == 1,
            flags[crate::ACCEPTED + 1] == 1,
            flags[crate::ACCEPTED + 2] == 1,
        ],
        counts: [
            numbers[crate::COUNTS],
            numbers[crate::COUNTS + 1],
            numbers[crate::COUNTS + 2],
        ],
        n_sl: flags[crate::N_SL] == 1,
        state: numbers[crate::STATE],
        remreq_sts: flags[crate::REMREQ_STS] == 1,
        devstschg: flags[crate::DEVSTSCHG] == 1,
        control: Control {
            lock_ctl: flags[crate::LOCK_CTL] == 1,
            request: numbers[crate::REQUEST],
            remreq_en: flags[crate::REMREQ_EN] == 1,
            devstschg_en: flags[crate::DEVSTSCHG_EN] == 1,
            remevtwak_en: flags[crate::REMEVTWAK_EN] == 1,
            pwr_ctl: flags[crate::PWR_CTL] == 1,
        },
        pulse: wide(numbers[crate::PULSE], numbers[crate::PULSE + 1]),
        wait: wide(numbers[crate::WAIT], numbers[crate::WAIT + 1]),
    }
}

// The flags of the second kind's own registers, and their numbers, in the image's order.
#[tactic(auto, using(crate::proofs::Bytes::flag_at))]
fn second_from(flags: &[u8], numbers: &[u8]) -> Second
    requires flags_len { length flags.now ≡ 7 }
    requires numbers_len { length numbers.now ≡ 7 }
    ensures { result ≡ second_by (map is_set flags.now) numbers.now }
{
    Second {
        subsystem: [numbers[0], numbers[1], numbers[2], numbers[3]],
        subsystem_written: [flags[0] == 1, flags[1] == 1, flags[2] == 1, flags[3] == 1],
        form_factors: [numbers[4], numbers[5]],
        form_factors_written: [flags[4] == 1, flags[5] == 1],
        sfr: numbers[6],
        sfr_written: flags[6] == 1,
    }
}

#[tactic(auto, using(crate::proofs::Bytes::machine_parts))]
fn machine_in(image: &[u8]) -> Machine
    requires { length image.now ≡ BYTES }
    ensures { result ≡ machine_in image.now }
{
    let bay_0 = bay_from(
        &image[crate::FLAGS_0..crate::FLAGS_1],
        &image[crate::NUMBERS_0..crate::NUMBERS_1],
    );
    let bay_1 = bay_from(
        &image[crate::FLAGS_1..crate::STRAPS],
        &image[crate::NUMBERS_1..crate::PROGRESS],
    );
    let second = second_from(
        &image[crate::SUBSYSTEM_WRITTEN..crate::FLAGS_0],
        &image[crate::SUBSYSTEM..crate::NUMBERS_0],
    );
    Machine {
        started: image[crate::STARTED] == 1,
        straps: image[crate::STRAPS],
        kind: Kind::by(image[crate::KIND] == 1),
        named: Kind::by(image[crate::NAMED] == 1),
        shared: Shared {
            dbccr_written: image[crate::DBCCR_WRITTEN] == 1,
            seclock: image[crate::SECLOCK] == 1,
            bay_count: image[crate::BAY_COUNT],
            lock_time: image[crate::LOCK_TIME],
            wait_time: image[crate::WAIT_TIME],
        },
        second,
        phase: image[crate::PHASE],
        bays: [bay_0, bay_1],
    }
}

fn progress_from(which: u8, first: u8, second: u8) -> Progress
    ensures { result ≡ progress_by which first second }
{
    match which {
        crate::OPENED => Progress::Opened,
        crate::ADDRESSED => Progress::Addressed,
        crate::REGISTER => Progress::Register(first),
        crate::DATA => Progress::Data {
            register: first,
            value: second,
        },
        crate::AGAIN => Progress::Again(first),
        crate::READING => Progress::Reading(first),
        crate::WRITING => Progress::Writing(first),
        crate::SENDING => Progress::Sending {
            register: first,
            value: second,
        },
        _ => Progress::Idle,
    }
}

// No byte is above 1. It looks at all of them, which compiles to a few comparisons.
fn all_flags(flags: &[u8]) -> bool
    ensures { result ≡ all_flags flags.now }
{
    let mut good = true;
    for flag in flags {
        good = good & (*flag <= 1);
    }
    good
}

// How many bytes come before the first above 1. A loop, since what `position` asks for is a reference in an Option, which has another layout on a
// processor of 32 bits (docs/DESIGN-PASS.md).
fn first_over(flags: &[u8]) -> usize
    ensures value { result ≡ first_over flags.now }
    ensures bounded { result ≤ length flags.now }
{
    for (i, flag) in flags.iter().enumerate() {
        if 1 < *flag {
            return i;
        }
    }
    flags.len()
}

// From a register byte on a command holds one byte; with a data byte, or sending, two.
#[tactic(auto, unfolding(crate::specs::Load::progress_verdict))]
fn progress_verdict(which: u8, first: u8, second: u8) -> Result<(), Flaw>
    ensures { result ≡ progress_verdict which first second }
{
    if crate::SENDING < which {
        return Err(Flaw::UnknownProgress);
    }
    if (which < crate::REGISTER) & (first != 0) {
        return Err(Flaw::NotUsed(crate::FIRST));
    }
    if (which != crate::DATA) & (which != crate::SENDING) & (second != 0) {
        return Err(Flaw::NotUsed(crate::SECOND));
    }
    Ok(())
}

// Whether as many bytes as an image has are one.
#[tactic(auto, unfolding(crate::specs::Load::sized_verdict))]
fn sized_verdict(image: &[u8]) -> Result<(), Flaw>
    requires { length image.now ≡ BYTES }
    ensures { result ≡ sized_verdict image.now }
{
    if image[crate::VERSION] != crate::LAYOUT {
        return Err(Flaw::UnknownVersion);
    }
    if !all_flags(&image[crate::STARTED..crate::STRAPS]) {
        let before = first_over(&image[crate::STARTED..crate::STRAPS]);
        return Err(Flaw::NotAFlag(crate::STARTED + before));
    }
    progress_verdict(
        image[crate::PROGRESS],
        image[crate::FIRST],
        image[crate::SECOND],
    )
}

// The state of as many bytes as an image has.
#[tactic(auto, unfolding(crate::specs::Load::state_in))]
fn state_in(image: &[u8]) -> Controller
    requires { length image.now ≡ BYTES }
    ensures { result ≡ state_in image.now }
{
    Controller {
        machine: machine_in(image),
        progress: progress_from(
            image[crate::PROGRESS],
            image[crate::FIRST],
            image[crate::SECOND],
        ),
    }
}

// The state of an image, fit or not, or why the bytes are none. They stay a slice: a reference in an Option, as their array would be, has another
// layout on a processor of 32 bits (docs/DESIGN-PASS.md).
#[tactic(auto, unfolding(crate::specs::Load::checked_of, crate::specs::Load::verdict_on))]
pub fn checked(image: &[u8]) -> Result<Controller, Flaw>
    ensures { result ≡ checked_of image.now }
{
    if image.len() != BYTES {
        return Err(Flaw::WrongLength);
    }
    sized_verdict(image)?;
    Ok(state_in(image))
}

// What any bytes are, and the state of an image, fit or not; a fresh one beside a flaw.
#[tactic(auto, unfolding(crate::specs::Load::checked_of, crate::specs::Load::load_of))]
pub fn load(image: &[u8]) -> Loaded
    ensures { result ≡ load_of image.now }
{
    match checked(image) {
        Ok(controller) => Loaded {
            verdict: Ok(()),
            controller,
        },
        Err(flaw) => Loaded {
            verdict: Err(flaw),
            controller: Controller::fresh(),
        },
    }
}

// The state of an image for who doesn't ask why bytes are none. A Result of `checked` has a Flaw's place where the state's bytes are, and so the compiler
// puts eight of them at a time together for a number: a tenth more instructions for each call on a state.
#[tactic(auto, unfolding(crate::specs::Load::state_of, crate::specs::Load::is_image, crate::specs::Load::verdict_on))]
pub fn state_of(image: &[u8]) -> Option<Controller>
    ensures { result ≡ state_of image.now }
{
    if image.len() != BYTES {
        return None;
    }
    sized_verdict(image).ok()?;
    Some(state_in(image))
}
