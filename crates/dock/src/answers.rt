// The paper's numbers of an answer (document 01, "Replies and refusal numbers").
ghost use Rattle.std.specs.Prelude.{◌≡◌};
ghost use Rattle.dock.specs.Answers.{refusal_number, refused_outputs, numbers_of, reply_in, outputs_of};

use crate::{Answer, Numbers, Refusal};
use bus::Reply;

impl Refusal {
    pub fn number(self) -> u8
        ensures { result ≡ refusal_number self }
    {
        match self {
            Refusal::Unfit => 1,
            Refusal::StrayBit(_) => 2,
            Refusal::NotStarted => 3,
        }
    }

    // The outputs that are told with it.
    pub fn outputs(self) -> u16
        ensures { result ≡ refused_outputs self }
    {
        match self {
            Refusal::StrayBit(outputs) => outputs,
            Refusal::Unfit | Refusal::NotStarted => 0,
        }
    }
}

impl From<Answer> for Numbers {
    ghost from_gives = { λ answer numbers. numbers ≡ numbers_of answer };

    fn from(answer: Answer) -> Numbers {
        match answer {
            Ok(done) => Numbers {
                refusal: 0,
                reply: done.reply.number(),
                byte: done.reply.byte(),
                outputs: done.outputs,
            },
            Err(refusal) => Numbers {
                refusal: refusal.number(),
                reply: 0,
                byte: 0,
                outputs: refusal.outputs(),
            },
        }
    }
}

// The reply as the bus has it: with a refusal none.
pub fn reply_in(answer: Answer) -> Reply
    ensures { result ≡ reply_in answer }
{
    match answer {
        Ok(done) => done.reply,
        Err(_) => Reply::Nothing,
    }
}

// The outputs that are told with an answer.
pub fn outputs_of(answer: Answer) -> u16
    ensures { result ≡ outputs_of answer }
{
    match answer {
        Ok(done) => done.outputs,
        Err(refusal) => refusal.outputs(),
    }
}
