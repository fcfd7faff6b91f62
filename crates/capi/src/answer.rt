// What a call answers, in two numbers: an enum that holds values does not cross to C.
ghost use Rattle.capi.specs.Answers.{Says};

use queue::Reply;

#[repr(C)]
#[derive(Clone, Copy)]
pub struct Answer {
    // The refusal's number, or 0 if the event was taken.
    pub refusal: u64,
    // The refusal's place, or how many runs are running.
    pub value: u64,
}

impl From<Reply> for Answer {
    ghost from_gives = { λ reply answer. Says answer reply };

    fn from(reply: Reply) -> Answer {
        match reply {
            Ok(running) => Answer {
                refusal: 0,
                value: running,
            },
            Err(refusal) => {
                let (refusal, value) = refusal.code();
                Answer { refusal, value }
            }
        }
    }
}
