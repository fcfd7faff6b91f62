// What is printed once an event was answered.
ghost use Rattle.std.specs.Prelude.{Some};
ghost use Rattle.run.specs.Numbers.{decode};
ghost use Rattle.day.specs.Text.{reply_text};

use super::line::StateLine;
use queue::Reply;
use std::fmt;

// What `{}` writes of a reply and the queue's numbers after it: the state, or the refusal.
#[derive(Clone, Copy)]
pub struct ReplyLine<'a> {
    pub reply: Reply,
    pub queue: &'a [u64],
}

impl fmt::Display for ReplyLine<'_> {
    ghost output = { λ l. Some (reply_text l.reply (decode l.queue.now)) };

    fn fmt<W: fmt::Write>(&self, f: &mut fmt::Formatter<W>) -> fmt::Result {
        match self.reply {
            Ok(_) => {
                let state = StateLine { queue: self.queue };
                write!(f, "{state}")
            }
            Err(refusal) => write!(f, "{refusal}"),
        }
    }
}
