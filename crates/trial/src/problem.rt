// Why nothing is played, or not all.
use std::fmt;

#[derive(Drop)]
pub enum Problem {
    Arguments,
    ManyArguments,
    NoNumber(String),
    NoQueue,
    NoDay,
}

impl fmt::Display for Problem {
    fn fmt<W: fmt::Write>(&self, f: &mut fmt::Formatter<W>) -> fmt::Result {
        match self {
            Problem::Arguments => write!(f, "cannot read the arguments"),
            Problem::ManyArguments => write!(f, "more than two arguments; see --help"),
            Problem::NoNumber(text) => write!(f, "no number: {text}; see --help"),
            Problem::NoQueue => write!(f, "no memory for a queue"),
            Problem::NoDay => write!(f, "no memory for a day"),
        }
    }
}
