// Why a day is not played, or not to its end.
use std::{fmt, io};

#[derive(Drop)]
pub enum Problem {
    Arguments,
    ManyFiles,
    UnknownOption(String),
    InputUnread(io::Error),
    FileUnread(String, io::Error),
    NoBuffer,
    NoMemory,
    Unwritten(io::Error),
}

impl fmt::Display for Problem {
    fn fmt<W: fmt::Write>(&self, f: &mut fmt::Formatter<W>) -> fmt::Result {
        match self {
            Problem::Arguments => write!(f, "cannot read the arguments"),
            Problem::ManyFiles => write!(f, "more than one file; see --help"),
            Problem::UnknownOption(arg) => write!(f, "unknown option {arg}; see --help"),
            Problem::InputUnread(e) => write!(f, "cannot read standard input: {e}"),
            Problem::FileUnread(file, e) => write!(f, "cannot read {file}: {e}"),
            Problem::NoBuffer => write!(f, "no memory for the output"),
            Problem::NoMemory => write!(f, "no memory for the day"),
            Problem::Unwritten(e) => write!(f, "cannot write the output: {e}"),
        }
    }
}
