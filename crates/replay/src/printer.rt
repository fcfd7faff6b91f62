// Text for standard output, through a buffer.
ghost use Rattle.std.specs.Prelude.{◌≡◌, IfErr};
ghost use Rattle.std.specs.IoError.{error_kind};

use std::io::{BufWriter, ErrorKind, Stdout, Write};
use std::{fmt, io};

#[derive(Drop)]
pub struct Printer {
    out: BufWriter<Stdout>,
    // Why a write failed: a formatter cannot say.
    error: Option<io::Error>,
}

impl fmt::Write for Printer {
    fn write_str(&mut self, s: &str) -> fmt::Result {
        match self.out.write_all(s.as_bytes()) {
            Ok(()) => Ok(()),
            Err(e) => {
                self.error = Some(e);
                Err(fmt::Error)
            }
        }
    }
}

impl Printer {
    // It fails only for want of memory for the buffer, and nothing is written then.
    pub fn new(rt: &HostRuntime) -> io::Result<Printer>
        ensures { IfErr result (λ e. error_kind e ≡ ErrorKind.OutOfMemory) }
    {
        Ok(Printer {
            out: BufWriter::new(rt.alloc(), rt.stdout())?,
            error: None,
        })
    }

    // Writes what the buffer still holds.
    pub fn finish(self) -> io::Result<()> {
        let Printer { mut out, error } = self;
        match error {
            Some(e) => Err(e),
            None => out.flush(),
        }
    }
}
