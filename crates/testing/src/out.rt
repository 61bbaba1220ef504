// Standard output of the test programs. What they print the gate compares to the byte, so that a write that fails is
// seen there: nothing is told of it, and no program ends otherwise for it.
use std::fmt::{self, Display};
use std::io::{Print, Result};

const STDOUT_FILENO: i32 = 1;

// It reaches C's `write` alone: the runtime's own output asks for the number of the last error too.
#[derive(Clone, Copy)]
pub struct Out;

impl fmt::Write for Out {
    fn write_str(&mut self, s: &str) -> fmt::Result {
        io::write_all(STDOUT_FILENO, s.as_bytes());
        Ok(())
    }
}

impl Print for Out {
    fn print<D: Display + Drop>(&self, value: D) -> Result<()> {
        let mut out = *self;
        let _ = fmt::Write::write(&mut out, value);
        Ok(())
    }

    fn println<D: Display + Drop>(&self, value: D) -> Result<()> {
        let mut out = *self;
        let _ = fmt::Write::writeln(&mut out, value);
        Ok(())
    }

    fn write_all(&self, bytes: &[u8]) -> Result<()> {
        io::write_all(STDOUT_FILENO, bytes);
        Ok(())
    }
}
