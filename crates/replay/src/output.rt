// Standard output.
use std::io::{Error, ErrorKind, Result, Write};

const STDOUT_FILENO: i32 = 1;

/// Standard output, by `io`. A write that fails does not say why.
#[derive(Drop)]
pub struct Output;

impl Write for Output {
    fn write(&mut self, buf: &[u8]) -> Result<usize> {
        if io::write_all(STDOUT_FILENO, buf) {
            Ok(buf.len())
        } else {
            Err(Error::from(ErrorKind::Other))
        }
    }

    fn flush(&mut self) -> Result<()> {
        Ok(())
    }
}
