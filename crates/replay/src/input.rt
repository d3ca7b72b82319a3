// Standard input, and reading into a lent buffer.
use std::io::{ErrorKind, Read, Result};

const STDIN_FILENO: i32 = 0;

/// Standard input, by `io`. A read that fails ends it.
#[derive(Default, Drop)]
pub struct Input {
    // Whether a read came short. No call is made after that.
    is_over: bool,
}

impl Read for Input {
    fn read(&mut self, buf: &mut [u8]) -> Result<usize> {
        if self.is_over {
            return Ok(0);
        }
        let n = io::read_full(STDIN_FILENO, buf);
        self.is_over = n < buf.len();
        Ok(n)
    }
}

// Reads until the buffer is full, the input ends or a read fails, and returns how many bytes it read.
pub(crate) fn read_full<R: Read>(reader: &mut R, buf: &mut [u8]) -> usize {
    let mut done = 0;
    for _ in 0..u64::MAX {
        if done == buf.len() {
            break;
        }
        match reader.read(&mut buf[done..]) {
            Ok(0) => break,
            Ok(n) => done += n,
            Err(e) if e.kind() == ErrorKind::Interrupted => {}
            Err(_) => break,
        }
    }
    done
}
