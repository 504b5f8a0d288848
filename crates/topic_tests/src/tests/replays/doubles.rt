// A reader and a writer that move few bytes at a time, and fail where a test asks them to.
use std::io::{Error, ErrorKind, Read, Result, Write};

/// Gives one byte a read, and an error after the last where `fails`.
#[derive(Drop)]
pub struct ByByte<'a> {
    pub rest: &'a [u8],
    pub fails: bool,
}

impl Read for ByByte<'_> {
    fn read(&mut self, buf: &mut [u8]) -> Result<usize> {
        let Some((first, rest)) = self.rest.split_first() else {
            if self.fails {
                return Err(Error::from(ErrorKind::Other));
            }
            return Ok(0);
        };
        if buf.is_empty() {
            return Ok(0);
        }
        buf[0] = *first;
        self.rest = rest;
        Ok(1)
    }
}

/// Takes so many bytes a write, until it has `most`; then it answers an error, or 0 where `full`.
#[derive(Drop)]
pub struct Narrow {
    pub taken: Vec<u8>,
    pub width: usize,
    pub most: usize,
    pub full: bool,
}

impl Write for Narrow {
    fn write(&mut self, buf: &[u8]) -> Result<usize> {
        if self.taken.len() >= self.most {
            if self.full {
                return Ok(0);
            }
            return Err(Error::from(ErrorKind::Other));
        }
        let count = self.width.min(buf.len());
        self.taken.extend_from_slice(&buf[..count])?;
        Ok(count)
    }

    fn flush(&mut self) -> Result<()> {
        Ok(())
    }
}
