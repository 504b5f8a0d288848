// A stream in memory.
ghost use Rattle.std.specs.Prelude.{None, IsErr};

use std::io;
use std::io::{ErrorKind, Read, Write};

/// What one read of a stream gives.
#[derive(Clone, Copy)]
pub(super) enum Piece {
    Bytes(&'static [u8]),
    /// It would block.
    Nothing,
    End,
}

/// A stream that gives one piece a read, and nothing behind the last; and takes all that is written.
#[derive(Drop)]
pub(super) struct Scripted {
    pub(super) pieces: &'static [Piece],
    /// How many of them were given.
    pub(super) given: usize,
    /// How often it was asked.
    pub(super) asked: u64,
    pub(super) taken: Vec<u8>,
}

fn would_block() -> io::Result<usize>
    ensures { IsErr result }
{
    Err(io::Error::from(ErrorKind::WouldBlock))
}

impl Read for Scripted {
    ghost remaining = { λ _. None };

    fn read(&mut self, buf: &mut [u8]) -> io::Result<usize> {
        self.asked = self.asked.wrapping_add(1);
        let Some(piece) = self.pieces.get(self.given) else {
            return would_block();
        };
        self.given += 1;
        match *piece {
            Piece::Bytes(bytes) => {
                let count = bytes.len().min(buf.len());
                buf[..count].copy_from_slice(&bytes[..count]);
                Ok(count)
            }
            Piece::Nothing => would_block(),
            Piece::End => Ok(0),
        }
    }
}

impl Write for Scripted {
    ghost contents = { λ _. None };

    fn write(&mut self, buf: &[u8]) -> io::Result<usize> {
        match self.taken.extend_from_slice(buf) {
            Ok(()) => Ok(buf.len()),
            Err(_) => Err(io::Error::from(ErrorKind::OutOfMemory)),
        }
    }

    fn flush(&mut self) -> io::Result<()> {
        Ok(())
    }
}
