// What is to be written, gathered until it is written at once.
ghost use Rattle.std.specs.Prelude.{◌≡◌, ◌++◌, [], OnOk, OnErr, IfErr, IsErr};
ghost use Rattle.std.specs.Io.KnownBytes.{Appends};
ghost use Rattle.replay_core.specs.declared.stop.Stop.TheVariants.{Write};
ghost use Rattle.replay_core.specs.Output.{WritesFront};

use crate::stop::Stop;
use std::alloc::{AllocError, Global};
use std::io;

/// From so many bytes on the gathered lines are written.
const LARGE: usize = 65_536;

/// The lines that were not written yet.
#[derive(Drop)]
pub struct Output {
    text: Vec<u8>,
}

/// Writes all of the text, or a front of it where the writer answers an error or takes nothing.
fn write_whole<W: io::Write>(writer: &mut W, text: &[u8]) -> Result<(), Stop>
    ensures ok { OnOk result (Appends (W.contents writer.old) (W.contents writer.new) text.now) }
    ensures err { IfErr result (λ stop. stop ≡ Write) }
    ensures front { OnErr result (WritesFront (W.contents writer.old) (W.contents writer.new) text.now) }
{
    let mut rest = text;
    while !rest.is_empty() {
        match writer.write(rest) {
            Ok(taken) => {
                if taken == 0 {
                    return Err(Stop::Write);
                }
                rest = &rest[taken..];
            }
            Err(_) => return Err(Stop::Write),
        }
    }
    Ok(())
}

impl Output {
    pub fn new(alloc: Global) -> Self
        ensures { result.text.items ≡ [] }
    {
        Output {
            text: Vec::new(alloc),
        }
    }

    pub fn append(&mut self, text: &[u8]) -> Result<(), AllocError>
        ensures ok { OnOk result (self.new.text.items ≡ self.old.text.items ++ text.now) }
        ensures err { OnErr result (self.new.text.items ≡ self.old.text.items) }
    {
        self.text.extend_from_slice(text)
    }

    /// Writes what was gathered. Nothing is left of it, also after an error.
    pub fn write_to<W: io::Write>(&mut self, writer: &mut W) -> Result<(), Stop>
        ensures ok { OnOk result (Appends (W.contents writer.old) (W.contents writer.new) self.old.text.items) }
        ensures err { IfErr result (λ stop. stop ≡ Write) }
        ensures front { OnErr result (WritesFront (W.contents writer.old) (W.contents writer.new) self.old.text.items) }
        ensures left { self.new.text.items ≡ [] }
    {
        let outcome = write_whole(writer, self.text.as_slice());
        self.text.clear();
        outcome
    }

    /// Whether much was gathered.
    pub fn is_large(&self) -> bool {
        self.text.len() >= LARGE
    }
}
