// What a program that replays was asked for.
ghost use Rattle.std.specs.Prelude.{◌≡◌, IfOk, Err};
ghost use Rattle.delivery_machine.specs.State.{fresh};
ghost use Rattle.topic_restart.specs.Standing.{opening};
ghost use Rattle.replay_core.specs.Replay.{sides, this_topic};
ghost use Rattle.replay_core.specs.Stops.{EndsWith};
ghost use Rattle.replay_core.specs.declared.asking.Unasked.TheVariants.{Arguments, Memory};

use crate::arguments::{Form, read_form, read_ledger_size};
use crate::plain::replay_to_status;
use delivery_machine::Opened;
use position_core::LedgerSize;
use std::env;
use std::env::Env;
use std::io::{Eprint, ErrorKind, Read, Write};

/// Why the arguments ask for no ledger size.
#[derive(Clone, Copy)]
pub enum Unasked {
    /// They are wrong, or cannot be read.
    Arguments,
    /// A growth was refused while they were copied.
    Memory,
}

/// More bytes than a word has that names a form.
const FORM_BYTES: usize = 8;

/// The form that the first argument after the program's name names.
pub fn asked_form<R: Env>(rt: &R) -> Option<Form> {
    let mut first = [0; FORM_BYTES];
    match rt.arg(1, &mut first) {
        Ok(length) if length <= FORM_BYTES => read_form(&first[..length]),
        Ok(_) | Err(_) => None,
    }
}

/// The ledger size of the arguments after the program's name and so many more.
pub fn asked_ledger_size<R: Env + AllocGlobal>(
    rt: &R,
    skipped: usize,
) -> Result<LedgerSize, Unasked> {
    let arguments = match env::args(rt) {
        Ok(arguments) => arguments,
        Err(error) if error.kind() == ErrorKind::OutOfMemory => return Err(Unasked::Memory),
        Err(_) => return Err(Unasked::Arguments),
    };
    let Ok(arguments) = arguments.collect::<Vec<String>>(rt.alloc()) else {
        return Err(Unasked::Memory);
    };
    let sizes = arguments.get(skipped.saturating_add(1)..).unwrap_or(&[]);
    read_ledger_size(sizes).ok_or(Unasked::Arguments)
}

/// Replays a fresh topic, where a ledger size was asked for, and answers the status for the program to end
/// with; else says how it is called.
pub fn replay_asked<T: Opened + Drop, R: Eprint + AllocGlobal, I: Read, O: Write>(
    rt: &R,
    size: Result<LedgerSize, Unasked>,
    usage: &str,
    reader: &mut I,
    writer: &mut O,
) -> u8
    ensures replays { IfOk size (λ size. EndsWith (sides (I.remaining reader.old) (O.contents writer.old) (opening (fresh this_topic size))) result
        (I.remaining reader.new) (O.contents writer.new)) }
    ensures arguments { size ≡ Err Arguments → result ≡ 2 }
    ensures memory { size ≡ Err Memory → result ≡ 1 }
{
    match size {
        Ok(size) => replay_to_status::<T, I, O>(rt.alloc(), reader, writer, size),
        Err(Unasked::Arguments) => {
            let _ = eprintln!(rt; "usage: {usage} [ledger_size]");
            2
        }
        Err(Unasked::Memory) => 1,
    }
}
