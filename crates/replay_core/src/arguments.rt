// The arguments of the program.
ghost use Rattle.std.specs.Prelude.{map, string_bytes};
ghost use Rattle.value_texts.specs.Decimals.{Finds};
ghost use Rattle.replay_core.specs.Arguments.{AskFor, Names};

use position_core::LedgerSize;
use replay_lines::read_bounded;

/// How many entries a ledger has where no argument says so.
const USUAL_LEDGER_SIZE: u32 = 50_000;

/// How a topic is kept.
#[derive(Clone, Copy)]
pub enum Form {
    /// By the machine's rules over lists.
    Plain,
    /// As the server keeps it.
    Fast,
}

/// The form that the word names.
pub fn read_form(word: &[u8]) -> Option<Form>
    ensures { Finds (Names word.now) result }
{
    if word == b"plain".as_slice() {
        Some(Form::Plain)
    } else if word == b"fast".as_slice() {
        Some(Form::Fast)
    } else {
        None
    }
}

/// The ledger size that the arguments ask for: none where they are wrong.
pub fn read_ledger_size(arguments: &[String]) -> Option<LedgerSize>
    ensures { Finds (AskFor (map string_bytes arguments.now)) result }
{
    match arguments {
        [] => LedgerSize::new(USUAL_LEDGER_SIZE),
        [size] => match read_bounded(size.as_bytes()) {
            Ok(size) => Some(size),
            Err(_) => None,
        },
        _ => None,
    }
}
