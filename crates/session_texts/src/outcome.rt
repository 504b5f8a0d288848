// What comes of a topic's reply.
ghost use Rattle.std.specs.Prelude.{◌≡◌, string_bytes};
ghost use Rattle.std.specs.Result.{result_map_both};
ghost use Rattle.wire_json.specs.Answers.{of_fault};
ghost use Rattle.session_texts.specs.Outcomes.{admin_outcome, answer_of_seen, command_outcome, is_late, outcome_of, own_close, publish_outcome, refused_publish, told_outcome};

use crate::answer::Answer;
use crate::close::Close;
use crate::context::Context;
use crate::overview::Overview;
use crate::party::Party;
use delivery_machine::{Fault, Position, Reply};
use wire_json::SendError;

/// What comes of the reply to what a text asked for.
#[derive(Drop)]
pub enum Outcome {
    Answers(Answer),
    /// It is not answered.
    Passes,
    Closes(Close),
}

/// The position of no message, which answers a duplicate.
const NO_MESSAGE: Position = Position {
    ledger: u64::MAX,
    entry: u64::MAX,
};

fn refused_publish(context: Context, fault: Fault) -> Outcome
    ensures { result ≡ refused_publish context fault (of_fault fault) }
{
    match SendError::of_fault(fault) {
        Some(error) => Outcome::Answers(Answer::Refused { context, error }),
        None => Outcome::Closes(Close::refusing(fault)),
    }
}

fn publish_outcome(context: Context, reply: &Reply) -> Outcome
    ensures { result ≡ publish_outcome context reply.now }
{
    match reply {
        Reply::Published { position, length } => Outcome::Answers(Answer::Accepted {
            context,
            position: *position,
            length: *length,
        }),
        Reply::Duplicate { length } => Outcome::Answers(Answer::Accepted {
            context,
            position: NO_MESSAGE,
            length: *length,
        }),
        Reply::Refused(fault) => refused_publish(context, *fault),
        _ => Outcome::Passes,
    }
}

/// Whether the refusal is that of a command that came late, as is usual.
fn is_late(fault: Fault) -> bool
    ensures { result ≡ is_late fault }
{
    matches!(
        fault,
        Fault::NoSuchMessage | Fault::NotPending | Fault::PushMode
    )
}

fn command_outcome(reply: &Reply) -> Outcome
    ensures { result ≡ command_outcome reply.now }
{
    match reply {
        Reply::Refused(fault) => if is_late(*fault) {
            Outcome::Passes
        } else {
            Outcome::Closes(Close::refusing(*fault))
        },
        _ => Outcome::Passes,
    }
}

/// What comes of a reply that shows no messages.
fn told_outcome(reply: &Reply) -> Outcome
    ensures { result ≡ told_outcome reply.now }
{
    match reply {
        Reply::Refused(Fault::JournalFull) => {
            Outcome::Closes(Close::refusing(Fault::JournalFull))
        }
        Reply::Refused(fault) => Outcome::Answers(Answer::Administered(Reply::Refused(*fault))),
        Reply::Done => Outcome::Answers(Answer::Administered(Reply::Done)),
        Reply::Stats {
            kind,
            members,
            mark_delete,
            acknowledged,
            live,
            pending,
            dead,
            gone,
            oldest,
        } => Outcome::Answers(Answer::Administered(Reply::Stats {
            kind: *kind,
            members: *members,
            mark_delete: *mark_delete,
            acknowledged: *acknowledged,
            live: *live,
            pending: *pending,
            dead: *dead,
            gone: *gone,
            oldest: *oldest,
        })),
        _ => Outcome::Passes,
    }
}

fn admin_outcome(reply: Reply) -> Outcome
    ensures { result ≡ admin_outcome reply }
{
    match reply {
        Reply::Copies(messages) => Outcome::Answers(Answer::Shown(messages)),
        told => told_outcome(&told),
    }
}

/// What comes of the reply to what a text asked for.
pub fn outcome_of(party: &Party, context: Context, reply: Reply) -> Outcome
    ensures { result ≡ outcome_of party.now context reply }
{
    match party {
        Party::Producer {
            number: _,
            first: _,
        } => publish_outcome(context, &reply),
        Party::Consumer {
            number: _,
            subscription: _,
        } => command_outcome(&reply),
        Party::Admin => admin_outcome(reply),
    }
}

/// What answers a text that asked what is seen of the broker.
pub fn answer_of_seen(seen: Result<String, Fault>) -> Answer
    ensures { result ≡ answer_of_seen (result_map_both string_bytes (λ fault. fault) seen) }
{
    match seen {
        Ok(text) => Answer::Overview(Overview::new(text)),
        Err(fault) => Answer::Administered(Reply::Refused(fault)),
    }
}

/// The close that a refusal of what a session asks of its own accord leads to.
pub fn own_close(reply: &Reply) -> Option<Close>
    ensures { result ≡ own_close reply.now }
{
    match reply {
        Reply::Refused(Fault::NoMemory) => None,
        Reply::Refused(fault) => Some(Close::refusing(*fault)),
        _ => None,
    }
}
