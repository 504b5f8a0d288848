// What answers a text.
ghost use Rattle.std.specs.Prelude.{◌≡◌, OnOk, string_bytes};
ghost use Rattle.session_texts.specs.Unsent.{IsAnswerText, least_durable};

use crate::context::Context;
use crate::overview::Overview;
use delivery_machine::{Deliveries, Position, Reply};
use std::alloc::AllocError;
use wire_json::{SendError, admin_text, end_of_topic_text, error_text, ok_text, peek_text};

/// What answers a text, once it may be sent.
#[derive(Drop)]
pub enum Answer {
    /// The publish is stored once the log is durable up to the length.
    Accepted {
        context: Context,
        position: Position,
        length: u64,
    },
    Refused {
        context: Context,
        error: SendError,
    },
    /// Topics have no end.
    EndOfTopic,
    /// What an administrator's command was answered.
    Administered(Reply),
    /// The messages that an administrator asked to see.
    Shown(Deliveries),
    /// What is seen of all topics of the broker.
    Overview(Overview),
}

impl Answer {
    /// How many messages have to be stored before it is sent.
    pub fn least_durable(&self) -> u64
        ensures { result ≡ least_durable self.now }
    {
        match self {
            Answer::Accepted {
                context: _,
                position: _,
                length,
            } => *length,
            Answer::Refused {
                context: _,
                error: _,
            } => 0,
            Answer::EndOfTopic => 0,
            Answer::Administered(_) => 0,
            Answer::Shown(_) => 0,
            Answer::Overview(_) => 0,
        }
    }

    /// Puts its text in place of what `out` holds.
    pub fn write(&self, out: &mut String) -> Result<(), AllocError>
        ensures { OnOk result (IsAnswerText self.now (string_bytes out.new)) }
    {
        match self {
            Answer::Accepted {
                context,
                position,
                length: _,
            } => ok_text(out, context.as_text(), *position),
            Answer::Refused { context, error } => error_text(out, context.as_text(), *error),
            Answer::EndOfTopic => write_end_of_topic(out),
            Answer::Administered(reply) => write_administered(out, reply),
            Answer::Shown(messages) => write_shown(out, messages),
            Answer::Overview(seen) => write_overview(out, seen.as_text()),
        }
    }
}

fn write_end_of_topic(out: &mut String) -> Result<(), AllocError>
    ensures { OnOk result (IsAnswerText Answer.EndOfTopic (string_bytes out.new)) }
{
    out.clear();
    out.push_str(end_of_topic_text())
}

fn write_administered(out: &mut String, reply: &Reply) -> Result<(), AllocError>
    ensures { OnOk result (IsAnswerText (Answer.Administered reply.now) (string_bytes out.new)) }
{
    out.clear();
    admin_text(out, reply)?;
    Ok(())
}

fn write_shown(out: &mut String, messages: &Deliveries) -> Result<(), AllocError>
    ensures { OnOk result (IsAnswerText (Answer.Shown messages.now) (string_bytes out.new)) }
{
    peek_text(out, messages.as_slice())
}

fn write_overview(out: &mut String, seen: &str) -> Result<(), AllocError>
    ensures { OnOk result (string_bytes out.new ≡ seen.now) }
{
    out.clear();
    out.push_str(seen)
}
