// Reading a text as what it asks for.
ghost use Rattle.std.specs.Prelude.{◌≡◌, IfOk, ok_or, option_and_then};
ghost use Rattle.session_texts.specs.Asking.{asks, asks_admin, asks_command, asks_publish, error_of, publishes};
ghost use Rattle.session_texts.specs.Numbers.{number_after};
ghost use Rattle.session_texts.specs.Requests.{event_of_command, request_of_admin};
ghost use Rattle.wire_json.specs.Admins.{admin_of};
ghost use Rattle.wire_json.specs.Commands.{command_of};
ghost use Rattle.wire_json.specs.Publishes.{publish_of};

use crate::answer::Answer;
use crate::asking::Asking;
use crate::close::Close;
use crate::context::Context;
use crate::party::Party;
use delivery_machine::{Body, ConsumerNumber, Event, Fault, Moment, ProducerNumber};
use json::Scratch;
use position_core::Content;
use session_links::Request;
use std::alloc::{AllocError, Global};
use wire_json::{AdminCommand, Command, SendError, read_admin, read_command, read_publish};

/// The number after a number, where one is left of 64 bits.
pub fn number_after(next: Option<i64>) -> Option<i64>
    ensures { result ≡ option_and_then number_after next }
{
    match next {
        Some(number) => if number < i64::MAX {
            Some(number + 1)
        } else {
            None
        },
        None => None,
    }
}

fn error_of(fault: Fault) -> SendError
    ensures { result ≡ error_of fault }
{
    match SendError::of_fault(fault) {
        Some(error) => error,
        None => SendError::Unknown,
    }
}

fn publish(
    alloc: Global,
    producer: ProducerNumber,
    now: Moment,
    next: Option<i64>,
    context: Context,
    content: Content,
) -> Result<Asking, AllocError>
    ensures { IfOk result (λ asking. asking ≡ publishes producer now next context content) }
{
    let Some(sequence) = next else {
        return Ok(Asking::Closes(Close::refusing(Fault::TooMany)));
    };
    let body = Body::new(alloc, content)?;
    Ok(Asking::Asks {
        request: Request::Event(Event::Publish {
            producer,
            sequence,
            body,
            now,
        }),
        context,
    })
}

fn read_producers(
    alloc: Global,
    scratch: &mut Scratch,
    producer: ProducerNumber,
    now: Moment,
    next: Option<i64>,
    text: &[u8],
) -> Result<Asking, AllocError>
    ensures { IfOk result (λ asking. asking ≡ asks_publish producer now next (publish_of text.now).context (publish_of text.now).content) }
{
    let said = read_publish(alloc, scratch, text)?;
    let context = Context::new(said.context);
    match said.content {
        Ok(content) => publish(alloc, producer, now, next, context, content),
        Err(fault) => Ok(Asking::Answers(Answer::Refused {
            context,
            error: error_of(fault),
        })),
    }
}

fn event_of_command(consumer: ConsumerNumber, now: Moment, command: Command) -> Option<Event>
    ensures { result ≡ event_of_command consumer now command }
{
    match command {
        Command::Acknowledge(position) => Some(Event::Ack { consumer, position }),
        Command::AcknowledgeUpTo(position) => Some(Event::AckUpTo { consumer, position }),
        Command::NegativeAcknowledge(position) => Some(Event::Nack {
            consumer,
            position,
            now,
        }),
        Command::Permit(permits) => Some(Event::Permit { consumer, permits }),
        Command::IsEndOfTopic => None,
    }
}

fn read_consumers(
    scratch: &mut Scratch,
    consumer: ConsumerNumber,
    now: Moment,
    text: &[u8],
) -> Result<Asking, AllocError>
    ensures { IfOk result (λ asking. asking ≡ asks_command consumer now (command_of text.now)) }
{
    let command = match read_command(scratch, text)? {
        Ok(command) => command,
        Err(fault) => return Ok(Asking::Closes(Close::unreadable(fault))),
    };
    match event_of_command(consumer, now, command) {
        Some(event) => Ok(Asking::Asks {
            request: Request::Event(event),
            context: Context::new(None),
        }),
        None => Ok(Asking::Answers(Answer::EndOfTopic)),
    }
}

fn request_of_admin(command: AdminCommand) -> Option<Request>
    ensures { result ≡ request_of_admin command }
{
    match command {
        AdminCommand::Seek {
            subscription,
            target,
        } => Some(Request::Event(Event::Seek {
            subscription,
            target,
        })),
        AdminCommand::SeekTime { subscription, time } => {
            Some(Request::Event(Event::SeekTime { subscription, time }))
        }
        AdminCommand::Skip {
            subscription,
            count,
        } => Some(Request::Event(Event::Skip {
            subscription,
            count,
        })),
        AdminCommand::DropSubscription { subscription } => {
            Some(Request::Event(Event::DropSubscription { subscription }))
        }
        AdminCommand::Stats { subscription } => Some(Request::Event(Event::Stats { subscription })),
        AdminCommand::CreateSubscription {
            subscription,
            target,
        } => Some(Request::CreateSubscription {
            subscription,
            target,
        }),
        AdminCommand::Peek {
            subscription,
            count,
        } => Some(Request::Peek {
            subscription,
            count,
        }),
        AdminCommand::Keep { retention } => Some(Request::Event(Event::SetRetention { retention })),
        AdminCommand::Disconnect { session } => Some(Request::Disconnect { session }),
        AdminCommand::BackUp => Some(Request::BackUp),
        AdminCommand::Overview => None,
        AdminCommand::DeleteTopic => Some(Request::DeleteTopic),
    }
}

fn read_administrators(alloc: Global, text: &[u8]) -> Result<Asking, AllocError>
    ensures { IfOk result (λ asking. asking ≡ asks_admin (admin_of text.now)) }
{
    let command = match read_admin(alloc, text)? {
        Ok(command) => command,
        Err(fault) => return Ok(Asking::Closes(Close::unreadable(fault))),
    };
    match request_of_admin(command) {
        Some(request) => Ok(Asking::Asks {
            request,
            context: Context::new(None),
        }),
        None => Ok(Asking::Shows),
    }
}

/// What the text asks for, of the party, at the moment; `next` is the number of the next publish. Texts with escapes are
/// written to the scratch, which is kept from one text to the next.
pub fn read_text(
    alloc: Global,
    scratch: &mut Scratch,
    party: &Party,
    now: Moment,
    next: Option<i64>,
    text: &[u8],
) -> Result<Asking, AllocError>
    ensures { IfOk result (λ asking. asking ≡ asks party.now now next text.now) }
{
    match party {
        Party::Producer { number, first: _ } => {
            read_producers(alloc, scratch, *number, now, next, text)
        }
        Party::Consumer {
            number,
            subscription: _,
        } => read_consumers(scratch, *number, now, text),
        Party::Admin => read_administrators(alloc, text),
    }
}
