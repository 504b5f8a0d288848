// Messages are handed in.
ghost use Rattle.std.specs.Prelude.{◌≡◌, false, OnOk, OnErr};
ghost use Rattle.delivery_machine.specs.State.{State};
ghost use Rattle.delivery_machine.specs.Run.{Answers};
ghost use Rattle.delivery_machine.specs.Producing.{with_message};
ghost use Rattle.delivery_machine.specs.declared.event.Event.TheVariants.{Publish};
ghost use Rattle.dedup_core.specs.Sequences.{AgreesWith};
ghost use Rattle.entry_log.specs.Log.{is_full_log, next_in};
ghost use Rattle.topic_log.specs.Written.{all_of, written_in};
ghost use Rattle.topic_served.specs.Served.{IsBound, IsSettled, state_in};

use delivery_machine::Reply;
use position_core::{Body, Fault, Message, Moment, ProducerNumber};
use std::alloc::AllocError;
use topic_log::TopicLog;
use topic_served::Served;

/// Puts the message at the end, and notes its number. The log stays as it was where there is no memory.
fn append(log: &mut TopicLog, message: Message) -> Result<(), AllocError>
    requires agrees { AgreesWith (all_of log.old) log.old.numbers }
    requires room { is_full_log log.old.log ≡ false }
    requires next { message.position ≡ next_in log.old.log }
    ensures ok { OnOk result ((s : State) → written_in log.new s ≡ with_message (written_in log.old s) message) }
    ensures err { OnErr result ((s : State) → written_in log.new s ≡ written_in log.old s) }
    ensures agrees { AgreesWith (all_of log.new) log.new.numbers }
{
    let sequence = message.entry().sequence;
    let Ok(name) = message.entry().producer.clone() else {
        return Err(AllocError);
    };
    match log.append(message) {
        Ok(()) => (),
        Err(failed) => return Err(failed),
    }
    match log.note(&name, sequence) {
        Ok(()) => Ok(()),
        Err(failed) => {
            log.take_back();
            Err(failed)
        }
    }
}

/// The producer hands in a message. Dispatchers need not be told.
pub fn publish(
    served: &mut Served,
    producer: ProducerNumber,
    sequence: i64,
    body: &Body,
    now: Moment,
) -> Reply
    requires { IsSettled served.old }
    ensures answers { Answers (state_in served.old) (Publish producer sequence body.now now) result (state_in served.new) }
    ensures bound { IsBound served.new }
{
    let message = match served.parts.log.to_publish(producer, sequence, body, now) {
        Ok(message) => message,
        Err(reply) => return reply,
    };
    let position = message.position();
    match append(&mut served.parts.log, message) {
        Ok(()) => {
            let _length = served.parts.log.len();
            Reply::Published {
                position,
                length: served.parts.log.had(),
            }
        }
        Err(_) => Reply::Refused(Fault::NoMemory),
    }
}
