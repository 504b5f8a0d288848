// Messages are handed in, appended, noted and stored.
ghost use Rattle.std.specs.Prelude.{◌≡◌, IfOk};

use crate::producer::{Producer, producer_at};
use crate::topic_log::TopicLog;
use delivery_machine::Reply;
use position_core::{
    Base, Body, Entry, Fault, Message, Moment, Position, ProducerName, ProducerNumber,
};
use std::alloc::{AllocError, Global};

fn message_of(
    alloc: Global,
    sender: &ProducerName,
    position: Position,
    sequence: i64,
    body: &Body,
    now: Moment,
) -> Result<Message, AllocError>
    ensures { IfOk result (λ e. e ≡ record { position = position; producer = sender.now; sequence = sequence; time = now; body = body.now }) }
{
    let entry = Entry {
        position,
        producer: sender.clone()?,
        sequence,
        time: now,
        body: body.clone()?,
    };
    Message::new(alloc, entry)
}

impl TopicLog {
    ghost use Rattle.std.specs.Prelude.{◌≡◌, ◌<◌, ◌+◌, ◌-◌, false, length, min, max, int_le, IfErr, IfOk, OnOk, OnErr};
    ghost use Rattle.std.specs.List.{find};
    ghost use Rattle.std.specs.Option.{option_copied};
    ghost use Rattle.position_core.specs.declared.message.Entry.{Entry};
    ghost use Rattle.delivery_machine.specs.State.{State};
    ghost use Rattle.delivery_machine.specs.Words.{is_producer, known, last_sequence};
    ghost use Rattle.delivery_machine.specs.Run.{Answers};
    ghost use Rattle.delivery_machine.specs.Producing.{durable_to, with_message};
    ghost use Rattle.delivery_machine.specs.declared.event.Event.TheVariants.{Publish};
    ghost use Rattle.entry_log.specs.Log.{appended, is_full_log, next_in, popped};
    ghost use Rattle.dedup_core.specs.Sequences.{AgreesWith, offered};
    ghost use Rattle.topic_log.specs.Written.{Written, all_of, written_in};
    ghost use Rattle.topic_log.specs.Publishing.{IsNextOf};

    /// The connected producer of the number.
    fn sender(&self, producer: ProducerNumber) -> Option<&Producer>
        ensures { option_copied result ≡ find (is_producer producer) self.now.producers }
    {
        producer_at(&self.producers, producer)
    }

    /// Whether no further message fits.
    fn is_full(&self) -> bool
        ensures { result ≡ is_full_log self.now.log }
    {
        self.entries.is_full()
    }

    /// The last number that is known of the name, or the base where none is.
    pub(crate) fn last_number(&self, name: &ProducerName, base: Base) -> i64
        requires { AgreesWith (all_of self.now) self.now.numbers }
        ensures { (s : State) → result ≡ last_sequence (known (written_in self.now s)) name.now base }
    {
        self.sequences.last(name, base.number())
    }

    /// Whether a message of the producer was published before.
    fn is_duplicate(&self, sender: &Producer, sequence: i64) -> bool
        requires { AgreesWith (all_of self.now) self.now.numbers }
        ensures { (s : State) → result ≡ int_le sequence (last_sequence (known (written_in self.now s)) sender.now.name sender.now.base) }
    {
        sequence <= self.last_number(sender.name(), sender.base())
    }

    /// The message that the producer hands in, as it is to stand in the log; or what the producer is told.
    pub fn to_publish(
        &self,
        producer: ProducerNumber,
        sequence: i64,
        body: &Body,
        now: Moment,
    ) -> Result<Message, Reply>
        requires { AgreesWith (all_of self.now) self.now.numbers }
        ensures message { IfOk result (IsNextOf self.now producer sequence body.now now) }
        ensures told { IfErr result (λ reply. (s : State) → Answers (written_in self.now s) (Publish producer sequence body.now now) reply (written_in self.now s)) }
    {
        let Some(sender) = self.sender(producer) else {
            return Err(Reply::Refused(Fault::NoSession));
        };
        if self.is_duplicate(sender, sequence) {
            return Err(Reply::Duplicate { length: self.had() });
        }
        if self.is_full() {
            return Err(Reply::Refused(Fault::TopicFull));
        }
        let position = self.next_position();
        match message_of(self.alloc, sender.name(), position, sequence, body, now) {
            Ok(message) => Ok(message),
            Err(_) => Err(Reply::Refused(Fault::NoMemory)),
        }
    }

    /// Puts the message at the end. It is to be noted then, or taken back.
    pub fn append(&mut self, message: Message) -> Result<(), AllocError>
        requires room { is_full_log self.old.log ≡ false }
        requires next { message.position ≡ next_in self.old.log }
        ensures ok { OnOk result (self.new ≡ record self.old { log = appended message self.old.log }) }
        ensures machine { OnOk result ((s : State) → written_in self.new s ≡ with_message (written_in self.old s) message) }
        ensures unstored { OnOk result (self.new.durable < length self.new.log.log) }
        ensures err { OnErr result (self.new ≡ self.old) }
    {
        self.entries.append(self.alloc, message)
    }

    /// Takes the message back that the last call appended, of which nothing is stored.
    pub fn take_back(&mut self)
        requires { self.old.durable < length self.old.log.log }
        ensures value { self.new ≡ record self.old { log = popped self.old.log } }
        ensures undone { (w : Written) (e : Entry) → self.old ≡ record w { log = appended e w.log } → (s : State) → written_in self.new s ≡ written_in w s }
    {
        self.entries.pop();
        self.first_auto = 0;
        self.gaps.clear();
    }

    /// Notes the number of the last message, which was appended under the name. Nothing changes where there is no
    /// memory.
    pub fn note(&mut self, name: &ProducerName, sequence: i64) -> Result<(), AllocError>
        ensures ok { OnOk result (self.new ≡ record self.old { numbers = offered name.now sequence (self.old.gone + length self.old.log.log - 1) self.old.numbers }) }
        ensures err { OnErr result (self.new ≡ self.old) }
        ensures agrees { OnOk result ((w : Written) (e : Entry) → self.old ≡ record w { log = appended e w.log } → AgreesWith (all_of w) w.numbers
            → e.producer ≡ name.now → e.sequence ≡ sequence → AgreesWith (all_of self.new) self.new.numbers) }
    {
        let index = self.had().saturating_sub(1);
        self.sequences.offer(name, sequence, index)?;
        Ok(())
    }

    /// All messages are stored.
    pub fn store(&mut self)
        ensures { self.new ≡ record self.old { durable = length self.old.log.log } }
    {
        self.durable = self.entries.len();
    }

    /// So many of all messages that the topic has had are stored, and those that were.
    pub fn store_to(&mut self, count: u64)
        ensures value { self.new ≡ record self.old { durable = max self.old.durable (min (count - self.old.gone) (length self.old.log.log)) } }
        ensures machine { (s : State) → self.new.durable ≡ durable_to (written_in self.old s) count }
    {
        let count = count.saturating_sub(self.gone);
        let kept = count.min(self.entries.len() as u64) as usize;
        self.durable = self.durable.max(kept);
    }
}
