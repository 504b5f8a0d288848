// The plain topic and the fast one, asked the same.
use super::calls::topic_name;
use super::dice::Dice;
use delivery_machine::{Event, KeptAge, KeptMessages, Opened, Reply, Retention};
use position_core::{Fault, LedgerSize, TopicName};
use replay_lines::{Line, Unread, read_line};
use std::alloc::Global;
use std::io::BufRead;
use std::process::Abort;
use topic_restart::Restartable;

/// A store of a part has fewer messages than one of these, which may be more than there are.
const FEW_STORED: u64 = 24;

const MOST_STORED: u64 = 400;

fn is_refused_memory(answer: &Result<Reply, Fault>) -> bool {
    matches!(answer, Err(_) | Ok(Reply::Refused(Fault::NoMemory)))
}

/// Asks once more where memory was refused: the topic is to be as it was.
fn ask<T: Opened + Drop>(topic: &mut Restartable<T>, event: &Event) -> Result<Reply, Fault> {
    let answer = topic.apply(event);
    if is_refused_memory(&answer) {
        drop(answer);
        topic.apply(event)
    } else {
        answer
    }
}

/// The ledger that the topic goes on in.
fn restart<T: Opened + Drop>(topic: &mut Restartable<T>, alloc: Global) -> Option<u64> {
    match topic.restart(alloc) {
        Ok(ledger) => Some(ledger),
        Err(_) => topic.restart(alloc).ok(),
    }
}

fn are_alike(plainly: &Result<Reply, Fault>, fastly: &Result<Reply, Fault>) -> bool {
    match (plainly, fastly) {
        (Ok(plainly), Ok(fastly)) => fastly.is(plainly),
        _ => false,
    }
}

fn check_alike<R: Abort>(
    rt: &R,
    plainly: &Result<Reply, Fault>,
    fastly: &Result<Reply, Fault>,
    line: &str,
) {
    assert!(rt; are_alike(plainly, fastly), "{line}");
}

/// The plain topic and the fast one, with what is stored of each, and what looks random.
#[derive(Drop)]
pub(super) struct Pair<P: Opened, F: Opened> {
    alloc: Global,
    name: TopicName,
    plain: Restartable<P>,
    fast: Restartable<F>,
    dice: Dice,
}

fn begin<R: Abort + AllocGlobal, T: Opened + Drop>(rt: &R, size: LedgerSize) -> Restartable<T> {
    let topic = T::fresh(rt.alloc(), topic_name(rt), size).expect(rt, "no memory");
    Restartable::new(topic).expect(rt, "no memory")
}

impl<P: Opened + Drop, F: Opened + Drop> Pair<P, F> {
    pub(super) fn new<R: Abort + AllocGlobal>(rt: &R, size: LedgerSize, number: u64) -> Self {
        Pair {
            alloc: rt.alloc(),
            name: topic_name(rt),
            plain: begin(rt, size),
            fast: begin(rt, size),
            dice: Dice::new(number),
        }
    }

    /// Whether a store of a part is to come in place of the event.
    fn stores_part(&mut self, event: &Event) -> bool {
        matches!(event, Event::Stored) && self.dice.roll(3) == 0
    }

    /// Whether another rule of what is kept is to come in place of the event.
    fn sets_retention(&mut self, event: &Event) -> bool {
        matches!(event, Event::Progress) && self.dice.roll(2) == 0
    }

    /// Both answer the event alike.
    fn ask<R: Abort>(&mut self, rt: &R, event: &Event, line: &str) {
        let plainly = ask(&mut self.plain, event);
        let fastly = ask(&mut self.fast, event);
        check_alike(rt, &plainly, &fastly, line);
        drop(fastly);
        drop(plainly);
    }

    /// Both go on from what is stored.
    fn restart<R: Abort>(&mut self, rt: &R) {
        let plainly = restart(&mut self.plain, self.alloc);
        let fastly = restart(&mut self.fast, self.alloc);
        assert!(rt; plainly.is_some() && fastly == plainly);
    }

    fn retention(&mut self) -> Option<Retention> {
        match self.dice.roll(4) {
            0 => None,
            1 => Some(Retention::All),
            2 => KeptMessages::new(10).map(Retention::Messages),
            _ => KeptAge::new(self.dice.roll(3)).map(Retention::Age),
        }
    }

    fn ask_retention<R: Abort>(&mut self, rt: &R, line: &str) {
        let retention = self.retention();
        let event = Event::SetRetention { retention };
        self.ask(rt, &event, line);
        drop(event);
    }

    fn number_stored(&mut self) -> u64 {
        match self.dice.roll(2) {
            0 => self.dice.roll(FEW_STORED),
            _ => self.dice.roll(MOST_STORED),
        }
    }

    fn ask_part<R: Abort>(&mut self, rt: &R, line: &str) {
        let part = Event::StoredTo {
            length: self.number_stored(),
            ordinal: self.dice.roll(4),
        };
        self.ask(rt, &part, line);
        drop(part);
    }

    /// The event, or at times one that no line has.
    fn ask_chosen<R: Abort>(&mut self, rt: &R, event: &Event, line: &str) {
        if self.stores_part(event) {
            self.ask_part(rt, line);
        } else if self.sets_retention(event) {
            self.ask_retention(rt, line);
        } else {
            self.ask(rt, event, line);
        }
    }

    fn answer_read<R: Abort>(&mut self, rt: &R, read: &Result<Line, Unread>, line: &str) {
        match read {
            Ok(Line::Event(event)) => self.ask_chosen(rt, event, line),
            Ok(Line::Restart) => self.restart(rt),
            _ => {}
        }
    }

    /// So they answer the line, where it stands for an event or a restart.
    fn answer<R: Abort>(&mut self, rt: &R, line: &str) {
        let read = read_line(self.alloc, &self.name, line.as_bytes());
        self.answer_read(rt, &read, line);
        drop(read);
    }

    pub(super) fn answer_each<R: Abort + AllocGlobal>(&mut self, rt: &R, lines: &str) {
        for line in lines.as_bytes().lines(rt.alloc()) {
            self.answer(rt, line.expect(rt, "no memory").as_str());
        }
    }
}
