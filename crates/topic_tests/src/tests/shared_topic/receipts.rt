// Eight threads at one shared topic: after the close each receipt has its line, and no other.
ghost use Rattle.std.specs.Prelude.{◌≡◌, []};
ghost use Rattle.delivery_machine.specs.State.{fresh};

use super::asks::{Ask, event_of, name, size};
use delivery_machine::{Deliveries, Event, Reply, Topic};
use std::alloc::AllocError;
use std::marker::Brand;
use std::process::Abort;
use std::sync::Wait;
use std::sync::ledger::Blank;
use std::test::Fail;
use std::thread;
use std::thread::Threads;
use topic_core::TopicCore;
use topic_shared::{Journal, LineLimit, Opening, Receipt, Seat, SeatCount, SharedTopic};

const THREADS: u32 = 8;

const MESSAGES: u8 = 100;

static NAMES: [&str; 8] = ["a", "b", "c", "d", "e", "f", "g", "h"];

fn name_of(which: usize) -> &'static str {
    NAMES[which % 8]
}

// A call that was answered.
#[derive(Drop)]
struct Answered {
    receipt: Receipt,
    ask: Ask,
}

// The calls of a thread.
#[derive(Drop)]
struct Calls {
    who: &'static str,
    calls: Vec<Answered>,
}

// What a thread has done.
#[derive(Drop)]
struct Worked<L: Opening> {
    seat: Seat<L>,
    who: &'static str,
    calls: Vec<Answered>,
}

impl<L: Opening> Worked<L> {
    /// One call, noted; true where its answer is not `Idle`.
    fn call<R: Wait + Abort + AllocGlobal, T: Topic + Drop>(
        &mut self,
        rt: &R,
        topic: &SharedTopic<T, L>,
        ask: Ask,
    ) -> bool {
        let event = event_of(rt, self.who, ask);
        let receipt = topic.call(rt, &mut self.seat, event).expect(rt, "answered");
        let goes_on = !matches!(receipt.reply, Reply::Idle);
        self.calls
            .push(Answered { receipt, ask })
            .expect(rt, "no memory");
        goes_on
    }

    fn publish_all<R: Wait + Abort + AllocGlobal, T: Topic + Drop>(
        &mut self,
        rt: &R,
        topic: &SharedTopic<T, L>,
        producer: u64,
    ) {
        for sequence in 0..MESSAGES {
            let sequence = i64::from(sequence);
            self.call(rt, topic, Ask::Publish { producer, sequence });
        }
    }

    fn dispatch_all<R: Wait + Abort + AllocGlobal, T: Topic + Drop>(
        &mut self,
        rt: &R,
        topic: &SharedTopic<T, L>,
    ) {
        for _ in 0..1000 {
            if !self.call(rt, topic, Ask::Dispatch) {
                return;
            }
        }
    }

    /// Publishes messages and reads them back.
    fn work<R: Wait + Abort + AllocGlobal, T: Topic + Drop>(
        &mut self,
        rt: &R,
        topic: &SharedTopic<T, L>,
    ) {
        self.call(rt, topic, Ask::Connect);
        let producer = self.attached();
        self.call(rt, topic, Ask::Join);
        let consumer = self.attached();
        self.publish_all(rt, topic, producer);
        self.call(rt, topic, Ask::Store);
        self.dispatch_all(rt, topic);
        self.call(rt, topic, Ask::Collect { consumer });
        assert_eq!(rt; self.read_back(), MESSAGES as usize);
    }

    /// The number that the last call attached.
    fn attached(&self) -> u64 {
        match self.calls.as_slice().last() {
            Some(Answered { receipt, ask: _ }) => match &receipt.reply {
                Reply::ProducerAdded { producer, .. } => *producer,
                Reply::Subscribed { consumer } => *consumer,
                _ => 0,
            },
            None => 0,
        }
    }

    /// How many messages of its own the last call handed out.
    fn read_back(&self) -> usize {
        match self.calls.as_slice().last() {
            Some(Answered { receipt, ask: _ }) => match &receipt.reply {
                Reply::Copies(copies) => own(copies, self.who),
                _ => 0,
            },
            None => 0,
        }
    }
}

/// How many of the messages are the producer's.
fn own(copies: &Deliveries, who: &str) -> usize {
    copies
        .as_slice()
        .iter()
        .filter(|copy| copy.message.entry().producer.as_str() == who)
        .count()
}

fn take_part<L: Opening, R: Wait + Abort + AllocGlobal, T: Topic + Drop>(
    rt: &R,
    topic: &SharedTopic<T, L>,
    which: usize,
) -> Worked<L> {
    let mut done = Worked {
        seat: topic.take_seat(rt).expect(rt, "a seat"),
        who: name_of(which),
        calls: Vec::new(rt.alloc()),
    };
    done.work(rt, topic);
    done
}

// What one of several threads does with what they share.
trait Job {
    type Out: Send + Drop;

    fn go<R: Wait + Abort + AllocGlobal>(&self, rt: &R, which: usize) -> Self::Out;
}

impl<L: Opening + Send + Sync> Job for SharedTopic<TopicCore, L> {
    type Out = Worked<L>;

    fn go<R: Wait + Abort + AllocGlobal>(&self, rt: &R, which: usize) -> Worked<L> {
        take_part(rt, self, which)
    }
}

fn by_all<X: Job + Sync, R: Threads + Wait + Abort + AllocGlobal + Sync>(
    rt: &R,
    shared: &X,
) -> Result<Vec<X::Out>, AllocError> {
    thread::map_indices(rt, rt.alloc(), THREADS as usize, &|i| shared.go(rt, i))
}

fn check_line<R: Abort>(rt: &R, journal: &Journal, receipt: &Receipt, event: &Event, want: bool) {
    assert!(rt; journal.check(receipt, event) == want);
}

/// The receipt has its line, and no other event, seat or number has.
fn check_receipt<R: Abort>(rt: &R, journal: &Journal, receipt: &mut Receipt, event: &Event) {
    let seat = receipt.seat;
    check_line(rt, journal, receipt, event, true);
    check_line(rt, journal, receipt, &Event::Progress, false);
    receipt.seat = seat.wrapping_add(1);
    check_line(rt, journal, receipt, event, false);
    receipt.seat = seat;
    receipt.number = receipt.number.wrapping_add(1);
    check_line(rt, journal, receipt, event, false);
}

fn check<R: Abort + AllocGlobal>(rt: &R, journal: &Journal, calls: &mut Calls) {
    for call in calls.calls.iter_mut() {
        let event = event_of(rt, calls.who, call.ask);
        check_receipt(rt, journal, &mut call.receipt, &event);
        drop(event);
    }
}

/// Each receipt has its line, and there are no other lines.
fn check_all<R: Abort + AllocGlobal>(rt: &R, journal: &Journal, lists: &mut [Calls]) {
    let mut count: usize = 0;
    for calls in lists.iter_mut() {
        count = calls.calls.len().saturating_add(count);
        check(rt, journal, calls);
    }
    assert_eq!(rt; journal.len(), count);
}

fn part<L: Opening>(
    work: Worked<L>,
    seats: &mut Vec<Seat<L>>,
    lists: &mut Vec<Calls>,
) -> Result<(), AllocError> {
    let Worked { seat, who, calls } = work;
    seats.push(seat)?;
    lists.push(Calls { who, calls })?;
    Ok(())
}

fn part_all<L: Opening>(
    works: Vec<Worked<L>>,
    seats: &mut Vec<Seat<L>>,
    lists: &mut Vec<Calls>,
) -> Result<(), AllocError> {
    for work in works {
        part(work, seats, lists)?;
    }
    Ok(())
}

fn close<L: Opening, R: Abort + AllocGlobal, T: Topic + Drop>(
    rt: &R,
    topic: SharedTopic<T, L>,
    seats: Vec<Seat<L>>,
    lists: &mut [Calls],
) -> Result<(), Fail> {
    match topic.close(seats) {
        Ok(journal) => {
            check_all(rt, &journal, lists);
            Ok(())
        }
        Err(_) => Err(Fail::from("a seat is missing")),
    }
}

fn end<L: Opening, R: Abort + AllocGlobal, T: Topic + Drop>(
    rt: &R,
    topic: SharedTopic<T, L>,
    works: Vec<Worked<L>>,
) -> Result<(), Fail> {
    let mut seats = Vec::new(rt.alloc());
    let mut lists = Vec::new(rt.alloc());
    match part_all(works, &mut seats, &mut lists) {
        Ok(()) => close(rt, topic, seats, &mut lists),
        Err(error) => Err(Fail::from(error)),
    }
}

fn run<L: Opening + Send + Sync, R: Threads + Wait + Abort + AllocGlobal + Sync>(
    rt: &R,
    base: TopicCore,
    blank: Blank,
    seats: SeatCount,
) -> Result<(), Fail>
    requires ledger { (blank.name ≡ L.name) × (blank.parts ≡ L.parts) × (blank.parts ≡ seats) }
    requires opening { base ≡ L.opening }
    requires nobody { (base.producers ≡ []) × (base.members ≡ []) }
{
    let limit = LineLimit::new(100_000).expect(rt, "a limit");
    let topic = SharedTopic::<TopicCore, L>::open(rt.alloc(), base, blank, limit, seats)?;
    let works = by_all::<SharedTopic<TopicCore, L>, R>(rt, &topic)?;
    end(rt, topic, works)
}

#[test]
fn receipts(rt: HostRuntime) -> Result<(), Fail> {
    let seats = SeatCount::new(THREADS).expect(&rt, "seats");
    let base = TopicCore::new(rt.alloc(), name(&rt), size(&rt));
    run::<Brand, HostRuntime>(&rt, base, Blank::new(u64::from(THREADS)), seats)
}
