// Who sits at a seat, and what it waits for.
use delivery_machine::ConsumerNumber;
use std::sync::Arc;

/// Who sits at a seat.
#[derive(Drop)]
pub(crate) struct Resident<B: Drop> {
    pub(crate) bell: Arc<B>,
    /// Its consumer, and the place of the line of its subscription.
    pub(crate) consumer: Option<ConsumerNumber>,
    pub(crate) line: Option<usize>,
    /// The length of the log that it waits for to be stored; it is in the list of those who do.
    pub(crate) durable: Option<u64>,
    /// It is in its line.
    pub(crate) is_listed: bool,
}

impl<B: Drop> Resident<B> {
    pub(crate) fn new(bell: Arc<B>) -> Self {
        Resident {
            bell,
            consumer: None,
            line: None,
            durable: None,
            is_listed: false,
        }
    }

    pub(crate) fn join(&mut self, consumer: ConsumerNumber, line: usize) {
        self.consumer = Some(consumer);
        self.line = Some(line);
    }

    /// It is no consumer any more. The line that it was in.
    pub(crate) fn leave(&mut self) -> Option<usize> {
        self.consumer = None;
        self.is_listed = false;
        self.line.take()
    }

    /// It waits for this length to be stored. Whether it waited for none before.
    pub(crate) fn wait_for(&mut self, length: u64) -> bool {
        let is_new = self.durable.is_none();
        self.durable = Some(length);
        is_new
    }

    /// Whether what it waits for is stored, where so much is; it waits no more then.
    pub(crate) fn is_stored_for(&mut self, durable: u64) -> bool {
        match self.durable {
            Some(length) if length > durable => false,
            _ => {
                self.durable = None;
                true
            }
        }
    }

    /// It is in its line. Whether it was not before.
    pub(crate) fn list(&mut self) -> bool {
        let is_new = !self.is_listed;
        self.is_listed = true;
        is_new
    }
}
