// Whose session it is.
ghost use Rattle.std.specs.Prelude.{◌≡◌, IfOk};
ghost use Rattle.session_texts.specs.Outcomes.{farewell_of, first_of};

use delivery_machine::{ConsumerNumber, Event, ProducerNumber, SubscriptionName};

/// Whose session it is, by the number that the topic gave.
#[derive(Debug, Drop)]
pub enum Party {
    /// `first` is the sequence number of its first publish, where one is left.
    Producer {
        number: ProducerNumber,
        first: Option<i64>,
    },
    Consumer {
        number: ConsumerNumber,
        subscription: SubscriptionName,
    },
    Admin,
}

impl Party {
    /// The number of its first publish, where one is left.
    pub fn first(&self) -> Option<i64>
        ensures { result ≡ first_of self.now }
    {
        match self {
            Party::Producer { number: _, first } => *first,
            Party::Consumer {
                number: _,
                subscription: _,
            } => None,
            Party::Admin => None,
        }
    }

    /// The event with which its session ends, where it has one.
    pub fn farewell(&self) -> Option<Event>
        ensures { result ≡ farewell_of self.now }
    {
        match self {
            Party::Producer { number, first: _ } => Some(Event::DropProducer { producer: *number }),
            Party::Consumer {
                number,
                subscription: _,
            } => Some(Event::Leave { consumer: *number }),
            Party::Admin => None,
        }
    }
}
