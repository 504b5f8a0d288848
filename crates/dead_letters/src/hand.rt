// What the courier has in its hand.
use delivery_machine::{Message, Ordinal, ProducerNumber, TopicName};

/// A dead letter that is on its way.
#[derive(Drop)]
pub struct Letter {
    pub message: Message,
    pub target: TopicName,
    pub ordinal: Ordinal,
}

/// How far the courier is with a letter.
#[derive(Drop)]
pub enum Hand {
    Empty,
    /// It has a letter.
    Holds(Letter),
    /// It is a producer at the letter's topic.
    Joined {
        letter: Letter,
        producer: ProducerNumber,
    },
    /// The copy is in the log, which had this length with it.
    Copied {
        letter: Letter,
        producer: ProducerNumber,
        length: u64,
    },
    /// The topic did not take the copy: the courier goes, and the letter stays where it is.
    Leaves {
        producer: ProducerNumber,
    },
    /// The log is to be stored up to this length.
    Waits {
        letter: Letter,
        length: u64,
    },
    /// The copy is stored.
    Moved {
        letter: Letter,
    },
}

impl Hand {
    ghost use Rattle.std.specs.Prelude.{◌≡◌, option_copied};
    ghost use Rattle.dead_letters.specs.Moving.{target_of};

    /// The topic that the letter in it goes to.
    pub fn target(&self) -> Option<&TopicName>
        ensures { option_copied result ≡ target_of self.now }
    {
        match self {
            Hand::Empty => None,
            Hand::Holds(letter) => Some(&letter.target),
            Hand::Joined {
                letter,
                producer: _,
            } => Some(&letter.target),
            Hand::Copied {
                letter,
                producer: _,
                length: _,
            } => Some(&letter.target),
            Hand::Leaves { producer: _ } => None,
            Hand::Waits { letter, length: _ } => Some(&letter.target),
            Hand::Moved { letter } => Some(&letter.target),
        }
    }
}
