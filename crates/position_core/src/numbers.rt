// All of 64 bits, so the compiler takes one for another: the names say what each counts.

/// The number of a producer: a topic counts its producers from 1 on, in the order of connecting.
pub type ProducerNumber = u64;

/// The number of a consumer: a topic counts its consumers from 1 on, in the order of joining.
pub type ConsumerNumber = u64;

/// The number of a death: a topic counts its deaths from 0 on.
pub type Ordinal = u64;

/// Where a message stands in a topic's log, from 0 on.
pub type LogIndex = u64;

/// From when on a pending message may be released: milliseconds since 1970, possibly past the last moment.
pub type DueMoment = u64;
