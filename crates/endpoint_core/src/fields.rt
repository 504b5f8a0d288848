// The parameters of a query that may be wrong.
ghost use Rattle.std.specs.Prelude.{◌≡◌};
ghost use Rattle.endpoint_core.specs.Fields.{name_of};

/// A parameter that is looked at for its value, or the query as a whole.
#[derive(Clone, Copy, Debug, PartialEq, Eq)]
pub enum Field {
    /// The query as a whole: a part of it is not UTF-8.
    Query,
    ProducerName,
    InitialSequenceId,
    SubscriptionType,
    PriorityLevel,
    PullMode,
    ReceiverQueueSize,
    AckTimeoutMillis,
    NegativeAckRedeliveryDelay,
    MaxRedeliverCount,
    DeadLetterTopic,
    SubscriptionInitialPosition,
    SubscriptionMode,
    KeySharedRanges,
}

impl Field {
    /// Its name in the query; `query` for the whole.
    pub fn name(self) -> &'static str
        ensures { result.now ≡ name_of self }
    {
        match self {
            Field::Query => "query",
            Field::ProducerName => "producerName",
            Field::InitialSequenceId => "initialSequenceId",
            Field::SubscriptionType => "subscriptionType",
            Field::PriorityLevel => "priorityLevel",
            Field::PullMode => "pullMode",
            Field::ReceiverQueueSize => "receiverQueueSize",
            Field::AckTimeoutMillis => "ackTimeoutMillis",
            Field::NegativeAckRedeliveryDelay => "negativeAckRedeliveryDelay",
            Field::MaxRedeliverCount => "maxRedeliverCount",
            Field::DeadLetterTopic => "deadLetterTopic",
            Field::SubscriptionInitialPosition => "subscriptionInitialPosition",
            Field::SubscriptionMode => "subscriptionMode",
            Field::KeySharedRanges => "keySharedRanges",
        }
    }
}
