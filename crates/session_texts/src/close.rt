// Why a session is closed.
ghost use Rattle.std.specs.Prelude.{◌≡◌, ◌≤◌, length};
ghost use Rattle.session_texts.specs.Numbers.{reason_of};
ghost use Rattle.session_texts.specs.Asking.{refusing, unreadable_close};

use position_core::Fault;

/// A close: its code, 4000 more than the number of an error of the WebSocket API, and the refusal that is its reason.
#[derive(Clone, Copy, Debug, PartialEq, Eq)]
pub struct Close {
    pub code: u16,
    pub fault: Fault,
}

impl Close {
    /// The topic refused, or the session is at an end (code 4008).
    pub fn refusing(fault: Fault) -> Close
        ensures { result ≡ refusing fault }
    {
        Close { code: 4008, fault }
    }

    /// A text could not be read (code 4003).
    pub fn unreadable(fault: Fault) -> Close
        ensures { result ≡ unreadable_close fault }
    {
        Close { code: 4003, fault }
    }
}

/// The reason of a close, as `F18`.
pub fn reason(fault: Fault) -> &'static str
    ensures value { result.now ≡ reason_of fault }
    ensures short { length result.now ≤ 123 }
{
    match fault {
        Fault::NoMemory => "F1",
        Fault::ProducerBusy => "F2",
        Fault::NoSession => "F3",
        Fault::TopicFull => "F4",
        Fault::WrongKind => "F5",
        Fault::ConsumerBusy => "F6",
        Fault::TooMany => "F7",
        Fault::NoSuchMessage => "F8",
        Fault::NotCumulative => "F9",
        Fault::NotPending => "F10",
        Fault::NoSuchSubscription => "F11",
        Fault::SubscriptionBusy => "F12",
        Fault::TooManyPermits => "F13",
        Fault::DeadLetterSelf => "F14",
        Fault::JournalFull => "F15",
        Fault::StoreFailed => "F16",
        Fault::BadId => "F17",
        Fault::BadJson => "F18",
        Fault::BadPayload => "F19",
        Fault::BadRoute => "F20",
        Fault::NoRoom => "F21",
        Fault::PushMode => "F22",
        Fault::HashOverlap => "F23",
        Fault::MixedPolicy => "F24",
    }
}
