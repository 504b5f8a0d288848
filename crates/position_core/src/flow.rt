// Consumers that are pushed to, and those that pull.
ghost use Rattle.std.specs.Prelude.{◌≡◌, ◌-◌, Some, None, IfOk, IfErr};
ghost use Rattle.position_core.specs.Flow.{begun, granted, granting_refused, spent};

use crate::bounded::{Credit, Permits, WindowSize};
use crate::fault::Fault;

/// How many messages a consumer takes (Pulsar's WebSocket API, "Flow control").
#[derive(Clone, Copy, Debug, PartialEq, Eq)]
pub enum Flow {
    /// It is pushed to: at most this many pending at it.
    Window(WindowSize),
    /// It pulls: this many further messages.
    Credit(Credit),
}

impl Flow {
    /// As a consumer begins: without credit.
    pub fn begun(self) -> Flow
        ensures { result ≡ begun self }
    {
        match self {
            Flow::Window(size) => Flow::Window(size),
            Flow::Credit(_) => Flow::Credit(no_credit()),
        }
    }

    /// With one message more sent to the consumer.
    pub fn spent(self) -> Flow
        ensures { result ≡ spent self }
    {
        match self {
            Flow::Window(size) => Flow::Window(size),
            Flow::Credit(left) => Flow::Credit(one_less(left)),
        }
    }

    /// With a permit for so many further messages.
    pub fn granted(self, permits: Permits) -> Result<Flow, Fault>
        ensures granted { IfOk result (λ flow. flow ≡ granted permits self) }
        ensures allowed { IfOk result (λ flow. granting_refused permits self ≡ None) }
        ensures refused { IfErr result (λ fault. granting_refused permits self ≡ Some fault) }
    {
        match self {
            Flow::Window(_) => Err(Fault::PushMode),
            Flow::Credit(left) => match Credit::new(left.get() + permits.get()) {
                Some(sum) => Ok(Flow::Credit(sum)),
                None => Err(Fault::TooManyPermits),
            },
        }
    }
}

fn no_credit() -> Credit
    ensures { result ≡ 0 }
{
    match Credit::new(0) {
        Some(none) => none,
        None => unreachable!(),
    }
}

fn one_less(left: Credit) -> Credit
    ensures { result ≡ left - 1 }
{
    match Credit::new(left.get().saturating_sub(1)) {
        Some(less) => less,
        None => unreachable!(),
    }
}
