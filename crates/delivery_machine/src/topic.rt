// What every topic keeps.
ghost use Rattle.std.specs.Prelude.{◌≡◌, IfOk, IfErr};
ghost use Rattle.position_core.specs.declared.fault.Fault.TheVariants.{NoMemory};
ghost use Rattle.delivery_machine.specs.State.{State};
ghost use Rattle.delivery_machine.specs.Delivering.{out_of};
ghost use Rattle.delivery_machine.specs.Run.{Answers};

use crate::delivery::Deliveries;
use crate::event::Event;
use crate::reply::Reply;
use crate::retention::Retention;
use position_core::{ConsumerNumber, Fault};

/// A topic, however it is kept.
pub trait Topic {
    /// The machine's state that it is in.
    ghost state: { Self → State };

    /// Answers one event by the machine's rules.
    fn apply(&mut self, event: &Event) -> Reply
        ensures { Answers (state self.old) event.now result (state self.new) };

    /// What the consumer was sent and has not collected: nothing where there is no such consumer.
    fn out_copy(&self, consumer: ConsumerNumber) -> Result<Deliveries, Fault>
        ensures ok { IfOk result (λ copies. copies ≡ out_of (state self.now) consumer) }
        ensures err { IfErr result (λ fault. fault ≡ NoMemory) };

    /// The topic's own rule of what is kept, where it has one.
    fn retention(&self) -> Option<Retention>
        ensures { result ≡ (state self.now).retention };
}
