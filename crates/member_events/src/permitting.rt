// Permits for consumers that pull, and what a consumer collects.
ghost use Rattle.std.specs.Prelude.{◌≡◌, IfOk, IfErr};
ghost use Rattle.position_core.specs.declared.fault.Fault.TheVariants.{NoMemory};
ghost use Rattle.delivery_machine.specs.Delivering.{out_of};
ghost use Rattle.delivery_machine.specs.Run.{Answers};
ghost use Rattle.delivery_machine.specs.declared.event.Event.TheVariants.{Collect, Permit};
ghost use Rattle.topic_served.specs.Served.{IsBound, IsSettled, state_in};

use delivery_machine::{Deliveries, Reply};
use position_core::{ConsumerNumber, Fault, Permits};
use topic_served::Served;

/// Lets the consumer be sent so many further messages.
pub fn permit(served: &mut Served, consumer: ConsumerNumber, permits: Permits) -> Reply
    requires { IsSettled served.old }
    ensures answers { Answers (state_in served.old) (Permit consumer permits) result (state_in served.new) }
    ensures bound { IsBound served.new }
{
    served.parts.members.permit(consumer, permits)
}

/// Hands over what the consumer was sent.
pub fn collect(served: &mut Served, consumer: ConsumerNumber) -> Reply
    requires { IsSettled served.old }
    ensures answers { Answers (state_in served.old) (Collect consumer) result (state_in served.new) }
    ensures bound { IsBound served.new }
{
    served.parts.members.collect(consumer)
}

/// What the consumer was sent and has not collected: nothing where there is no such consumer.
pub fn out_copy(served: &Served, consumer: ConsumerNumber) -> Result<Deliveries, Fault>
    ensures ok { IfOk result (λ copies. copies ≡ out_of (state_in served.now) consumer) }
    ensures err { IfErr result (λ fault. fault ≡ NoMemory) }
{
    match served.parts.members.out_copy(consumer) {
        Ok(copies) => Ok(copies),
        Err(_) => Err(Fault::NoMemory),
    }
}
