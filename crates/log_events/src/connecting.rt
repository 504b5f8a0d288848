// Producers connect to a topic and leave it.
ghost use Rattle.std.specs.Prelude.{◌≡◌};
ghost use Rattle.delivery_machine.specs.Run.{Answers};
ghost use Rattle.delivery_machine.specs.declared.event.Event.TheVariants.{AddProducer, DropProducer};
ghost use Rattle.topic_served.specs.Served.{IsBound, IsSettled, state_in};

use delivery_machine::Reply;
use position_core::{Base, ProducerName, ProducerNumber};
use topic_served::Served;

/// Connects a producer, under a name of the topic's making where it asks for none.
pub fn add_producer(served: &mut Served, asked: &Option<ProducerName>, base: Base) -> Reply
    requires { IsSettled served.old }
    ensures answers { Answers (state_in served.old) (AddProducer asked.now base) result (state_in served.new) }
    ensures bound { IsBound served.new }
{
    served.parts.log.add_producer(asked, base)
}

/// The producer leaves. Its messages stay. Takes no memory.
pub fn drop_producer(served: &mut Served, producer: ProducerNumber) -> Reply
    requires { IsSettled served.old }
    ensures answers { Answers (state_in served.old) (DropProducer producer) result (state_in served.new) }
    ensures bound { IsBound served.new }
{
    served.parts.log.drop_producer(producer)
}
