// A topic that is had alone for several events.
ghost use Rattle.std.specs.Prelude.{◌≡◌, Err, IsOk, Ok, Result, true};
ghost use Rattle.position_core.specs.declared.fault.Fault.{Fault};
ghost use Rattle.delivery_machine.specs.State.{State};
ghost use Rattle.delivery_machine.specs.declared.event.Event.{Event};
ghost use Rattle.delivery_machine.specs.declared.reply.Reply.{Reply};
ghost use Rattle.session_links.specs.Creating.{Hears, is_leave};

use delivery_machine::{Event, Fault, Reply};

/// Whoever has a topic alone: between the events that it hands over there are no others.
pub trait Hold {
    /// The machine's state that the topic is in.
    ghost state: { Self → State };

    /// How an event may be answered, from one state to another.
    ghost answers: { State → Event → Result Reply Fault → State → Type 0 };

    /// Hands the event over. An `Err` is a refusal of what stands before the topic. A consumer that is there can always leave.
    fn hand(&mut self, event: Event) -> Result<Reply, Fault>
        ensures answers { answers (state self.old) event result (state self.new) }
        ensures leaves { is_leave (state self.old) event ≡ true → IsOk result };

    /// From now on one event that takes no memory is answered without any.
    fn spare(&mut self)
        ensures { state self.new ≡ state self.old };

    /// What is answered is the machine's reply.
    ghost hears: { (s : State) (event : Event) (reply : Reply) (t : State) → answers s event (Ok reply) t → Hears s event reply t };

    /// What was refused leaves the topic as it was.
    ghost refuses: { (s : State) (event : Event) (fault : Fault) (t : State) → answers s event (Err fault) t → t ≡ s };
}
