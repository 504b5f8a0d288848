// A newcomer enters a subscription that is there.
ghost use Rattle.std.specs.Prelude.{◌≡◌, OnOk, OnErr, IfErr};
ghost use Rattle.position_core.specs.declared.fault.Fault.TheVariants.{NoMemory};
ghost use Rattle.topic_served.specs.Agreeing.{AsksForFree};
ghost use Rattle.topic_members.specs.Members.{joining};
ghost use Rattle.topic_served.specs.Served.{IsBound, state_in};
ghost use Rattle.member_events.specs.Places.{names_of};
ghost use Rattle.member_events.specs.Entering.{AsksWell, LetsIn, MayEnter, StaysAs, entered};

use position_core::{Fault, Ranges, SubscriptionName, TopicName};
use topic_members::Terms;
use topic_parts::Parts;
use topic_served::{Dispatch, Served};

/// Lets the next consumer in, and tells the dispatcher. Nothing changes where there is no memory.
pub(crate) fn let_in(
    parts: &mut Parts,
    dispatch: &mut Dispatch,
    place: usize,
    name: SubscriptionName,
    terms: Terms,
    dead_topic: TopicName,
    ranges: &Option<Ranges>,
) -> Result<(), Fault>
    requires may { MayEnter parts.old place name }
    requires free { AsksWell parts.old place ranges.now }
    requires untaken { AsksForFree dispatch.old ranges.now }
    ensures ok { OnOk result (LetsIn place ranges.now (joining parts.old.members.next name terms dead_topic) parts.old parts.new dispatch.old dispatch.new) }
    ensures err { IfErr result (λ fault. fault ≡ NoMemory) }
    ensures stays { OnErr result (StaysAs parts.old parts.new) }
    ensures untold { OnErr result (dispatch.new ≡ dispatch.old) }
{
    let _length = parts.log.len();
    let _many = parts.members.len();
    let consumer = parts.members.next();
    let kind = parts.subscriptions[place].kind();
    let Ok(()) = parts.subscriptions[place].join(kind, ranges, consumer) else {
        drop(name);
        drop(dead_topic);
        return Err(Fault::NoMemory);
    };
    parts.members.add_reserved(name, terms, dead_topic);
    let view = parts.at(place);
    let told = dispatch.on_join(&view, consumer, ranges);
    match told {
        Ok(()) => Ok(()),
        Err(fault) => {
            parts.subscriptions[place].undo_join(kind, consumer);
            parts.members.take_last();
            Err(fault)
        }
    }
}

/// Lets the next consumer into the subscription, which has its kind. Nothing changes where there is no memory.
pub(crate) fn enter(
    served: &mut Served,
    place: usize,
    name: SubscriptionName,
    terms: Terms,
    dead_topic: TopicName,
    ranges: &Option<Ranges>,
) -> Result<(), Fault>
    requires bound { IsBound served.old }
    requires may { MayEnter served.old.parts place name }
    requires free { AsksWell served.old.parts place ranges.now }
    ensures ok { OnOk result (state_in served.new ≡ entered (state_in served.old) ranges.now (joining served.old.parts.members.next name terms dead_topic)) }
    ensures names { names_of served.new.parts.subscriptions.items ≡ names_of served.old.parts.subscriptions.items }
    ensures err { IfErr result (λ fault. fault ≡ NoMemory) }
    ensures same { OnErr result (state_in served.new ≡ state_in served.old) }
    ensures bound { IsBound served.new }
{
    let _many = served.parts.members.len();
    let entered = let_in(
        &mut served.parts,
        &mut served.dispatchers[place],
        place,
        name,
        terms,
        dead_topic,
        ranges,
    );
    match entered {
        Ok(()) => Ok(()),
        Err(fault) => Err(fault),
    }
}
