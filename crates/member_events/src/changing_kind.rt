// The first member brings another kind.
ghost use Rattle.std.specs.Prelude.{◌≡◌, [], Some, IfErr, OnOk, OnErr, slice_get};
ghost use Rattle.position_core.specs.declared.fault.Fault.TheVariants.{NoMemory};
ghost use Rattle.delivery_machine.specs.Words.{members_of};
ghost use Rattle.topic_served.specs.Stepping.{with_kind};
ghost use Rattle.topic_members.specs.Members.{joining};
ghost use Rattle.topic_served.specs.Served.{IsBound, state_in};
ghost use Rattle.member_events.specs.Places.{names_of};
ghost use Rattle.member_events.specs.Entering.{HasNoShares, MayEnter, entered};

use crate::entering::let_in;
use crate::opening::begin;
use position_core::{Fault, Kind, Ranges, SubscriptionName, TopicName};
use topic_members::Terms;
use topic_served::Served;

/// Lets the next consumer into the subscription, which has no members and takes the kind: a new dispatcher
/// begins. Nothing changes where there is no memory.
pub(crate) fn enter_anew(
    served: &mut Served,
    place: usize,
    kind: Kind,
    name: SubscriptionName,
    terms: Terms,
    dead_topic: TopicName,
    ranges: &Option<Ranges>,
) -> Result<(), Fault>
    requires bound { IsBound served.old }
    requires may { MayEnter served.old.parts place name }
    requires nobody { members_of (state_in served.old) name ≡ [] }
    requires unshared { HasNoShares served.old.parts place }
    ensures ok { OnOk result (state_in served.new ≡ entered (with_kind (state_in served.old) name kind) ranges.now (joining served.old.parts.members.next name terms dead_topic)) }
    ensures names { names_of served.new.parts.subscriptions.items ≡ names_of served.old.parts.subscriptions.items }
    ensures err { IfErr result (λ fault. fault ≡ NoMemory) }
    ensures same { OnErr result (state_in served.new ≡ state_in served.old) }
    ensures bound { IsBound served.new }
{
    let _many = served.parts.members.len();
    let before = served.parts.subscriptions[place].kind();
    served.parts.subscriptions[place].set_kind(kind);
    let Ok(mut begun) = begin(&served.parts, place, kind) else {
        drop(name);
        drop(dead_topic);
        served.parts.subscriptions[place].set_kind(before);
        return Err(Fault::NoMemory);
    };
    let entered = let_in(
        &mut served.parts,
        &mut begun,
        place,
        name,
        terms,
        dead_topic,
        ranges,
    );
    match entered {
        Ok(()) => {
            drop(std::mem::replace(&mut served.dispatchers[place], begun));
            Ok(())
        }
        Err(fault) => {
            drop(begun);
            served.parts.subscriptions[place].set_kind(before);
            Err(fault)
        }
    }
}
