// A subscription comes in without members, or goes again.
ghost use Rattle.std.specs.Prelude.{◌≡◌, ◌<◌, ◌≤◌, ℕ, List, [], Some, None, IfOk, IfErr, OnOk, OnErr, length, slice_get};
ghost use Rattle.std.specs.List.{insert, position as place_in, remove};
ghost use Rattle.position_core.specs.declared.fault.Fault.TheVariants.{NoMemory};
ghost use Rattle.delivery_machine.specs.Words.{is_named, members_of, removed};
ghost use Rattle.topic_served.specs.Stepping.{opened};
ghost use Rattle.topic_served.specs.Told.{IsBegunAt};
ghost use Rattle.topic_subscriptions.specs.Placed.{Placed, is_placed, sub_in};
ghost use Rattle.topic_parts.specs.Parts.{AreTied, log_of};
ghost use Rattle.topic_served.specs.Served.{IsBound, state_in};
ghost use Rattle.member_events.specs.Places.{StandsAt};
ghost use Rattle.member_events.specs.Entering.{AgreesAt, HasNoShares, IsBareAt, first_end, made_bare};

use delivery_machine::Initial;
use position_core::{ConsumerNumber, Fault, Kind, LogIndex, SubscriptionName};
use std::alloc::{AllocError, Global};
use topic_parts::Parts;
use topic_served::{Dispatch, Served};
use topic_subscriptions::{Subscription, place_for};

fn make(
    alloc: Global,
    name: SubscriptionName,
    kind: Kind,
    consumer: ConsumerNumber,
    end: LogIndex,
) -> Result<Subscription, AllocError>
    ensures { IfOk result (λ sub. sub ≡ made_bare name kind end) }
{
    match Subscription::new(alloc, name, kind, &None, consumer, end) {
        Ok(mut sub) => {
            sub.leave(consumer);
            Ok(sub)
        }
        Err(failed) => Err(failed),
    }
}

/// Where a new subscription begins.
fn end_at(served: &Served, initial: Initial) -> LogIndex
    ensures { result ≡ first_end initial (log_of served.now.parts) }
{
    match initial {
        Initial::Earliest => 0,
        Initial::Latest => served.parts.log.len() as u64,
    }
}

/// A dispatcher for the subscription at the place, which has no members.
pub(crate) fn begin(parts: &Parts, place: usize, kind: Kind) -> Result<Dispatch, Fault>
    requires tied { AreTied parts.now }
    requires bare { IsBareAt parts.now place kind }
    ensures ok { IfOk result (AgreesAt parts.now place) }
{
    let view = parts.at(place);
    match Dispatch::begin(parts.alloc, &view, kind) {
        Ok(begun) => Ok(begun),
        Err(fault) => Err(fault),
    }
}

/// Makes the subscription, without members, and puts it in at the place. Nothing changes where there is no memory.
fn put_in(
    parts: &mut Parts,
    place: usize,
    name: SubscriptionName,
    kind: Kind,
    end: LogIndex,
) -> Result<(), Fault>
    requires { place ≤ length parts.old.subscriptions.items }
    ensures ok { OnOk result (parts.new.subscriptions.items ≡ insert parts.old.subscriptions.items place (made_bare name kind end)) }
    ensures err { IfErr result (λ fault. fault ≡ NoMemory) }
    ensures same { OnErr result (parts.new.subscriptions.items ≡ parts.old.subscriptions.items) }
    ensures rest { parts.new ≡ record parts.old { subscriptions = parts.new.subscriptions } }
{
    let consumer = parts.members.next();
    let Ok(made) = make(parts.alloc, name, kind, consumer, end) else {
        return Err(Fault::NoMemory);
    };
    match parts.subscriptions.insert(place, made) {
        Ok(()) => Ok(()),
        Err(refused) => {
            drop(refused);
            Err(Fault::NoMemory)
        }
    }
}

/// Takes the subscription at the place out. Its dispatcher stays.
fn remove_subscription(parts: &mut Parts, place: usize)
    requires { place < length parts.old.subscriptions.items }
    ensures items { parts.new.subscriptions.items ≡ remove parts.old.subscriptions.items place }
    ensures rest { parts.new ≡ record parts.old { subscriptions = parts.new.subscriptions } }
{
    drop(parts.subscriptions.remove(place));
}

/// Puts in a dispatcher for the subscription at the place, which has no members. Nothing changes where there is no
/// memory.
fn begin_at(served: &mut Served, place: usize, kind: Kind) -> Result<(), Fault>
    requires tied { AreTied served.old.parts }
    requires bare { IsBareAt served.old.parts place kind }
    requires within { place ≤ length served.old.dispatchers.items }
    ensures ok { OnOk result ((p : Placed) → Some p ≡ slice_get served.old.parts.subscriptions.items place → IsBegunAt place served.old.dispatchers.items served.new.dispatchers.items (state_in served.old) (sub_in (log_of served.old.parts) p)) }
    ensures err { IfErr result (λ fault. fault ≡ NoMemory) }
    ensures same { OnErr result (served.new.dispatchers.items ≡ served.old.dispatchers.items) }
    ensures parts { served.new.parts ≡ served.old.parts }
{
    match begin(&served.parts, place, kind) {
        Ok(begun) => match served.dispatchers.insert(place, begun) {
            Ok(()) => Ok(()),
            Err(refused) => {
                drop(refused);
                Err(Fault::NoMemory)
            }
        },
        Err(_) => Err(Fault::NoMemory),
    }
}

/// Puts in the subscription, without members, and answers its place. Nothing changes where there is no memory.
pub(crate) fn open(
    served: &mut Served,
    name: SubscriptionName,
    kind: Kind,
    initial: Initial,
) -> Result<usize, Fault>
    requires bound { IsBound served.old }
    requires absent { None ≡ place_in (is_placed name) served.old.parts.subscriptions.items }
    requires nobody { members_of (state_in served.old) name ≡ [] }
    ensures ok { OnOk result (state_in served.new ≡ opened (state_in served.old) name kind initial) }
    ensures place { IfOk result (λ place. Some place ≡ place_in (is_placed name) served.new.parts.subscriptions.items) }
    ensures unshared { IfOk result (λ place. HasNoShares served.new.parts place) }
    ensures err { IfErr result (λ fault. fault ≡ NoMemory) }
    ensures same { OnErr result (state_in served.new ≡ state_in served.old) }
    ensures members { served.new.parts.members ≡ served.old.parts.members }
    ensures bound { IsBound served.new }
{
    let _length = served.parts.log.len();
    let end = end_at(served, initial);
    let place = place_for(&served.parts.subscriptions, &name);
    match put_in(&mut served.parts, place, name, kind, end) {
        Ok(()) => match begin_at(served, place, kind) {
            Ok(()) => Ok(place),
            Err(fault) => {
                remove_subscription(&mut served.parts, place);
                Err(fault)
            }
        },
        Err(fault) => Err(fault),
    }
}

fn remove_dispatch(dispatchers: &mut Vec<Dispatch>, place: usize)
    requires { place < length dispatchers.old.items }
    ensures { dispatchers.new.items ≡ remove dispatchers.old.items place }
{
    drop(dispatchers.remove(place));
}

/// Takes the subscription at the place out.
pub(crate) fn close(served: &mut Served, place: usize)
    requires bound { IsBound served.old }
    requires stands { StandsAt served.old.parts place }
    ensures gone { (name : List ℕ) → Some place ≡ place_in (is_placed name) served.old.parts.subscriptions.items → state_in served.new ≡ record (state_in served.old) { subscriptions = removed (is_named name) (state_in served.old).subscriptions } }
    ensures bound { IsBound served.new }
{
    remove_subscription(&mut served.parts, place);
    remove_dispatch(&mut served.dispatchers, place);
}
