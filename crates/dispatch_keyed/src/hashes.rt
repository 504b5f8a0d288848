// Which hash may be served, and the first message that waits for that, by going over the log.
ghost use Rattle.std.specs.Prelude.{◌≡◌, IfSome, IfNone};
ghost use Rattle.std.specs.List.{find};
ghost use Rattle.std.specs.Option.{option_map};
ghost use Rattle.position_core.specs.declared.kind.Kind.TheVariants.{KeyShared};
ghost use Rattle.delivery_machine.specs.Words.{is_draining, is_member, members_of, NoneEligible};
ghost use Rattle.dispatch_core.specs.Offers.{seen_of, IsGoodOffer};
ghost use Rattle.hash_rows.specs.Hashes.{hash_at};
ghost use Rattle.dispatch_keyed.specs.Owning.{numbers_in, owners_in};
ghost use Rattle.dispatch_keyed.specs.Hashes.{drains_at, IsRoomyOwner, HasNoRoomyOwner, IsFreeFor, NoneFree, NoneFreeBefore};

use crate::seats::{Line, Owners};
use dispatch_core::{Offer, Seen, View};
use murmur_core::sticky_hash;
use position_core::{ConsumerNumber, LogIndex};

/// The hash of the key of the message at the index.
pub(crate) fn hash_at<V: View>(view: &V, index: LogIndex) -> u16
    ensures { result ≡ hash_at (V.state view.now) index }
{
    sticky_hash(view.key(index))
}

/// The member of the number.
fn member_of<V: View>(view: &V, line: &Line, consumer: ConsumerNumber) -> Option<Seen>
    ensures { line.now ≡ numbers_in (V.state view.now) (V.subscription view.now)
        → result ≡ option_map (seen_of (V.state view.now) (V.subscription view.now)) (find (is_member consumer) (members_of (V.state view.now) (V.subscription view.now).name)) }
{
    match line.place_of(consumer) {
        Some(place) => view.member(place as u64),
        None => None,
    }
}

/// The owner of the hash, if it has room.
pub(crate) fn roomy_owner<V: View>(view: &V, owners: &Owners, hash: u16) -> Option<u64>
    ensures some { owners.now ≡ owners_in (V.state view.now) (V.subscription view.now) → IfSome result (IsRoomyOwner (V.state view.now) (V.subscription view.now) hash) }
    ensures none { owners.now ≡ owners_in (V.state view.now) (V.subscription view.now) → IfNone result (HasNoRoomyOwner (V.state view.now) (V.subscription view.now) hash) }
{
    let owner = owners.shares.owner(hash)?;
    let seen = member_of(view, &owners.line, owner)?;
    if seen.room { Some(owner) } else { None }
}

/// Whether the message at the index has the hash, and is pending at another consumer.
fn drains_at<V: View>(view: &V, index: LogIndex, hash: u16, owner: ConsumerNumber) -> bool
    ensures { result ≡ drains_at (V.state view.now) (V.subscription view.now) hash owner index }
{
    match view.holder(index) {
        Some(holder) => holder != owner && hash_at(view, index) == hash,
        None => false,
    }
}

/// Whether a message of the hash is pending at another consumer than its owner (PIP-379).
fn is_draining<V: View>(view: &V, hash: u16, owner: ConsumerNumber) -> bool
    ensures { result ≡ is_draining (V.state view.now) (V.subscription view.now) hash owner }
{
    for index in 0..view.length() {
        if drains_at(view, index, hash, owner) {
            return true;
        }
    }
    false
}

/// The owner of the hash, if it may be sent the next message of it.
fn free_owner<V: View>(view: &V, owners: &Owners, hash: u16) -> Option<u64>
    ensures some { owners.now ≡ owners_in (V.state view.now) (V.subscription view.now) → IfSome result (IsFreeFor (V.state view.now) (V.subscription view.now) hash) }
    ensures none { owners.now ≡ owners_in (V.state view.now) (V.subscription view.now) → IfNone result (NoneFree (V.state view.now) (V.subscription view.now) hash) }
{
    let owner = roomy_owner(view, owners, hash)?;
    if is_draining(view, hash, owner) {
        None
    } else {
        Some(owner)
    }
}

/// The first waiting message from `from` on that the owner of its hash may be sent. It is the first
/// of its hash, since an earlier one would have been offered.
pub(crate) fn first_free_from<V: View>(view: &V, owners: &Owners, from: LogIndex) -> Option<Offer>
    ensures some { (V.subscription view.now).kind ≡ KeyShared → owners.now ≡ owners_in (V.state view.now) (V.subscription view.now)
        → NoneFreeBefore (V.state view.now) (V.subscription view.now) from → IfSome result (IsGoodOffer (V.state view.now) (V.subscription view.now)) }
    ensures none { (V.subscription view.now).kind ≡ KeyShared → owners.now ≡ owners_in (V.state view.now) (V.subscription view.now)
        → NoneFreeBefore (V.state view.now) (V.subscription view.now) from → IfNone result (NoneEligible (V.state view.now) (V.subscription view.now)) }
{
    let visible = view.visible();
    let mut from = from;
    while from < visible {
        let index = view.next_waiting(from)?;
        if let Some(consumer) = free_owner(view, owners, hash_at(view, index)) {
            return Some(Offer { index, consumer });
        }
        from = index + 1;
    }
    None
}
