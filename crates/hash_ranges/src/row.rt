// The shares, as consumers join and leave.
ghost use Rattle.std.specs.Prelude.{◌≡◌, ◌<◌, ◌≤◌, ℕ, Some, OnOk, OnErr, IfOk};
ghost use Rattle.std.specs.List.{find};
ghost use Rattle.std.specs.Ordering.{nat_cmp};
ghost use Rattle.std.specs.BTreeMap.{insert_entry, is_at};
ghost use Rattle.std.specs.Map.{set_value};
ghost use Rattle.delivery_machine.specs.Shares.{is_share_of, shared_out, given_back};
ghost use Rattle.hash_ranges.specs.Ends.{shares_of, SplitAll, IsEndToJoin};

use crate::ends::{HASHES, largest_of, share_of};
use crate::share::half;
use position_core::{Block, ConsumerNumber};
use std::alloc::AllocError;
use std::collections::BTreeMap;

/// Where the share of a consumer that joins is to end. There is none where each hash has a consumer of
/// its own.
fn end_to_join(ends: &BTreeMap<u32, ConsumerNumber>) -> Result<u32, AllocError>
    requires { SplitAll ends.now.entries }
    ensures { IfOk result (IsEndToJoin ends.now.entries) }
{
    match largest_of(ends) {
        Some(share) => {
            if share.size < 2 {
                return Err(AllocError);
            }
            Ok(share.from + half(share.size))
        }
        None => Ok(HASHES),
    }
}

pub(crate) fn share_out(
    ends: &mut BTreeMap<u32, ConsumerNumber>,
    consumer: ConsumerNumber,
) -> Result<(), AllocError>
    requires { SplitAll ends.old.entries }
    ensures split { SplitAll ends.new.entries }
    ensures ok { OnOk result (shares_of ends.new.entries ≡ shared_out consumer (shares_of ends.old.entries)) }
    ensures err { OnErr result (ends.new.entries ≡ ends.old.entries) }
{
    let end = end_to_join(ends)?;
    match ends.insert(end, consumer) {
        Ok(_) => Ok(()),
        Err(_) => Err(AllocError),
    }
}

/// Gives the last share to a consumer.
fn give_last(ends: &mut BTreeMap<u32, ConsumerNumber>, consumer: ConsumerNumber)
    ensures { ends.new.entries ≡ set_value (is_at (nat_cmp 65536)) ends.old.entries consumer }
{
    match ends.get_mut(&HASHES) {
        Some(owner) => *owner = consumer,
        None => (),
    }
}

/// Takes a share out. The share behind it begins earlier then. Where it is the last, the consumer of
/// the share before it, if there is one, has the last hashes then.
fn take_out(ends: &mut BTreeMap<u32, ConsumerNumber>, share: Block)
    requires split { SplitAll ends.old.entries }
    requires found { Some share ≡ find (is_share_of share.consumer) (shares_of ends.old.entries) }
    ensures split { SplitAll ends.new.entries }
    ensures value { shares_of ends.new.entries ≡ given_back share.consumer (shares_of ends.old.entries) }
{
    let end = share.from + share.size;
    if end < HASHES {
        ends.remove(&end);
    } else {
        match ends.remove(&share.from) {
            Some(before) => give_last(ends, before),
            None => ends.clear(),
        }
    }
}

pub(crate) fn give_back(ends: &mut BTreeMap<u32, ConsumerNumber>, consumer: ConsumerNumber)
    requires { SplitAll ends.old.entries }
    ensures split { SplitAll ends.new.entries }
    ensures value { shares_of ends.new.entries ≡ given_back consumer (shares_of ends.old.entries) }
{
    match share_of(ends, consumer) {
        Some(share) => take_out(ends, share),
        None => (),
    }
}
