// What changes of the rows of messages that were redelivered.
ghost use Rattle.std.specs.Prelude.{◌≡◌, All, map, IfOk, OnOk};
ghost use Rattle.row_forms.specs.Forms.{place_in};
ghost use Rattle.row_forms.specs.Parts.{AreCountedIn, CountsDiffer, ExtendsByCounts, ExtendsByEntries, IsCountedIn, IsLater, IsRising};
ghost use Rattle.row_forms.specs.Places.{number_of, seen};
ghost use Rattle.row_forms.specs.Sides.{IsOfOneKey, new_of, old_of};

use crate::change::{CountRow, Difference};
use crate::places::{Kept, Logs, place_in};
use crate::side::{Side, Walk};
use delivery_machine::{Counted, KeptSubscription};
use position_core::SubscriptionName;
use std::alloc::{AllocError, Global};

fn row_of(sub: &SubscriptionName, counted: &Counted, log: Kept<'_>) -> Result<CountRow, AllocError>
    requires { IsRising (seen log).log }
    ensures sub { IfOk result (λ row. row.sub ≡ sub.now) }
    ensures place { IfOk result (λ row. number_of row.place ≡ place_in (seen log.entry) counted.now.position) }
    ensures times { IfOk result (λ row. row.times ≡ counted.now.times) }
{
    Ok(CountRow {
        sub: sub.clone()?,
        place: place_in(log, counted.position),
        times: counted.times.get(),
    })
}

/// A message that was counted before and is counted as often stands where it stood: its place is not looked up.
fn add_count(
    difference: &mut Difference<CountRow>,
    sub: &SubscriptionName,
    logs: Logs<'_>,
    side: Side<&Counted>,
) -> Result<(), AllocError>
    requires was { IsRising (seen logs.was).log }
    requires now { IsRising (seen logs.now).log }
    requires later { IsLater (seen logs.was) (seen logs.now) }
    requires there { All (IsCountedIn (seen logs.was).log) (old_of (λ c. (c.now.position, c.now.times)) side) }
    requires here { All (IsCountedIn (seen logs.now).log) (new_of (λ c. (c.now.position, c.now.times)) side) }
    requires key { IsOfOneKey (λ old new. old.now.position ≡ new.now.position) side }
    ensures { OnOk result (ExtendsByEntries sub.now (seen logs.entry.was) (seen logs.entry.now) (old_of (λ c. (c.now.position, c.now.times)) side.entry) (new_of (λ c. (c.now.position, c.now.times)) side.entry) difference.old difference.new) }
{
    match side {
        Side::Gone(old) => difference.goes(row_of(sub, old, logs.was)?),
        Side::New(new) => difference.comes(row_of(sub, new, logs.now)?),
        Side::Both(old, new) => {
            if old.times.get() == new.times.get() {
                Ok(())
            } else {
                let old = row_of(sub, old, logs.was)?;
                let new = row_of(sub, new, logs.now)?;
                difference.becomes(old, new)
            }
        }
    }
}

fn add_counts(
    difference: &mut Difference<CountRow>,
    sub: &SubscriptionName,
    logs: Logs<'_>,
    olds: &[Counted],
    news: &[Counted],
) -> Result<(), AllocError>
    requires was { IsRising (seen logs.was).log }
    requires now { IsRising (seen logs.now).log }
    requires later { IsLater (seen logs.was) (seen logs.now) }
    requires there { All (IsCountedIn (seen logs.was).log) (map (λ c. (c.position, c.times)) olds.now) }
    requires here { All (IsCountedIn (seen logs.now).log) (map (λ c. (c.position, c.times)) news.now) }
    ensures { OnOk result (ExtendsByEntries sub.now (seen logs.entry.was) (seen logs.entry.now) (map (λ c. (c.position, c.times)) olds.now) (map (λ c. (c.position, c.times)) news.now) difference.old difference.new) }
{
    let mut walk = Walk::of(olds, news);
    'sides: while let Some(side) = walk.next() {
        add_count(difference, sub, logs, side)?;
    }
    Ok(())
}

fn add(
    difference: &mut Difference<CountRow>,
    logs: Logs<'_>,
    side: Side<&KeptSubscription>,
) -> Result<(), AllocError>
    requires was { IsRising (seen logs.was).log }
    requires now { IsRising (seen logs.now).log }
    requires later { IsLater (seen logs.was) (seen logs.now) }
    requires there { All (AreCountedIn (seen logs.was).log) (old_of (λ sub. sub.now) side) }
    requires here { All (AreCountedIn (seen logs.now).log) (new_of (λ sub. sub.now) side) }
    requires key { IsOfOneKey (λ old new. old.now.name ≡ new.now.name) side }
    ensures { OnOk result (ExtendsByCounts (seen logs.entry.was) (seen logs.entry.now) (old_of (λ sub. sub.now) side.entry) (new_of (λ sub. sub.now) side.entry) difference.old difference.new) }
{
    match side {
        Side::Gone(old) => add_counts(difference, &old.name, logs, old.counts.as_slice(), &[]),
        Side::New(new) => add_counts(difference, &new.name, logs, &[], new.counts.as_slice()),
        Side::Both(old, new) => add_counts(
            difference,
            &new.name,
            logs,
            old.counts.as_slice(),
            new.counts.as_slice(),
        ),
    }
}

/// Which rows of redelivered messages go and which come. Takes a step for each count, and looks up the places of
/// those that differ alone.
pub(crate) fn count_difference(
    alloc: Global,
    logs: Logs<'_>,
    olds: &[KeptSubscription],
    news: &[KeptSubscription],
) -> Result<Difference<CountRow>, AllocError>
    requires was { IsRising (seen logs.was).log }
    requires now { IsRising (seen logs.now).log }
    requires later { IsLater (seen logs.was) (seen logs.now) }
    requires there { All (AreCountedIn (seen logs.was).log) olds.now }
    requires here { All (AreCountedIn (seen logs.now).log) news.now }
    ensures { IfOk result (CountsDiffer (seen logs.entry.was) (seen logs.entry.now) olds.now news.now) }
{
    let mut difference = Difference::none(alloc);
    let mut walk = Walk::of(olds, news);
    'sides: while let Some(side) = walk.next() {
        add(&mut difference, logs, side)?;
    }
    Ok(difference)
}
