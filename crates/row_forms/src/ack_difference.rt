// What changes of the rows of runs of acknowledged messages.
ghost use Rattle.std.specs.Prelude.{◌≡◌, ◌+◌, ◌-◌, ◌++◌, ℕ, List, [], IfOk, IfSome, IfNone, IsTrue, OnOk};
ghost use Rattle.std.specs.FinSet as set;
ghost use Rattle.ack_ranges.specs.Ranges.{AreRangesOf};
ghost use Rattle.delivery_machine.specs.Places.{KeptPlaces};
ghost use Rattle.row_forms.specs.Parts.{AcksDiffer, ExtendsByRuns, waiting};
ghost use Rattle.row_forms.specs.Places.{number_of};
ghost use Rattle.row_forms.specs.Sides.{IsOfOneKey, new_of, old_of};

use crate::change::{AckRow, Difference};
use crate::places::Place;
use crate::side::{Side, Walk};
use ack_ranges::{AckSet, Ranges};
use delivery_machine::KeptSubscription;
use position_core::{LogIndex, SubscriptionName};
use std::alloc::{AllocError, Global};
use std::cmp::Ordering;

/// From the first place to the one after the last.
type Run = (LogIndex, LogIndex);

fn first_of(ranges: &mut Ranges<'_>) -> Option<Run>
    ensures { waiting result ranges.new ≡ ranges.old }
{
    ranges.next()
}

/// How many messages were gone from a log, and are gone.
#[derive(Clone, Copy)]
pub(crate) struct Gone {
    pub(crate) was: u64,
    pub(crate) now: u64,
}

/// What is left to see of the runs of two sets, in the order of their first places; the first of each is at hand.
#[derive(Drop)]
struct Runs<'a> {
    gone: Gone,
    left: Option<Run>,
    lefts: Ranges<'a>,
    right: Option<Run>,
    rights: Ranges<'a>,
}

impl<'a> Runs<'a> {
    fn of(gone: Gone, mut lefts: Ranges<'a>, mut rights: Ranges<'a>) -> Self
        ensures gone { result.gone ≡ gone }
        ensures lefts { waiting result.left result.lefts ≡ lefts.entry }
        ensures rights { waiting result.right result.rights ≡ rights.entry }
    {
        let left = first_of(&mut lefts);
        let right = first_of(&mut rights);
        Runs {
            gone,
            left,
            lefts,
            right,
            rights,
        }
    }

    /// What comes next.
    fn next(&mut self) -> Option<Side<Run>>
        ensures lefts { IfSome result (λ side. old_of (λ run. run) side ++ waiting self.new.left self.new.lefts ≡ waiting self.old.left self.old.lefts) }
        ensures rights { IfSome result (λ side. new_of (λ run. run) side ++ waiting self.new.right self.new.rights ≡ waiting self.old.right self.old.rights) }
        ensures no_lefts { IfNone result (waiting self.old.left self.old.lefts ≡ []) }
        ensures no_rights { IfNone result (waiting self.old.right self.old.rights ≡ []) }
        ensures gone { self.new.gone ≡ self.old.gone }
    {
        let Some(left) = self.left else {
            let right = self.right?;
            self.right = first_of(&mut self.rights);
            return Some(Side::New(right));
        };
        let Some(right) = self.right else {
            self.left = first_of(&mut self.lefts);
            return Some(Side::Gone(left));
        };
        let (was, now) = (self.gone.was, self.gone.now);
        match was.saturating_add(left.0).cmp(&now.saturating_add(right.0)) {
            Ordering::Less => {
                self.left = first_of(&mut self.lefts);
                Some(Side::Gone(left))
            }
            Ordering::Equal => {
                self.left = first_of(&mut self.lefts);
                self.right = first_of(&mut self.rights);
                Some(Side::Both(left, right))
            }
            Ordering::Greater => {
                self.right = first_of(&mut self.rights);
                Some(Side::New(right))
            }
        }
    }
}

fn first_place(gone: u64, run: Run) -> Place
    ensures { number_of result ≡ gone + run.0 }
{
    Place { gone, index: run.0 }
}

fn last_place(gone: u64, run: Run) -> Place
    ensures { number_of result ≡ gone + (run.1 - 1) }
{
    Place {
        gone,
        index: run.1.saturating_sub(1),
    }
}

fn row_of(sub: &SubscriptionName, gone: u64, run: Run) -> Result<AckRow, AllocError>
    ensures sub { IfOk result (λ row. row.sub ≡ sub.now) }
    ensures first { IfOk result (λ row. number_of row.first ≡ gone + run.0) }
    ensures last { IfOk result (λ row. number_of row.last ≡ gone + (run.1 - 1)) }
{
    Ok(AckRow {
        sub: sub.clone()?,
        first: first_place(gone, run),
        last: last_place(gone, run),
    })
}

/// Whether both have one row.
fn is_same(gone: Gone, old: Run, new: Run) -> bool
    ensures first { IsTrue result → gone.was + old.0 ≡ gone.now + new.0 }
    ensures last { IsTrue result → gone.was + (old.1 - 1) ≡ gone.now + (new.1 - 1) }
{
    first_place(gone.was, old).is(first_place(gone.now, new))
        && last_place(gone.was, old).is(last_place(gone.now, new))
}

fn add_run(
    difference: &mut Difference<AckRow>,
    sub: &SubscriptionName,
    gone: Gone,
    side: Side<Run>,
) -> Result<(), AllocError>
    ensures { OnOk result (ExtendsByRuns sub.now gone.was gone.now (old_of (λ run. run) side) (new_of (λ run. run) side) difference.old difference.new) }
{
    match side {
        Side::Gone(old) => difference.goes(row_of(sub, gone.was, old)?),
        Side::New(new) => difference.comes(row_of(sub, gone.now, new)?),
        Side::Both(old, new) => {
            if is_same(gone, old, new) {
                Ok(())
            } else {
                let old = row_of(sub, gone.was, old)?;
                let new = row_of(sub, gone.now, new)?;
                difference.becomes(old, new)
            }
        }
    }
}

fn add_runs(
    difference: &mut Difference<AckRow>,
    sub: &SubscriptionName,
    mut runs: Runs<'_>,
) -> Result<(), AllocError>
    ensures { OnOk result (ExtendsByRuns sub.now runs.entry.gone.was runs.entry.gone.now (waiting runs.entry.left runs.entry.lefts) (waiting runs.entry.right runs.entry.rights) difference.old difference.new) }
{
    let gone = runs.gone;
    'sides: while let Some(side) = runs.next() {
        add_run(difference, sub, gone, side)?;
    }
    Ok(())
}

fn add_sets(
    difference: &mut Difference<AckRow>,
    sub: &SubscriptionName,
    gone: Gone,
    old: &AckSet,
    new: &AckSet,
) -> Result<(), AllocError>
    ensures { OnOk result ((olds news : List (ℕ × ℕ)) × AreRangesOf old.now olds × AreRangesOf new.now news × ExtendsByRuns sub.now gone.was gone.now olds news difference.old difference.new) }
{
    add_runs(difference, sub, Runs::of(gone, old.ranges(), new.ranges()))
}

fn add(
    difference: &mut Difference<AckRow>,
    gone: Gone,
    none: &AckSet,
    side: Side<&KeptSubscription>,
) -> Result<(), AllocError>
    requires none { none.now ≡ set.empty }
    requires key { IsOfOneKey (λ old new. old.now.name ≡ new.now.name) side }
    ensures { OnOk result ((olds news : List KeptPlaces) → AcksDiffer gone.was gone.now olds news difference.old → AcksDiffer gone.was gone.now (olds ++ old_of (λ sub. sub.now) side.entry) (news ++ new_of (λ sub. sub.now) side.entry) difference.new) }
{
    match side {
        Side::Gone(old) => add_sets(difference, &old.name, gone, &old.acknowledged, none),
        Side::New(new) => add_sets(difference, &new.name, gone, none, &new.acknowledged),
        Side::Both(old, new) => {
            add_sets(
                difference,
                &new.name,
                gone,
                &old.acknowledged,
                &new.acknowledged,
            )
        }
    }
}

/// Which rows of runs go and which come, from those of the one list of subscriptions to those of the other.
pub(crate) fn ack_difference(
    alloc: Global,
    gone: Gone,
    olds: &[KeptSubscription],
    news: &[KeptSubscription],
) -> Result<Difference<AckRow>, AllocError>
    ensures { IfOk result (AcksDiffer gone.was gone.now olds.now news.now) }
{
    let none = AckSet::new(alloc);
    let mut difference = Difference::none(alloc);
    let mut walk = Walk::of(olds, news);
    'sides: while let Some(side) = walk.next() {
        add(&mut difference, gone, &none, side)?;
    }
    Ok(difference)
}
