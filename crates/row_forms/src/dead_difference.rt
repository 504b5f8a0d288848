// What changes of the rows of dead letters.
ghost use Rattle.std.specs.Prelude.{◌≡◌, string_bytes, IfOk, OnOk, IsTrue};
ghost use Rattle.position_core.specs.TopicName.{topic_text};
ghost use Rattle.row_forms.specs.Forms.{place_in};
ghost use Rattle.row_forms.specs.Parts.{DeadsDiffer, ExtendsByDeads, ExtendsByLetters, IsRising, IsSameLetter};
ghost use Rattle.row_forms.specs.Places.{number_of, seen};
ghost use Rattle.row_forms.specs.Sides.{IsOfOneKey, new_of, old_of};

use crate::change::{DeadRow, Difference};
use crate::places::{Kept, Logs, place_in};
use crate::side::{Side, Walk};
use crate::texts::topic_text;
use delivery_machine::{DeadLetter, KeptSubscription};
use position_core::SubscriptionName;
use std::alloc::{AllocError, Global};

fn row_of(
    alloc: Global,
    sub: &SubscriptionName,
    letter: &DeadLetter,
    log: Kept<'_>,
) -> Result<DeadRow, AllocError>
    requires { IsRising (seen log).log }
    ensures sub { IfOk result (λ row. row.sub ≡ sub.now) }
    ensures ordinal { IfOk result (λ row. row.ordinal ≡ letter.now.ordinal) }
    ensures place { IfOk result (λ row. number_of row.place ≡ place_in (seen log.entry) letter.now.position) }
    ensures target { IfOk result (λ row. string_bytes row.target ≡ topic_text letter.now.target) }
{
    Ok(DeadRow {
        sub: sub.clone()?,
        ordinal: letter.ordinal,
        place: place_in(log, letter.position),
        target: topic_text(alloc, &letter.target)?,
    })
}

/// Whether both have one row.
fn is_same(logs: Logs<'_>, old: &DeadLetter, new: &DeadLetter) -> bool
    requires was { IsRising (seen logs.was).log }
    requires now { IsRising (seen logs.now).log }
    ensures { IsTrue result → IsSameLetter (seen logs.entry.was) (seen logs.entry.now) old.now new.now }
{
    old.ordinal == new.ordinal
        && place_in(logs.was, old.position).is(place_in(logs.now, new.position))
        && old.target.is(&new.target)
}

fn add_letter(
    alloc: Global,
    difference: &mut Difference<DeadRow>,
    sub: &SubscriptionName,
    logs: Logs<'_>,
    side: Side<&DeadLetter>,
) -> Result<(), AllocError>
    requires was { IsRising (seen logs.was).log }
    requires now { IsRising (seen logs.now).log }
    ensures { OnOk result (ExtendsByLetters sub.now (seen logs.entry.was) (seen logs.entry.now) (old_of (λ d. d.now) side.entry) (new_of (λ d. d.now) side.entry) difference.old difference.new) }
{
    match side {
        Side::Gone(old) => difference.goes(row_of(alloc, sub, old, logs.was)?),
        Side::New(new) => difference.comes(row_of(alloc, sub, new, logs.now)?),
        Side::Both(old, new) => {
            if is_same(logs, old, new) {
                Ok(())
            } else {
                let old = row_of(alloc, sub, old, logs.was)?;
                let new = row_of(alloc, sub, new, logs.now)?;
                difference.becomes(old, new)
            }
        }
    }
}

fn add_letters(
    alloc: Global,
    difference: &mut Difference<DeadRow>,
    sub: &SubscriptionName,
    logs: Logs<'_>,
    olds: &[DeadLetter],
    news: &[DeadLetter],
) -> Result<(), AllocError>
    requires was { IsRising (seen logs.was).log }
    requires now { IsRising (seen logs.now).log }
    ensures { OnOk result (ExtendsByLetters sub.now (seen logs.entry.was) (seen logs.entry.now) olds.now news.now difference.old difference.new) }
{
    let mut walk = Walk::of(olds, news);
    'sides: while let Some(side) = walk.next() {
        add_letter(alloc, difference, sub, logs, side)?;
    }
    Ok(())
}

fn add(
    alloc: Global,
    difference: &mut Difference<DeadRow>,
    logs: Logs<'_>,
    side: Side<&KeptSubscription>,
) -> Result<(), AllocError>
    requires was { IsRising (seen logs.was).log }
    requires now { IsRising (seen logs.now).log }
    requires key { IsOfOneKey (λ old new. old.now.name ≡ new.now.name) side }
    ensures { OnOk result (ExtendsByDeads (seen logs.entry.was) (seen logs.entry.now) (old_of (λ sub. sub.now) side.entry) (new_of (λ sub. sub.now) side.entry) difference.old difference.new) }
{
    match side {
        Side::Gone(old) => add_letters(alloc, difference, &old.name, logs, &old.dead, &[]),
        Side::New(new) => add_letters(alloc, difference, &new.name, logs, &[], &new.dead),
        Side::Both(old, new) => {
            add_letters(alloc, difference, &new.name, logs, &old.dead, &new.dead)
        }
    }
}

pub(crate) fn dead_difference(
    alloc: Global,
    logs: Logs<'_>,
    olds: &[KeptSubscription],
    news: &[KeptSubscription],
) -> Result<Difference<DeadRow>, AllocError>
    requires was { IsRising (seen logs.was).log }
    requires now { IsRising (seen logs.now).log }
    ensures { IfOk result (DeadsDiffer (seen logs.entry.was) (seen logs.entry.now) olds.now news.now) }
{
    let mut difference = Difference::none(alloc);
    let mut walk = Walk::of(olds, news);
    'sides: while let Some(side) = walk.next() {
        add(alloc, &mut difference, logs, side)?;
    }
    Ok(difference)
}
