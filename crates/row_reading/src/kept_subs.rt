// What is kept of subscriptions, from their rows, those of their runs, of their dead letters and of their counts.
ghost use Rattle.std.specs.Prelude.{◌≡◌, ◌≤◌, ◌∷◌, ◌++◌, ◌^◌, [], ℕ, List, length, map, IfNone, IfOk, IfSome, IsTrue};
ghost use Rattle.std.specs.FinSet as set;
ghost use Rattle.sqlite.specs.declared.types.Value.TheVariants.{Text as Words};
ghost use Rattle.sqlite.specs.Order.{Row};
ghost use Rattle.delivery_machine.specs.Places.{KeptPlaces};
ghost use Rattle.delivery_machine.specs.WellFormed.{NamesRise};
ghost use Rattle.row_forms.specs.Forms.{AreAckRows, count_rows, dead_rows, sub_row, sub_rows};
ghost use Rattle.row_forms.specs.Parts.{IsRising};
ghost use Rattle.row_reading.specs.Places.{seen};
ghost use Rattle.row_reading.specs.Reading.{ArePast, AreSubsOf, BeginWithCounts, BeginsWithAcks, BeginsWithCounts, BeginsWithDeads, BeginsWithLetters, BeginsWithRuns, IsReadableSub, IsSubOf, OrdinalsCame, ShowSubs, put};

use crate::ack_rows::runs_in;
use crate::count_rows::{Done, counts_in};
use crate::dead_rows::{Deaths, letters_in};
use crate::sub_rows::sub_in;
use ack_ranges::AckSet;
use delivery_machine::KeptSubscription;
use position_core::SubscriptionName;
use sqlite::Row;
use std::alloc::{AllocError, Global};
use std::cmp::Ordering;

/// How many subscriptions a topic may have.
const MOST: usize = 64;

/// The rows of runs, of dead letters and of counts that are left to read.
#[derive(Clone, Copy)]
pub(crate) struct Left<'a> {
    pub(crate) acks: &'a [Row],
    pub(crate) deads: &'a [Row],
    pub(crate) counts: &'a [Row],
}

/// The subscription that the row shows, with its runs, dead letters and counts, whose rows are the first ones,
/// and the rows that follow.
fn kept_in<'a>(
    alloc: Global,
    row: &Row,
    left: Left<'a>,
    deaths: Deaths<'_>,
    ordinals: &mut AckSet,
) -> Result<Option<(KeptSubscription, Left<'a>)>, AllocError>
    requires rising { IsRising (seen deaths.kept).log }
    requires short { length (seen deaths.kept).log ≤ 1048576 }
    requires last { deaths.next_ordinal ≤ 2 ^ 62 }
    ensures row { IfOk result (λ found. IfSome found (λ r. (topic : List ℕ) → Words topic ∷ row.now ≡ sub_row topic r.0)) }
    ensures acks { IfOk result (λ found. IfSome found (λ r. BeginsWithAcks deaths.entry.kept.gone (r.0 ∷ []) left.entry.acks.now r.1.acks.now)) }
    ensures deads { IfOk result (λ found. IfSome found (λ r. BeginsWithDeads (seen deaths.entry.kept) (r.0 ∷ []) left.entry.deads.now r.1.deads.now)) }
    ensures counts { IfOk result (λ found. IfSome found (λ r. BeginWithCounts (seen deaths.entry.kept) (r.0 ∷ []) left.entry.counts.now r.1.counts.now)) }
    ensures sound { IfOk result (λ found. IfSome found (λ r. IsSubOf deaths.entry.topic.now (seen deaths.entry.kept).log deaths.entry.next_ordinal r.0)) }
    ensures ordinals { IfOk result (λ found. IfSome found (λ r. OrdinalsCame r.0.dead ordinals.old ordinals.new)) }
    ensures past_acks { IfOk result (λ found. IfSome found (λ r. ArePast r.0.name r.1.acks.now)) }
    ensures past_deads { IfOk result (λ found. IfSome found (λ r. ArePast r.0.name r.1.deads.now)) }
    ensures past_counts { IfOk result (λ found. IfSome found (λ r. ArePast r.0.name r.1.counts.now)) }
    ensures all_read { IfOk result (λ found. IfNone found ((sub : KeptPlaces) (acks deads counts : List Row) → IsReadableSub deaths.entry.topic.now (seen deaths.entry.kept).log deaths.entry.next_ordinal ordinals.old sub → ((topic : List ℕ) → Words topic ∷ row.now ≡ sub_row topic sub)
        → BeginsWithRuns sub.name deaths.entry.kept.gone sub.acknowledged left.entry.acks.now acks → ArePast sub.name acks → BeginsWithLetters sub.name (seen deaths.entry.kept) sub.dead left.entry.deads.now deads → ArePast sub.name deads
        → BeginsWithCounts sub.name (seen deaths.entry.kept) sub.counts left.entry.counts.now counts → ArePast sub.name counts → ⊥)) }
{
    let Some(sub) = sub_in(alloc, row)? else {
        return Ok(None);
    };
    let kept = deaths.kept;
    let count = kept.log.count() as u64;
    let Some((acknowledged, acks)) = runs_in(alloc, &sub.name, left.acks, kept.gone, count)? else {
        return Ok(None);
    };
    let Some((dead, indexes, deads)) = letters_in(alloc, &sub.name, left.deads, deaths, ordinals)?
    else {
        return Ok(None);
    };
    let done = Done {
        kept,
        acknowledged: &acknowledged,
        dead: &indexes,
    };
    let Some((counted, counts)) = counts_in(alloc, &sub.name, left.counts, done)? else {
        return Ok(None);
    };
    let found = KeptSubscription {
        name: sub.name,
        kind: sub.kind,
        acknowledged,
        counts: counted,
        dead,
    };
    let after = Left {
        acks,
        deads,
        counts,
    };
    Ok(Some((found, after)))
}

/// Whether the name is above those of the subscriptions.
fn is_above(subs: &[KeptSubscription], name: &SubscriptionName) -> bool
    requires { NamesRise (map (λ sub. sub.name) subs.now) }
    ensures rise { IsTrue result → NamesRise (map (λ sub. sub.name) subs.now ++ name.now ∷ []) }
    ensures all_rise { NamesRise (map (λ sub. sub.name) subs.now ++ name.now ∷ []) → IsTrue result }
{
    match subs.last() {
        Some(last) => last.name.order(name) == Ordering::Less,
        None => true,
    }
}

/// Puts the subscription after the others, if its name is above theirs, and says whether it is.
fn put_sub(subs: &mut Vec<KeptSubscription>, sub: KeptSubscription) -> Result<bool, AllocError>
    requires { NamesRise (map (λ sub. sub.name) subs.old.items) }
    ensures put { IfOk result (λ b. IsTrue b → subs.new.items ≡ subs.old.items ++ sub ∷ []) }
    ensures above { IfOk result (λ b. IsTrue b → NamesRise (map (λ sub. sub.name) subs.new.items)) }
    ensures all_put { IfOk result (λ b. NamesRise (map (λ sub. sub.name) (subs.old.items ++ sub ∷ [])) → IsTrue b) }
{
    if is_above(subs, &sub.name) {
        subs.push(sub)?;
        Ok(true)
    } else {
        drop(sub);
        Ok(false)
    }
}

/// Whether nothing is left.
fn is_empty(left: Left<'_>) -> bool
    ensures acks { IsTrue result → left.entry.acks.now ≡ [] }
    ensures deads { IsTrue result → left.entry.deads.now ≡ [] }
    ensures counts { IsTrue result → left.entry.counts.now ≡ [] }
    ensures all_empty { left.entry.acks.now ≡ [] → left.entry.deads.now ≡ [] → left.entry.counts.now ≡ [] → IsTrue result }
{
    left.acks.is_empty() && left.deads.is_empty() && left.counts.is_empty()
}

/// Puts the subscriptions that the rows show into the empty list, and says whether nothing is left of the
/// other rows. `ordinals` takes in those of their dead letters.
fn put_subs(
    alloc: Global,
    rows: &[Row],
    others: Left<'_>,
    deaths: Deaths<'_>,
    ordinals: &mut AckSet,
    subs: &mut Vec<KeptSubscription>,
) -> Result<bool, AllocError>
    requires rising { IsRising (seen deaths.kept).log }
    requires short { length (seen deaths.kept).log ≤ 1048576 }
    requires last { deaths.next_ordinal ≤ 2 ^ 62 }
    requires empty { subs.old.items ≡ [] }
    requires no_ordinals { ordinals.old ≡ set.empty }
    ensures rows { IfOk result (λ whole. IsTrue whole → (topic : List ℕ) → put topic rows.now ≡ sub_rows topic subs.new.items) }
    ensures acks { IfOk result (λ whole. IsTrue whole → (topic : List ℕ) → AreAckRows topic deaths.entry.kept.gone subs.new.items (put topic others.entry.acks.now)) }
    ensures deads { IfOk result (λ whole. IsTrue whole → (topic : List ℕ) → put topic others.entry.deads.now ≡ dead_rows topic (seen deaths.entry.kept) subs.new.items) }
    ensures counts { IfOk result (λ whole. IsTrue whole → (topic : List ℕ) → put topic others.entry.counts.now ≡ count_rows topic (seen deaths.entry.kept) subs.new.items) }
    ensures sound { IfOk result (λ whole. IsTrue whole → AreSubsOf deaths.entry.topic.now (seen deaths.entry.kept).log deaths.entry.next_ordinal subs.new.items) }
    ensures all_read { IfOk result (λ whole. (topic : List ℕ) (all : List KeptPlaces) → ShowSubs deaths.entry.topic.now (seen deaths.entry.kept) deaths.entry.next_ordinal topic all rows.now others.entry.acks.now others.entry.deads.now others.entry.counts.now → IsTrue whole × (subs.new.items ≡ all)) }
{
    let mut left = others;
    'subs: for row in rows {
        match kept_in(alloc, row, left, deaths, ordinals)? {
            Some((sub, after)) => {
                if !put_sub(subs, sub)? {
                    return Ok(false);
                }
                left = after;
            }
            None => return Ok(false),
        }
    }
    Ok(is_empty(left))
}

/// The subscriptions that the rows show, at most 64, if nothing is left of the rows of runs, dead letters and counts.
pub(crate) fn subs_in(
    alloc: Global,
    rows: &[Row],
    others: Left<'_>,
    deaths: Deaths<'_>,
) -> Result<Option<Vec<KeptSubscription>>, AllocError>
    requires rising { IsRising (seen deaths.kept).log }
    requires short { length (seen deaths.kept).log ≤ 1048576 }
    requires last { deaths.next_ordinal ≤ 2 ^ 62 }
    ensures rows { IfOk result (λ found. IfSome found (λ subs. (topic : List ℕ) → put topic rows.now ≡ sub_rows topic subs.items)) }
    ensures acks { IfOk result (λ found. IfSome found (λ subs. (topic : List ℕ) → AreAckRows topic deaths.entry.kept.gone subs.items (put topic others.entry.acks.now))) }
    ensures deads { IfOk result (λ found. IfSome found (λ subs. (topic : List ℕ) → put topic others.entry.deads.now ≡ dead_rows topic (seen deaths.entry.kept) subs.items)) }
    ensures counts { IfOk result (λ found. IfSome found (λ subs. (topic : List ℕ) → put topic others.entry.counts.now ≡ count_rows topic (seen deaths.entry.kept) subs.items)) }
    ensures sound { IfOk result (λ found. IfSome found (λ subs. AreSubsOf deaths.entry.topic.now (seen deaths.entry.kept).log deaths.entry.next_ordinal subs.items)) }
    ensures few { IfOk result (λ found. IfSome found (λ subs. length subs.items ≤ 64)) }
    ensures all_read { IfOk result (λ found. IfNone found ((topic : List ℕ) (all : List KeptPlaces) → length all ≤ 64 → ShowSubs deaths.entry.topic.now (seen deaths.entry.kept) deaths.entry.next_ordinal topic all rows.now others.entry.acks.now others.entry.deads.now others.entry.counts.now → ⊥)) }
{
    let mut subs = Vec::new(alloc);
    let mut ordinals = AckSet::new(alloc);
    match put_subs(alloc, rows, others, deaths, &mut ordinals, &mut subs) {
        Ok(is_whole) => {
            if is_whole && subs.len() <= MOST {
                Ok(Some(subs))
            } else {
                drop(subs);
                Ok(None)
            }
        }
        Err(e) => {
            drop(subs);
            Err(e)
        }
    }
}
