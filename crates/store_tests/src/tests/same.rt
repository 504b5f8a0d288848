// Whether two snapshots are the same, field by field.
use delivery_machine::{Author, Counted, DeadLetter, KeptSubscription, Snapshot};
use log_pieces::Pieces;

fn same_message(one: &Pieces, other: &Pieces, place: usize) -> bool {
    match (one.get(place), other.get(place)) {
        (Some(one), Some(other)) => one.is(other),
        _ => false,
    }
}

fn same_log(one: &Pieces, other: &Pieces) -> bool {
    for place in 0..one.count() {
        if !same_message(one, other, place) {
            return false;
        }
    }
    one.count() == other.count()
}

fn same_letter(one: &DeadLetter, other: &DeadLetter) -> bool {
    one.position == other.position && one.target.is(&other.target) && one.ordinal == other.ordinal
}

fn same_letters(one: &[DeadLetter], other: &[DeadLetter]) -> bool {
    for (one, other) in one.iter().zip(other.iter()) {
        if !same_letter(one, other) {
            return false;
        }
    }
    one.len() == other.len()
}

fn same_counts(one: &[Counted], other: &[Counted]) -> bool {
    for (one, other) in one.iter().zip(other.iter()) {
        if one.position != other.position || one.times.get() != other.times.get() {
            return false;
        }
    }
    one.len() == other.len()
}

fn same_subscription(one: &KeptSubscription, other: &KeptSubscription) -> bool {
    one.name.is(&other.name)
        && one.kind == other.kind
        && one.acknowledged.is(&other.acknowledged)
        && same_counts(one.counts.as_slice(), other.counts.as_slice())
        && same_letters(&one.dead, &other.dead)
}

fn same_subscriptions(one: &[KeptSubscription], other: &[KeptSubscription]) -> bool {
    for (one, other) in one.iter().zip(other.iter()) {
        if !same_subscription(one, other) {
            return false;
        }
    }
    one.len() == other.len()
}

fn same_numbers(one: &Snapshot, other: &Snapshot) -> bool {
    one.ledger_size() == other.ledger_size()
        && one.ledger() == other.ledger()
        && one.next_ordinal() == other.next_ordinal()
}

fn same_authors(one: &[Author], other: &[Author]) -> bool {
    for (one, other) in one.iter().zip(other.iter()) {
        let is_same = one.name.is(&other.name) && one.sequence == other.sequence;
        if !is_same || one.index != other.index {
            return false;
        }
    }
    one.len() == other.len()
}

fn same_front(one: &Snapshot, other: &Snapshot) -> bool {
    one.gone() == other.gone()
        && one.retention() == other.retention()
        && same_authors(one.authors(), other.authors())
}

pub(super) fn same(one: &Snapshot, other: &Snapshot) -> bool {
    one.name().is(other.name())
        && same_numbers(one, other)
        && same_front(one, other)
        && same_log(one.log(), other.log())
        && same_subscriptions(one.subscriptions(), other.subscriptions())
}
