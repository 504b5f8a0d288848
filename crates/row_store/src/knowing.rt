// What a keeper knows to stand in the rows.
ghost use Rattle.std.specs.Prelude.{◌≡◌, ◌≢◌, ◌≤◌, ◌+◌, ◌++◌, [], not, false, true, All, map, filter, reverse, length, vec_capacity, option_map, string_bytes, IfSome};
ghost use Rattle.std.specs.List.{list_any};
ghost use Rattle.std.specs.Str.{bytes_eq};
ghost use Rattle.position_core.specs.TopicName.{topic_text};
ghost use Rattle.sqlite.specs.Tree.{Trees};
ghost use Rattle.stored_cell.specs.Noted.{Noted, StandsAmong};
ghost use Rattle.row_rounds.specs.declared.saving.Write.{Write};
ghost use Rattle.row_rounds.specs.Rounds.{IsNamed};
ghost use Rattle.row_store.specs.Begun.{StandsSoFar, begun_of, count_for, kept_by, left_by, read_of, read_without};
ghost use Rattle.row_store.specs.Keeping.{kepts, known_without};

use crate::finding::Reading;
use crate::known::Known;
use crate::pace::Pace;
use crate::planning::is_among;
use marks::{Mark, Naming};
use position_core::TopicName;
use row_rounds::Write;
use std::mem;
use stored_cell::{Kept, Note, Part};

/// What is written is known no more.
pub fn forget<J: Naming>(known: &mut Vec<Known<J>>, writes: &[Write])
    ensures room { (vec_capacity known.new ≡ vec_capacity known.old) × (length known.new.items ≤ length known.old.items) }
    ensures left { known.new.items ≡ filter (λ kept. not (list_any (λ w. bytes_eq (string_bytes w.topic) (topic_text kept.name)) writes.now)) known.old.items }
{
    known.retain(|one| !is_among(writes, one.topic()));
}

/// What was written is known under its mark, and is taken off the lists.
pub fn remember<J: Naming>(
    known: &mut Vec<Known<J>>,
    writes: &mut Vec<Write>,
    marks: &mut Vec<Mark<Note, J>>,
)
    requires named { All IsNamed writes.old.items }
    requires marks { map (λ n. n.kept) marks.old.items ≡ map (λ (w : Write). w.snapshot) writes.old.items }
    requires room { length known.old.items + length writes.old.items ≤ vec_capacity known.old }
    ensures { known.new.items ≡ known.old.items ++ reverse (map (λ (w : Write). w.snapshot) writes.old.items) }
{
    while let Some(write) = writes.pop() {
        let Some(mark) = marks.pop() else {
            unreachable!();
        };
        let Write {
            snapshot,
            topic,
            change,
            whole: _,
        } = write;
        drop(change);
        known.push_reserved(Known::new(topic, snapshot, mark));
    }
}

/// The marks of the parts.
pub fn marks_of<J: Naming>(parts: &[Part<J>], marks: &mut Vec<Mark<Note, J>>)
    requires empty { marks.old.items ≡ [] }
    requires room { length parts.now ≤ vec_capacity marks.old }
    ensures { map (λ n. n.kept) marks.new.items ≡ kepts parts.now }
{
    for part in parts {
        marks.push_reserved(part.mark());
    }
}

/// The proofs that what was marked stands in the rows of the mark.
pub fn keep_all<J: Naming>(rows: &Mark<Note, J>, marks: &[Mark<Note, J>], kept: &mut Vec<Kept<J>>)
    requires stand { rows.now.clean ≡ true → All (λ (n : Noted). StandsAmong n.kept rows.now.rows) marks.now }
    requires empty { kept.old.items ≡ [] }
    requires room { length marks.now ≤ vec_capacity kept.old }
    ensures { kept.new.items ≡ map (λ (n : Noted). record { kept = n.kept; rows = rows.now.rows; clean = rows.now.clean }) marks.now }
{
    for mark in marks {
        kept.push_reserved(Kept::new(mark.again(), rows.again()));
    }
}

/// What was known of the topic is known no more.
pub fn forget_topic<J: Naming>(known: &mut Vec<Known<J>>, name: &TopicName)
    ensures left { known.new.items ≡ known_without name.now known.old.items }
    ensures others { All (λ kept. topic_text kept.name ≢ topic_text name.now) known.new.items }
{
    known.retain(|one| !one.is_of(name));
}

/// What was read of the topic with this text is let go of.
pub fn forget_reading(reading: &mut Option<Reading>, topic: &str)
    ensures left { reading.new ≡ read_without topic.now reading.old }
    ensures others { IfSome reading.new (λ r. topic_text r.name ≢ topic.now) }
{
    let is_of = match reading {
        Some(read) => read.topic() == topic,
        None => false,
    };
    if is_of {
        drop(reading.take());
    }
}

/// What was known of the topic that is written is known no more, and what was read of it is let go of.
pub fn let_go<J: Naming>(known: &mut Vec<Known<J>>, reading: &mut Option<Reading>, write: &Write)
    requires { IsNamed write.now }
    ensures left { known.new.items ≡ known_without write.now.snapshot.name known.old.items }
    ensures others { All (λ kept. topic_text kept.name ≢ topic_text write.now.snapshot.name) known.new.items }
    ensures reading { reading.new ≡ read_without (topic_text write.now.snapshot.name) reading.old }
    ensures unread { IfSome reading.new (λ r. topic_text r.name ≢ topic_text write.now.snapshot.name) }
{
    forget_topic(known, write.snapshot.name());
    forget_reading(reading, write.topic.as_str());
}

/// What was read of the topic so far, where its load goes on. By pieces what was read of another is let go of.
pub fn reading_for(reading: &mut Option<Reading>, name: &TopicName, pace: Pace) -> Option<Reading>
    ensures left { option_map begun_of reading.new ≡ left_by pace (option_map begun_of reading.old) }
    ensures name { IfSome result (λ r. r.name ≡ name.now) }
    ensures count { pace ≡ Pace.Pieces → read_of result ≡ count_for name.now (option_map begun_of reading.old) }
    ensures stands { (db : Trees) → IfSome reading.old (StandsSoFar db) → IfSome result (StandsSoFar db) × IfSome reading.new (StandsSoFar db) }
{
    let taken = match pace {
        Pace::AtOnce => return None,
        Pace::Pieces => reading.take(),
    };
    match taken {
        Some(read) => if read.is_of(name) {
            Some(read)
        } else {
            drop(read);
            None
        },
        None => None,
    }
}

/// Whether one of the writes is of the topic that is being read.
pub fn reads_one_of(reading: &Option<Reading>, writes: &[Write]) -> bool
    ensures { result ≡ false → IfSome reading.now (λ r. list_any (λ w. bytes_eq (string_bytes w.topic) (topic_text r.name)) writes.now ≡ false) }
{
    match reading {
        Some(reading) => is_among(writes, reading.topic()),
        None => false,
    }
}

/// What was read of a topic of which more is to be read: by pieces it is kept.
pub fn keep_reading(kept: &mut Option<Reading>, reading: Reading, pace: Pace)
    ensures { kept.new ≡ kept_by pace reading kept.old }
{
    match pace {
        Pace::AtOnce => drop(reading),
        Pace::Pieces => drop(mem::replace(kept, Some(reading))),
    }
}
