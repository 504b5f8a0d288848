// Whom a topic remembers of the messages that are gone: all of its first messages at once.
ghost use Rattle.std.specs.Prelude.{◌≡◌, ◌≤◌, ◌^◌, IfOk, OnOk, length, take};
ghost use Rattle.delivery_machine.specs.WellFormed.{AreAuthors};
ghost use Rattle.delivery_machine.specs.Trimming.{with_authors};

use dedup_core::remember;
use delivery_machine::Author;
use entry_log::EntryLog;
use std::alloc::{AllocError, Global};

pub(crate) fn copy_of(alloc: Global, authors: &[Author]) -> Result<Vec<Author>, AllocError>
    ensures { IfOk result (λ copy. copy.items ≡ authors.now) }
{
    let mut copy = Vec::new(alloc);
    for author in authors {
        copy.push(author.clone()?)?;
    }
    Ok(copy)
}

/// Remembers the producers of the first messages, so many, before which others are gone.
pub(crate) fn remember_all(
    authors: &mut Vec<Author>,
    gone: u64,
    entries: &EntryLog,
    count: usize,
) -> Result<(), AllocError>
    requires room { gone ≤ 2 ^ 62 }
    requires within { count ≤ length entries.now.log }
    requires remembered { AreAuthors gone authors.old.items }
    ensures { OnOk result (authors.new.items ≡ with_authors gone (take count entries.now.log) authors.old.items) }
{
    let end = count.min(entries.len());
    for index in 0..end {
        let Some(message) = entries.get(index) else {
            unreachable!();
        };
        remember(authors, gone + index as u64, message)?;
    }
    Ok(())
}
