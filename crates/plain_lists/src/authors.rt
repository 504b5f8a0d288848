// Whom a topic remembers of the messages that are gone.
ghost use Rattle.std.specs.Prelude.{◌≡◌, ◌+◌, ◌<◌, ◌^◌, length, map, OnOk};
ghost use Rattle.std.specs.List.{position};
ghost use Rattle.delivery_machine.specs.Trimming.{is_author, with_author, with_authors};
ghost use Rattle.delivery_machine.specs.Words.{greatest_under, removed, signed_by};
ghost use Rattle.plain_lists.specs.Raised.{raised};

use delivery_machine::Author;
use position_core::{Message, ProducerName};
use std::alloc::AllocError;

/// The greater of the number and the greatest so far.
pub fn raised(greatest: Option<i64>, number: i64) -> i64
    ensures { result ≡ raised greatest number }
{
    match greatest {
        Some(greatest) => greatest.max(number),
        None => number,
    }
}

fn is_author(author: &Author, name: &ProducerName) -> bool
    ensures { result ≡ is_author name.now author.now }
{
    author.name.is(name)
}

/// The greatest sequence number under the name.
pub fn greatest_of(authors: &[Author], name: &ProducerName) -> Option<i64>
    ensures { result ≡ greatest_under name.now (map signed_by authors.now) }
{
    let mut greatest = None;
    for author in authors {
        if is_author(author, name) {
            greatest = Some(raised(greatest, author.sequence));
        }
    }
    greatest
}

fn place_of(authors: &[Author], name: &ProducerName) -> Option<usize>
    ensures { result ≡ position (is_author name.now) authors.now }
{
    authors.iter().position(|author| is_author(author, name))
}

fn leave_out(authors: &mut Vec<Author>, name: &ProducerName)
    ensures { authors.new.items ≡ removed (is_author name.now) authors.old.items }
{
    match place_of(authors, name) {
        Some(place) => {
            authors.remove(place);
        }
        None => {}
    }
}

/// Remembers the producer of the message, the one of the index, as the last.
fn remember(authors: &mut Vec<Author>, index: u64, message: &Message) -> Result<(), AllocError>
    ensures { OnOk result (authors.new.items ≡ with_author index message.now authors.old.items) }
{
    let entry = message.entry();
    let name = entry.producer.clone()?;
    let sequence = greatest_of(authors, &name)
        .unwrap_or(entry.sequence)
        .max(entry.sequence);
    leave_out(authors, &name);
    authors.push(Author {
        name,
        sequence,
        index,
    })?;
    Ok(())
}

/// Remembers the producers of the messages, of which the first is the one of the index.
pub fn remember_all(
    authors: &mut Vec<Author>,
    index: u64,
    messages: &[Message],
) -> Result<(), AllocError>
    requires { index + length messages.now < 2 ^ 64 }
    ensures { OnOk result (authors.new.items ≡ with_authors index messages.now authors.old.items) }
{
    'each: for i in 0..messages.len() {
        remember(authors, index + i as u64, &messages[i])?;
    }
    Ok(())
}
