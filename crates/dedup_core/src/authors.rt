// Whom a topic remembers of the messages that are gone.
ghost use Rattle.std.specs.Prelude.{◌≡◌, OnOk, map};
ghost use Rattle.std.specs.List.{IsDistinct, find, position};
ghost use Rattle.std.specs.Int.{int_max};
ghost use Rattle.std.specs.Option.{option_map_or};
ghost use Rattle.std.specs.Str.{bytes_eq};
ghost use Rattle.delivery_machine.specs.Words.{removed};
ghost use Rattle.delivery_machine.specs.Trimming.{is_author, with_author};

use delivery_machine::Author;
use position_core::{Message, ProducerName};
use std::alloc::AllocError;

fn place_of(authors: &[Author], name: &ProducerName) -> Option<usize>
    ensures { result ≡ position (is_author name.now) authors.now }
{
    authors.iter().position(|author| author.name.is(name))
}

/// Takes the author of the name out.
fn take_out(authors: &mut Vec<Author>, name: &ProducerName) -> Option<Author>
    ensures found { result ≡ find (is_author name.now) authors.old.items }
    ensures left { authors.new.items ≡ removed (is_author name.now) authors.old.items }
{
    match place_of(authors, name) {
        Some(place) => Some(authors.remove(place)),
        None => None,
    }
}

/// The greater of the number and the author's.
fn raised(author: Option<Author>, sequence: i64) -> i64
    ensures { result ≡ option_map_or (λ a. int_max a.sequence sequence) author sequence }
{
    match author {
        Some(author) => author.sequence.max(sequence),
        None => sequence,
    }
}

/// Remembers the producer of the message, the one of the index, as the last.
pub fn remember(authors: &mut Vec<Author>, index: u64, message: &Message) -> Result<(), AllocError>
    requires { IsDistinct bytes_eq (map (λ a. a.name) authors.old.items) }
    ensures { OnOk result (authors.new.items ≡ with_author index message.now authors.old.items) }
{
    let entry = message.entry();
    let name = entry.producer.clone()?;
    let sequence = raised(take_out(authors, &name), entry.sequence);
    authors.push(Author {
        name,
        sequence,
        index,
    })?;
    Ok(())
}
