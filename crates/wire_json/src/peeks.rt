// What an administrator is shown of a subscription's next messages.
ghost use Rattle.std.specs.Prelude.{◌≡◌, [], ◌∷◌, ◌++◌, FitsSigned, codes, if◌then◌else◌, IfOk, OnOk, string_bytes};
ghost use Rattle.std.specs.Fmt.{signed_decimal};
ghost use Rattle.std.specs.Int.{w64};
ghost use Rattle.json_values.specs.Written.{field_text, leading};
ghost use Rattle.wire_json.specs.Peeks.{Appends, BeginsPeek, IsPeek, IsShown, fits, producer_field, sequence_field};

use crate::deliveries::{begin_delivery, push_count};
use delivery_machine::Delivery;
use json_values::push_quoted;
use position_core::{Entry, ProducerName};
use std::alloc::AllocError;

/// How many bytes a text of several messages has at most.
const MOST_TEXT: usize = 2_097_152;

/// How many of them are neither before a message nor its own: the comma before it, and the end.
const BESIDE_MESSAGE: usize = 17;

/// Appends the name that the message was published under, and a comma.
fn push_producer(out: &mut String, name: &ProducerName) -> Result<(), AllocError>
    ensures { OnOk result (string_bytes out.new ≡ string_bytes out.old ++ leading (producer_field name.now ∷ [])) }
{
    out.push_str("\"producerName\":")?;
    push_quoted(out, name.as_str())?;
    out.push_str(",")?;
    Ok(())
}

/// Appends the number's decimal text, with a `-` before it where it is negative.
fn push_signed(out: &mut String, number: i64) -> Result<(), AllocError>
    ensures { OnOk result (string_bytes out.new ≡ string_bytes out.old ++ signed_decimal number) }
{
    let mut buffer = itoa::Buffer::new();
    out.push_str(buffer.format(number))
}

/// Appends its number under that name.
fn push_sequence(out: &mut String, sequence: i64) -> Result<(), AllocError>
    ensures { OnOk result (string_bytes out.new ≡ string_bytes out.old ++ field_text (sequence_field sequence)) }
{
    out.push_str("\"sequenceId\":")?;
    push_signed(out, sequence)?;
    Ok(())
}

/// The number that the message was published under.
fn sequence_of(message: &Entry) -> i64
    ensures value { result ≡ message.now.sequence }
    ensures fits { FitsSigned w64 message.now.sequence }
{
    message.sequence
}

/// Writes a message that is shown, in place of what `out` holds.
fn shown_text(out: &mut String, delivery: &Delivery) -> Result<(), AllocError>
    ensures { OnOk result (IsShown delivery.now (string_bytes out.new)) }
{
    let message = delivery.message.entry();
    let sequence = sequence_of(message);
    begin_delivery(out, message)?;
    push_count(out, delivery.count)?;
    out.push_str(",")?;
    push_producer(out, &message.producer)?;
    push_sequence(out, sequence)?;
    out.push_str("}")?;
    Ok(())
}

fn fits(out: &str, one: &str, is_first: bool) -> bool
    ensures { result ≡ fits is_first out.now one.now }
{
    is_first || out.len().saturating_add(one.len()) <= MOST_TEXT - BESIDE_MESSAGE
}

fn push_comma(out: &mut String, is_first: bool) -> Result<(), AllocError>
    ensures { OnOk result (string_bytes out.new ≡ string_bytes out.old ++ (if is_first then [] else codes ",")) }
{
    if is_first { Ok(()) } else { out.push_str(",") }
}

/// Appends the text of a message, which is written into `one` before, if it fits, and says whether it did.
fn push_one(
    out: &mut String,
    one: &mut String,
    delivery: &Delivery,
    is_first: bool,
) -> Result<bool, AllocError>
    ensures { IfOk result (λ has_fit. Appends has_fit is_first delivery.now (string_bytes out.old) (string_bytes out.new)) }
{
    shown_text(one, delivery)?;
    if !fits(out.as_str(), one.as_str(), is_first) {
        return Ok(false);
    }
    push_comma(out, is_first)?;
    out.push_str(one.as_str())?;
    Ok(true)
}

/// Writes all but the end, in place of what `out` holds, and each text into `one` before.
fn write_messages(
    out: &mut String,
    one: &mut String,
    deliveries: &[Delivery],
) -> Result<(), AllocError>
    ensures { OnOk result (BeginsPeek deliveries.now (string_bytes out.new)) }
{
    out.clear();
    out.push_str("{\"messages\":[")?;
    let mut is_first = true;
    for delivery in deliveries {
        let has_fit = push_one(out, one, delivery, is_first)?;
        if !has_fit {
            return Ok(());
        }
        is_first = false;
    }
    Ok(())
}

/// The same, with room of its own for each text.
fn begin_peek(out: &mut String, deliveries: &[Delivery]) -> Result<(), AllocError>
    ensures { OnOk result (BeginsPeek deliveries.now (string_bytes out.new)) }
{
    let mut one = String::new(*out.allocator());
    let written = write_messages(out, &mut one, deliveries);
    drop(one);
    written
}

/// Writes what answers an administrator who looks at messages, each as it is written to a consumer and with whom it was
/// published by, in place of what `out` holds. The first one is shown however long it is, and of those behind it as many as fit.
pub fn peek_text(out: &mut String, deliveries: &[Delivery]) -> Result<(), AllocError>
    ensures { OnOk result (IsPeek deliveries.now (string_bytes out.new)) }
{
    begin_peek(out, deliveries)?;
    out.push_str("],\"result\":\"ok\"}")?;
    Ok(())
}
