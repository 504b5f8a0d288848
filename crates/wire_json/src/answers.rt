// What a producer is answered.
ghost use Rattle.std.specs.Prelude.{◌≡◌, [], ◌∷◌, ◌++◌, codes, OnOk, option_copied, string_bytes};
ghost use Rattle.json_values.specs.Written.{field_text, leading};
ghost use Rattle.wire_json.specs.Answers.{context_field, error_text, id_field, message_field, message_of, number_of, of_fault, ok_text, result_field};

use json_values::{push_decimal, push_quoted, room_for};
use position_core::{Fault, Position};
use std::alloc::AllocError;
use value_texts::append_id;

/// How many bytes an answer has beside its context at most.
const MOST_BESIDE_CONTEXT: usize = 128;

/// Why a publish, or a session, was refused, by the numbers of the WebSocket API.
#[derive(Clone, Copy, Debug, PartialEq, Eq)]
pub enum SendError {
    CreateProducer,
    Subscribe,
    Deserialize,
    Serialize,
    Authenticate,
    Authorize,
    PayloadEncoding,
    Unknown,
}

impl SendError {
    /// The error that answers a refused publish. None for the faults that close the session, and for those of
    /// other events.
    pub fn of_fault(fault: Fault) -> Option<SendError>
        ensures { result ≡ of_fault fault }
    {
        match fault {
            Fault::BadJson => Some(SendError::Deserialize),
            Fault::BadPayload => Some(SendError::PayloadEncoding),
            Fault::NoMemory | Fault::TopicFull => Some(SendError::Unknown),
            _ => None,
        }
    }

    /// The number after `send-error:`. A session that ends by the error is closed with 4000 more.
    pub fn number(self) -> u8
        ensures { result ≡ number_of self }
    {
        match self {
            SendError::CreateProducer => 1,
            SendError::Subscribe => 2,
            SendError::Deserialize => 3,
            SendError::Serialize => 4,
            SendError::Authenticate => 5,
            SendError::Authorize => 6,
            SendError::PayloadEncoding => 7,
            SendError::Unknown => 8,
        }
    }

    pub fn message(self) -> &'static str
        ensures { result.now ≡ message_of self }
    {
        match self {
            SendError::CreateProducer => "Failed to create producer",
            SendError::Subscribe => "Failed to subscribe",
            SendError::Deserialize => "Failed to deserialize from JSON",
            SendError::Serialize => "Failed to serialize to JSON",
            SendError::Authenticate => "Failed to authenticate",
            SendError::Authorize => "Not authorized",
            SendError::PayloadEncoding => "Invalid payload encoding",
            SendError::Unknown => "Unknown error",
        }
    }
}

/// Empties the buffer and takes room for a text at once.
pub(crate) fn begin(out: &mut String, room: usize) -> Result<(), AllocError>
    ensures { OnOk result (string_bytes out.new ≡ []) }
{
    out.clear();
    out.reserve(room)
}

fn room_for_context(context: Option<&str>) -> usize {
    match context {
        Some(context) => room_for(context).saturating_add(11),
        None => 0,
    }
}

fn push_context(out: &mut String, context: Option<&str>) -> Result<(), AllocError>
    ensures { OnOk result (string_bytes out.new ≡ string_bytes out.old ++ leading (context_field (option_copied context.entry))) }
{
    let Some(context) = context else {
        return Ok(());
    };
    out.push_str("\"context\":")?;
    push_quoted(out, context)?;
    out.push_str(",")?;
    Ok(())
}

/// Appends a message's id, and a comma.
pub(crate) fn push_id(out: &mut String, id: Position) -> Result<(), AllocError>
    ensures { OnOk result (string_bytes out.new ≡ string_bytes out.old ++ leading (id_field id ∷ [])) }
{
    out.push_str("\"messageId\":\"")?;
    append_id(out, id)?;
    out.push_str("\",")?;
    Ok(())
}

fn push_start(out: &mut String, context: Option<&str>) -> Result<(), AllocError>
    ensures { OnOk result (string_bytes out.new ≡ codes "{" ++ leading (context_field (option_copied context.entry))) }
{
    begin(
        out,
        room_for_context(context).saturating_add(MOST_BESIDE_CONTEXT),
    )?;
    out.push_str("{")?;
    push_context(out, context)
}

/// Writes what a producer is answered when its publish was taken, in place of what `out` holds.
pub fn ok_text(out: &mut String, context: Option<&str>, id: Position) -> Result<(), AllocError>
    ensures { OnOk result (string_bytes out.new ≡ ok_text (option_copied context.entry) id) }
{
    push_start(out, context)?;
    push_id(out, id)?;
    out.push_str("\"result\":\"ok\"}")?;
    Ok(())
}

fn push_message(out: &mut String, error: SendError) -> Result<(), AllocError>
    ensures { OnOk result (string_bytes out.new ≡ string_bytes out.old ++ leading (message_field error ∷ [])) }
{
    out.push_str("\"errorMsg\":\"")?;
    out.push_str(error.message())?;
    out.push_str("\",")?;
    Ok(())
}

fn push_result(out: &mut String, error: SendError) -> Result<(), AllocError>
    ensures { OnOk result (string_bytes out.new ≡ string_bytes out.old ++ field_text (result_field error)) }
{
    out.push_str("\"result\":\"send-error:")?;
    push_decimal(out, u64::from(error.number()))?;
    out.push_str("\"")?;
    Ok(())
}

/// Writes what a producer is answered when its publish was refused, in place of what `out` holds.
pub fn error_text(
    out: &mut String,
    context: Option<&str>,
    error: SendError,
) -> Result<(), AllocError>
    ensures { OnOk result (string_bytes out.new ≡ error_text (option_copied context.entry) error) }
{
    push_start(out, context)?;
    push_message(out, error)?;
    push_result(out, error)?;
    out.push_str("}")?;
    Ok(())
}
