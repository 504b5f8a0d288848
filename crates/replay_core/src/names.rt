// Names as they are printed: all but plain bytes are escaped.
ghost use Rattle.std.specs.Prelude.{◌≡◌, ◌++◌, OnOk, codes, string_bytes};
ghost use Rattle.replay_core.specs.Printing.{is_within, is_plain, escaped_byte, escaped, name_text, target_text};

use percent_encoding::percent_encode_byte;
use position_core::{Name, TopicName};
use std::alloc::AllocError;

fn is_within(least: u8, most: u8, byte: u8) -> bool
    ensures { result ≡ is_within least most byte }
{
    least <= byte && byte <= most
}

fn is_plain(byte: u8) -> bool
    ensures { result ≡ is_plain byte }
{
    is_within(b'a', b'z', byte)
        || is_within(b'A', b'Z', byte)
        || is_within(b'0', b'9', byte)
        || byte == b'-'
        || byte == b'_'
        || byte == b'.'
        || byte == b'~'
        || byte == b'/'
        || byte == b':'
}

fn append_byte(out: &mut String, byte: u8) -> Result<(), AllocError>
    ensures { OnOk result (string_bytes out.new ≡ string_bytes out.old ++ escaped_byte byte) }
{
    if is_plain(byte) {
        out.push(char::from(byte))
    } else {
        out.push_str(percent_encode_byte(byte))
    }
}

fn append_escaped(out: &mut String, name: &[u8]) -> Result<(), AllocError>
    ensures { OnOk result (string_bytes out.new ≡ string_bytes out.old ++ escaped name.now) }
{
    for byte in name {
        append_byte(out, *byte)?;
    }
    Ok(())
}

pub fn append_name(out: &mut String, name: &str) -> Result<(), AllocError>
    ensures { OnOk result (string_bytes out.new ≡ string_bytes out.old ++ name_text name.now) }
{
    if name == "-" {
        out.push_str("%2D")
    } else {
        append_escaped(out, name.as_bytes())
    }
}

fn append_part(out: &mut String, name: &Name) -> Result<(), AllocError>
    ensures { OnOk result (string_bytes out.new ≡ string_bytes out.old ++ escaped name.now) }
{
    append_escaped(out, name.as_str().as_bytes())
}

fn append_parts(out: &mut String, target: &TopicName) -> Result<(), AllocError>
    ensures { OnOk result (string_bytes out.new
        ≡ string_bytes out.old ++ (escaped target.now.tenant ++ codes "/" ++ escaped target.now.namespace ++ codes "/" ++ escaped target.now.topic)) }
{
    append_part(out, &target.tenant)?;
    out.push_str("/")?;
    append_part(out, &target.namespace)?;
    out.push_str("/")?;
    append_part(out, &target.topic)
}

fn append_parts_after(out: &mut String, scheme: &str, target: &TopicName) -> Result<(), AllocError>
    ensures { OnOk result (string_bytes out.new
        ≡ string_bytes out.old ++ (scheme.now ++ (escaped target.now.tenant ++ codes "/" ++ escaped target.now.namespace ++ codes "/" ++ escaped target.now.topic))) }
{
    out.push_str(scheme)?;
    append_parts(out, target)
}

/// Appends the topic's text, its names escaped.
pub fn append_target(out: &mut String, target: &TopicName) -> Result<(), AllocError>
    ensures { OnOk result (string_bytes out.new ≡ string_bytes out.old ++ target_text target.now) }
{
    append_parts_after(out, "persistent://", target)
}
