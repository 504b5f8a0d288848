// Names in a line of the log. A client chose them, so they may look like more fields of the line, or rule a terminal.
use delivery_machine::TopicName;
use std::fmt;
use std::fmt::Write;

/// A topic's name between quotes.
#[derive(Clone, Copy)]
pub(crate) struct Quoted<'a> {
    pub(crate) topic: &'a TopicName,
}

/// Another name between quotes.
#[derive(Clone, Copy)]
pub(crate) struct QuotedName<'a> {
    pub(crate) name: &'a str,
}

/// Writes the text with a backslash before each quote and backslash, and controls by their numbers.
fn write_escaped<W: fmt::Write>(f: &mut fmt::Formatter<W>, text: &str) -> fmt::Result {
    for c in text.chars() {
        match c {
            '"' | '\\' => {
                f.write_char('\\')?;
                f.write_char(c)?;
            }
            c if c.is_control() => write!(f, "\\x{:02x}", u32::from(c))?,
            c => f.write_char(c)?,
        }
    }
    Ok(())
}

impl fmt::Display for Quoted<'_> {
    fn fmt<W: fmt::Write>(&self, f: &mut fmt::Formatter<W>) -> fmt::Result {
        f.write_str("\"persistent://")?;
        write_escaped(f, self.topic.tenant.as_str())?;
        f.write_str("/")?;
        write_escaped(f, self.topic.namespace.as_str())?;
        f.write_str("/")?;
        write_escaped(f, self.topic.topic.as_str())?;
        f.write_str("\"")
    }
}

impl fmt::Display for QuotedName<'_> {
    fn fmt<W: fmt::Write>(&self, f: &mut fmt::Formatter<W>) -> fmt::Result {
        f.write_str("\"")?;
        write_escaped(f, self.name)?;
        f.write_str("\"")
    }
}
