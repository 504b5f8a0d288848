// The lines of Prometheus' text format, version 0.0.4.
use json_values::push_decimal;
use std::alloc::AllocError;

/// What kind of number it is.
#[derive(Clone, Copy, Debug, PartialEq, Eq)]
pub(crate) enum Kind {
    /// It grows, and begins at 0 with the broker, or with its topic in memory.
    Counter,
    Gauge,
    Histogram,
}

impl Kind {
    fn name(self) -> &'static str {
        match self {
            Kind::Counter => "counter",
            Kind::Gauge => "gauge",
            Kind::Histogram => "histogram",
        }
    }
}

/// What a number is of, which its name begins with.
#[derive(Clone, Copy, Debug, PartialEq, Eq)]
pub(crate) enum Family {
    Broker,
    /// Those that every program has, by the names that are common for them.
    Process,
}

impl Family {
    fn prefix(self) -> &'static str {
        match self {
            Family::Broker => "pulsar_broker_",
            Family::Process => "process_",
        }
    }
}

/// What is said of a number before its values.
#[derive(Clone, Copy, Debug, PartialEq, Eq)]
pub(crate) struct Head {
    pub(crate) family: Family,
    pub(crate) name: &'static str,
    pub(crate) kind: Kind,
    pub(crate) help: &'static str,
}

impl Head {
    pub(crate) fn gauge(name: &'static str, help: &'static str) -> Head {
        Head {
            family: Family::Broker,
            name,
            kind: Kind::Gauge,
            help,
        }
    }

    pub(crate) fn counter(name: &'static str, help: &'static str) -> Head {
        Head {
            family: Family::Broker,
            name,
            kind: Kind::Counter,
            help,
        }
    }

    /// The same number, as one of the process.
    pub(crate) fn of_process(self) -> Head {
        Head {
            family: Family::Process,
            name: self.name,
            kind: self.kind,
            help: self.help,
        }
    }

    /// Appends the name with what all names begin with.
    pub(crate) fn push_name(&self, out: &mut String) -> Result<(), AllocError> {
        out.push_str(self.family.prefix())?;
        out.push_str(self.name)
    }

    pub(crate) fn push(&self, out: &mut String) -> Result<(), AllocError> {
        out.push_str("# HELP ")?;
        self.push_name(out)?;
        out.push_str(" ")?;
        out.push_str(self.help)?;
        out.push_str("\n# TYPE ")?;
        self.push_name(out)?;
        out.push_str(" ")?;
        out.push_str(self.kind.name())?;
        out.push_str("\n")
    }
}

/// A value: a count, or a time.
#[derive(Clone, Copy, Debug, PartialEq, Eq)]
pub(crate) enum Value {
    Count(u64),
    Millis(u64),
}

impl Value {
    pub(crate) fn push(self, out: &mut String) -> Result<(), AllocError> {
        match self {
            Value::Count(count) => push_decimal(out, count),
            Value::Millis(millis) => push_seconds(out, millis.saturating_mul(1_000)),
        }
    }
}

/// Appends microseconds as seconds.
pub(crate) fn push_seconds(out: &mut String, micros: u64) -> Result<(), AllocError> {
    push_decimal(out, micros / 1_000_000)?;
    out.push_str(".")?;
    let mut rest = micros % 1_000_000;
    for _ in 0..6 {
        push_decimal(out, rest / 100_000)?;
        rest = rest % 100_000 * 10;
    }
    Ok(())
}

/// Appends the value of a label, in which three characters have an escape.
pub(crate) fn push_label(out: &mut String, text: &str) -> Result<(), AllocError> {
    for letter in text.chars() {
        match letter {
            '\\' => out.push_str("\\\\")?,
            '"' => out.push_str("\\\"")?,
            '\n' => out.push_str("\\n")?,
            letter => out.push(letter)?,
        }
    }
    Ok(())
}

/// Appends a number that has no labels, with what is said of it.
pub(crate) fn push_single(out: &mut String, head: &Head, value: Value) -> Result<(), AllocError> {
    head.push(out)?;
    head.push_name(out)?;
    out.push_str(" ")?;
    value.push(out)?;
    out.push_str("\n")
}

/// Appends the name, and the topic's label without the brace behind it.
pub(crate) fn push_start(out: &mut String, head: &Head, topic: &str) -> Result<(), AllocError> {
    head.push_name(out)?;
    out.push_str("{topic=\"")?;
    push_label(out, topic)?;
    out.push_str("\"")
}

/// Appends the value behind the labels.
pub(crate) fn push_end(out: &mut String, value: Value) -> Result<(), AllocError> {
    out.push_str("} ")?;
    value.push(out)?;
    out.push_str("\n")
}
