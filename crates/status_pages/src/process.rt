// The numbers that every program has for Prometheus, by the names that are common for them.
use crate::sample::{Head, Value, push_single};
use crate::seen::ProgramSeen;
use std::alloc::AllocError;

/// Appends the number, where it is known.
fn push_known(out: &mut String, head: Head, value: Option<Value>) -> Result<(), AllocError> {
    match value {
        Some(value) => push_single(out, &head.of_process(), value),
        None => Ok(()),
    }
}

fn push_times(out: &mut String, program: &ProgramSeen) -> Result<(), AllocError> {
    let help = "When the process was started, in seconds since 1970.";
    let head = Head::gauge("start_time_seconds", help);
    push_known(out, head, Some(Value::Millis(program.started)))?;
    let help = "How long processors worked for the process.";
    let head = Head::counter("cpu_seconds_total", help);
    push_known(out, head, program.cpu.map(Value::Millis))
}

/// Appends the numbers of the process, as far as they are known.
pub(crate) fn push_process(out: &mut String, program: &ProgramSeen) -> Result<(), AllocError> {
    push_times(out, program)?;
    let help = "How much of the process is in memory.";
    let head = Head::gauge("resident_memory_bytes", help);
    push_known(out, head, program.memory.map(Value::Count))?;
    let head = Head::gauge("open_fds", "File descriptors that are open.");
    push_known(out, head, program.descriptors.map(Value::Count))?;
    let head = Head::gauge("max_fds", "File descriptors that may be open.");
    push_known(out, head, program.most_descriptors.map(Value::Count))
}
