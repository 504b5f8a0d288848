// Readers and writers that fail, and memory that is refused.
ghost use Rattle.std.specs.Prelude.{◌≤◌};

mod doubles;

use doubles::{ByByte, Narrow};
use position_core::LedgerSize;
use replay_core::{Stop, replay, status};
use std::io::Read;
use std::process::Abort;

type Ended = Result<(), Stop>;

const FIRST_ROW: &[u8] = b"producer p -
publish 1 0 - aGk= 1000
subscribe s Exclusive 0 push:1000 0 60000 0 - Earliest
stored
dispatch s 1000
collect 1
ack 1 CAAQAA==
dispatch s 1001
";

const FIRST_REPLIES: &[u8] = b"producer 1 p -1
published CAAQAA== 1
consumer 1
durable 1
sent 1 CAAQAA== 0
copies 1 CAAQAA==:0:aGk=
done
idle
";

fn size_of(number: u32) -> LedgerSize
    requires { (1 ≤ number) × (number ≤ 50000) }
{
    LedgerSize::new(number).unwrap()
}

/// Replays what the reader gives, and compares what is written and how it ends.
fn check_read<R: Abort + AllocGlobal, I: Read>(rt: &R, input: &mut I, output: &[u8], ended: Ended) {
    let mut written = Vec::new(rt.alloc());
    let outcome = replay(rt.alloc(), input, &mut written, size_of(50_000));
    assert!(rt; written.as_slice() == output, "{:?}", written.as_slice());
    assert!(rt; outcome == ended);
}

#[test]
fn byte_by_byte(rt: HostRuntime) {
    for (rest, fails, output, ended) in [
        (FIRST_ROW, false, FIRST_REPLIES, Ok(())),
        (
            b"stored\nstored\nsto",
            true,
            b"durable 0\ndurable 0\n",
            Err(Stop::Read),
        ),
    ] {
        check_read(&rt, &mut ByByte { rest, fails }, output, ended);
    }
}

fn count_ends(text: &[u8]) -> usize {
    let mut count: usize = 0;
    for byte in text.iter() {
        if *byte == b'\n' {
            count = count.saturating_add(1);
        }
    }
    count
}

/// The first so many lines.
fn first_lines(text: &[u8], count: usize) -> &[u8] {
    let mut left = count;
    for end in 0..text.len() {
        if left == 0 {
            return &text[..end];
        }
        if text[end] == b'\n' {
            left -= 1;
        }
    }
    text
}

/// What comes before the read that fails: its whole lines are answered.
fn check_cut<R: Abort + AllocGlobal>(rt: &R, rest: &[u8]) {
    let output = first_lines(FIRST_REPLIES, count_ends(rest));
    check_read(
        rt,
        &mut ByByte { rest, fails: true },
        output,
        Err(Stop::Read),
    );
}

#[test]
fn each_read_fails(rt: HostRuntime) {
    for count in 0..=FIRST_ROW.len() {
        check_cut(&rt, FIRST_ROW.split_at(count).0);
    }
}

/// A writer that takes so many bytes has the front of the replies.
fn check_narrow<R: Abort + AllocGlobal>(rt: &R, width: usize, most: usize, full: bool) {
    let mut reader = FIRST_ROW;
    let mut writer = Narrow {
        taken: Vec::new(rt.alloc()),
        width,
        most,
        full,
    };
    let outcome = replay(rt.alloc(), &mut reader, &mut writer, size_of(1));
    let count = FIRST_REPLIES.len().min(most);
    assert!(rt; writer.taken.as_slice() == &FIRST_REPLIES[..count]);
    let ended = if count < FIRST_REPLIES.len() {
        Err(Stop::Write)
    } else {
        Ok(())
    };
    assert!(rt; outcome == ended);
    assert!(rt; status(&outcome) == u8::from(outcome.is_err()));
}

#[test]
fn each_write_fails(rt: HostRuntime) {
    check_narrow(&rt, 7, 1000, false);
    for most in 0..FIRST_REPLIES.len() {
        check_narrow(&rt, 1, most, false);
        check_narrow(&rt, 1, most, true);
    }
}

/// Whether the rest, after whole lines of the row, is refused for lack of memory, or was not written
/// for want of it.
fn is_end_or_refused(rest: &[u8], is_whole: bool, outcome: Ended) -> bool {
    if rest.is_empty() {
        outcome == Err(Stop::Memory) || is_whole && outcome == Ok(())
    } else {
        rest.starts_with(b"refused F1\n")
    }
}

/// Whether the written lines are the row's up to one that says `refused F1`, or to the end by want
/// of memory.
fn is_row_or_refused(written: &[u8], outcome: Ended) -> bool {
    for count in 0..=FIRST_REPLIES.len() {
        let (lines, others) = FIRST_REPLIES.split_at(count);
        if lines.is_empty() || lines.ends_with(b"\n") {
            if let Some(rest) = written.strip_prefix(lines) {
                if is_end_or_refused(rest, others.is_empty(), outcome) {
                    return true;
                }
            }
        }
    }
    false
}

/// Each growth may be refused.
#[test]
fn first_row_with_refused_growths(rt: HostRuntime) {
    let mut reader = FIRST_ROW;
    let mut written = [0; 1000];
    let mut room = written.as_mut_slice();
    let outcome = replay(rt.alloc(), &mut reader, &mut room, size_of(50_000));
    let left = room.len();
    assert!(rt; left <= 1000);
    let count = 1000 - left;
    assert!(rt; is_row_or_refused(&written[..count], outcome));
}
