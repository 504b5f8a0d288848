// The replay of a topic: lines in, lines out.
ghost use Rattle.std.specs.Prelude.{◌≡◌, ◌∷◌, ◌++◌, [], OnOk, IfErr, Err, length, string_bytes};
ghost use Rattle.replay_lines.specs.Grammar.{IsBadLine};
ghost use Rattle.replay_core.specs.Replay.{Answer, IsAnswerTo, IsReplay, IsRestart, IsStepOf, sides, answer_text, bad_id, gone_on, no_room, replied};
ghost use Rattle.replay_core.specs.Answering.{IsAnswerOf, IsAnsweredBy, MayBeLost};
ghost use Rattle.replay_core.specs.Outcomes.{bad_line_in, failed_writing};
ghost use Rattle.replay_lines.specs.declared.words.Unread.TheVariants.{BadLine, Memory};

use crate::output::Output;
use crate::printing::{append_refused, append_reply, append_restarted};
use crate::stop::Stop;
use delivery_machine::{Event, Opened, Reply};
use position_core::{Fault, TopicName};
use replay_lines::{LONGEST_LINE, Line, Unread, read_line, split};
use std::alloc::{AllocError, Global};
use std::io::{Read, Write};
use std::mem;
use topic_restart::Restartable;

/// How often the reader is asked before it counts as one that does not end.
const MOST_READS: u64 = 4_294_967_296;

/// How many bytes are read at once.
const PIECE: usize = 65_536;

/// A replay, between two pieces of its input.
#[derive(Drop)]
pub struct Replay {
    pub alloc: Global,
    pub name: TopicName,
    /// How many lines were answered.
    pub lines: u64,
    /// What has come of a line whose end has not.
    pub begun: Vec<u8>,
    /// The line that is being answered.
    pub answer: String,
    pub output: Output,
}

/// Appends the line of the reply to the event, with its end.
fn append_reply_line(out: &mut String, event: &Event, reply: &Reply) -> Result<(), AllocError>
    ensures { OnOk result (string_bytes out.new ≡ string_bytes out.old ++ answer_text (replied event.now reply.now)) }
{
    append_reply(out, event, reply)?;
    out.push_str("\n")
}

/// Appends the line of a restart, with its end.
fn append_restarted_line(out: &mut String, ledger: u64) -> Result<(), AllocError>
    ensures { OnOk result (string_bytes out.new ≡ string_bytes out.old ++ answer_text (gone_on ledger)) }
{
    append_restarted(out, ledger)?;
    out.push_str("\n")
}

/// Appends the line for what found no room, with its end.
fn append_no_room(out: &mut String) -> Result<(), AllocError>
    ensures { OnOk result (string_bytes out.new ≡ string_bytes out.old ++ answer_text no_room) }
{
    append_refused(out, Fault::NoMemory)?;
    out.push_str("\n")
}

/// Answers the event, and appends the line of the answer with its end.
fn append_event_answer<T: Opened + Drop>(
    topic: &mut Restartable<T>,
    event: &Event,
    out: &mut String,
) -> Result<(), AllocError>
    ensures { (answer : Answer) × IsAnswerTo event.now answer × IsStepOf topic.old answer topic.new
        × OnOk result (string_bytes out.new ≡ string_bytes out.old ++ answer_text answer) }
{
    match topic.apply(event) {
        Ok(reply) => append_reply_line(out, event, &reply),
        Err(_) => append_no_room(out),
    }
}

/// Lets the topic go on from what is stored, and appends the line of that with its end.
fn append_restart<T: Opened + Drop>(
    alloc: Global,
    topic: &mut Restartable<T>,
    out: &mut String,
) -> Result<(), AllocError>
    ensures { (answer : Answer) × IsRestart answer × IsStepOf topic.old answer topic.new
        × OnOk result (string_bytes out.new ≡ string_bytes out.old ++ answer_text answer) }
{
    match topic.restart(alloc) {
        Ok(ledger) => append_restarted_line(out, ledger),
        Err(_) => append_no_room(out),
    }
}

/// Appends the line for a bad id, with its end.
fn append_bad_id(out: &mut String) -> Result<(), AllocError>
    ensures { OnOk result (string_bytes out.new ≡ string_bytes out.old ++ answer_text bad_id) }
{
    append_refused(out, Fault::BadId)?;
    out.push_str("\n")
}

/// Appends what is answered to what a line stands for, with its end.
fn append_line_answer<T: Opened + Drop>(
    alloc: Global,
    topic: &mut Restartable<T>,
    said: &Line,
    out: &mut String,
) -> Result<(), AllocError>
    ensures { (answer : Answer) × IsAnswerOf said.now answer × IsStepOf topic.old answer topic.new
        × OnOk result (string_bytes out.new ≡ string_bytes out.old ++ answer_text answer) }
{
    match said {
        Line::Event(event) => append_event_answer(topic, event, out),
        Line::Restart => append_restart(alloc, topic, out),
        Line::BadId => append_bad_id(out),
    }
}

/// The same, where the line was read.
fn append_said<T: Opened + Drop>(
    alloc: Global,
    topic: &mut Restartable<T>,
    said: &Line,
    out: &mut String,
) -> Result<(), Unread>
    ensures answered { (answer : Answer) × IsAnswerOf said.now answer × IsStepOf topic.old answer topic.new
        × OnOk result (string_bytes out.new ≡ string_bytes out.old ++ answer_text answer) }
    ensures err { IfErr result (λ unread. unread ≡ Memory) }
{
    match append_line_answer(alloc, topic, said, out) {
        Ok(()) => Ok(()),
        Err(_) => Err(Unread::Memory),
    }
}

/// Appends what the line is answered, with its end.
fn append_answer<T: Opened + Drop>(
    alloc: Global,
    name: &TopicName,
    topic: &mut Restartable<T>,
    line: &[u8],
    out: &mut String,
) -> Result<(), Unread>
    ensures ok { OnOk result ((answer : Answer) × IsAnsweredBy name.now line.now topic.old answer topic.new × (string_bytes out.new ≡ string_bytes out.old ++ answer_text answer)) }
    ensures bad { result ≡ Err BadLine → IsBadLine name.now line.now }
    ensures kept { result ≡ Err BadLine → topic.new ≡ topic.old }
    ensures memory { result ≡ Err Memory → MayBeLost name.now line.now topic.old topic.new }
{
    match read_line(alloc, name, line) {
        Ok(said) => append_said(alloc, topic, &said, out),
        Err(unread) => Err(unread),
    }
}

/// The number of the bad line, where the replay ended at one.
fn bad_line(outcome: &Result<(), Stop>) -> Option<u64>
    ensures { result ≡ bad_line_in outcome.now }
{
    match outcome {
        Err(Stop::BadLine(number)) => Some(*number),
        Ok(()) | Err(Stop::Read | Stop::Write | Stop::Memory) => None,
    }
}

fn failed_writing(outcome: &Result<(), Stop>) -> bool
    ensures { result ≡ failed_writing outcome.now }
{
    matches!(outcome, Err(Stop::Write))
}

impl Replay {
    ghost use Rattle.std.specs.Prelude.{◌≡◌, ◌+◌, ◌*◌, ◌<◌, ◌≤◌, ◌^◌, List, ℕ, Option, [], ◌∷◌, ◌++◌, length, OnOk, OnErr, IfErr, false};
    ghost use Rattle.std.specs.Io.KnownBytes.{Consumes, IsAtEnd};
    ghost use Rattle.topic_restart.specs.Standing.{Standing};
    ghost use Rattle.replay_core.specs.Replay.{Answer, IsReplay, sides, answer_text, bad_line_text, last_words};
    ghost use Rattle.replay_core.specs.Answering.{IsAnsweredBy, StopsAt};
    ghost use Rattle.replay_core.specs.Progress.{Ended, Progress, Start, Takes, has_end, moment};

    /// Answers a whole line, without its end.
    pub fn answer_line<T: Opened + Drop>(
        &mut self,
        topic: &mut Restartable<T>,
        line: &[u8],
    ) -> Result<(), Stop>
        requires { self.old.lines + 1 < 2 ^ 64 }
        ensures ok { OnOk result ((answer : Answer) × IsAnsweredBy self.old.name line.now topic.old answer topic.new × (self.new.output.text.items ≡ self.old.output.text.items ++ answer_text answer)) }
        ensures err { OnErr result (self.new.output.text.items ≡ self.old.output.text.items) }
        ensures why { IfErr result (λ stop. StopsAt self.old.name line.now (self.old.lines + 1) topic.old stop topic.new) }
        ensures count { OnOk result (self.new.lines ≡ self.old.lines + 1) }
        ensures most { self.new.lines ≤ self.old.lines + 1 }
        ensures begun { self.new.begun.items ≡ self.old.begun.items }
        ensures name { self.new.name ≡ self.old.name }
    {
        self.answer.clear();
        match append_answer(self.alloc, &self.name, topic, line, &mut self.answer) {
            Ok(()) => {}
            Err(Unread::BadLine) => return Err(Stop::BadLine(self.lines + 1)),
            Err(Unread::Memory) => return Err(Stop::Memory),
        }
        self.output.append(self.answer.as_bytes())?;
        self.lines += 1;
        Ok(())
    }

    /// Keeps a further part of a line until its end comes.
    fn add_part(&mut self, part: &[u8]) -> Result<(), Stop>
        requires bound { self.old.lines + 1 < 2 ^ 64 }
        requires open_end { has_end part.now ≡ false }
        ensures takes { (w : Option (List ℕ)) (t : Standing) → Takes part.now (moment self.old w t) result (moment self.new w t) }
        ensures lines { self.new.lines ≡ self.old.lines }
    {
        if self.begun.len().saturating_add(part.len()) > LONGEST_LINE {
            return Err(Stop::BadLine(self.lines + 1));
        }
        self.begun.extend_from_slice(part)?;
        Ok(())
    }

    /// Answers the line that was begun, which has ended.
    fn answer_begun<T: Opened + Drop>(&mut self, topic: &mut Restartable<T>) -> Result<(), Stop>
        requires { self.old.lines + 1 < 2 ^ 64 }
        ensures takes { (w : Option (List ℕ)) → Takes (10 ∷ []) (moment self.old w topic.old) result (moment self.new w topic.new) }
        ensures lines { self.new.lines ≤ self.old.lines + 1 }
        ensures begun { self.new.begun.items ≡ [] }
    {
        let line = mem::replace(&mut self.begun, Vec::new(self.alloc));
        self.answer_line(topic, line.as_slice())
    }

    /// Answers the line that ends after this part.
    fn end_line<T: Opened + Drop>(
        &mut self,
        topic: &mut Restartable<T>,
        part: &[u8],
    ) -> Result<(), Stop>
        requires bound { self.old.lines + 1 < 2 ^ 64 }
        requires open_end { has_end part.now ≡ false }
        ensures takes { (w : Option (List ℕ)) → Takes (part.now ++ 10 ∷ []) (moment self.old w topic.old) result (moment self.new w topic.new) }
        ensures lines { self.new.lines ≤ self.old.lines + 1 }
    {
        if self.begun.is_empty() {
            return self.answer_line(topic, part);
        }
        self.add_part(part)?;
        self.answer_begun(topic)
    }

    /// Writes the gathered answers.
    fn write_answers<W: Write>(&mut self, writer: &mut W) -> Result<(), Stop>
        ensures takes { (t : Standing) → Takes [] (moment self.old (W.contents writer.old) t) result (moment self.new (W.contents writer.new) t) }
        ensures lines { self.new.lines ≡ self.old.lines }
    {
        self.output.write_to(writer)
    }

    /// Answers the line that ends after this part, and writes the answers where they are many.
    fn take_line<T: Opened + Drop, W: Write>(
        &mut self,
        topic: &mut Restartable<T>,
        part: &[u8],
        writer: &mut W,
    ) -> Result<(), Stop>
        requires bound { self.old.lines + 1 < 2 ^ 64 }
        requires open_end { has_end part.now ≡ false }
        ensures takes { Takes (part.now ++ 10 ∷ []) (moment self.old (W.contents writer.old) topic.old) result (moment self.new (W.contents writer.new) topic.new) }
        ensures lines { self.new.lines ≤ self.old.lines + 1 }
    {
        self.end_line(topic, part)?;
        if self.output.is_large() {
            return self.write_answers(writer);
        }
        Ok(())
    }

    /// Answers the lines that end in the piece.
    fn take_piece<T: Opened + Drop, W: Write>(
        &mut self,
        topic: &mut Restartable<T>,
        piece: &[u8],
        writer: &mut W,
    ) -> Result<(), Stop>
        requires { self.old.lines + length piece.now + 1 < 2 ^ 64 }
        ensures takes { Takes piece.now (moment self.old (W.contents writer.old) topic.old) result (moment self.new (W.contents writer.new) topic.new) }
        ensures lines { self.new.lines ≤ self.old.lines + length piece.now }
    {
        let mut rest = piece;
        while let Some((part, after)) = split(rest, b'\n') {
            self.take_line(topic, part, writer)?;
            rest = after;
        }
        self.add_part(rest)
    }

    /// Answers the last line, where the input does not end with the end of a line.
    fn end_input<T: Opened + Drop>(&mut self, topic: &mut Restartable<T>) -> Result<(), Stop>
        requires { self.old.lines + 1 < 2 ^ 64 }
        ensures { (s : Start) (input : List ℕ) (left w : Option (List ℕ)) → IsAtEnd left → Progress s input (moment self.old w topic.old)
            → Ended s input left (moment self.new w topic.new) result [] }
    {
        if self.begun.is_empty() {
            return Ok(());
        }
        self.answer_begun(topic)
    }

    /// Answers the lines of the whole input, but for what is left in the output.
    fn run<T: Opened + Drop, R: Read, W: Write>(
        &mut self,
        topic: &mut Restartable<T>,
        reader: &mut R,
        writer: &mut W,
        piece: &mut [u8],
    ) -> Result<(), Stop>
        requires begins { (self.old.lines ≡ 0) × (self.old.begun.items ≡ []) × (self.old.output.text.items ≡ []) }
        requires room { (0 < length piece.old) × (length piece.old ≤ 65536) }
        ensures { (read : List ℕ) × Consumes (R.remaining reader.old) (R.remaining reader.new) read
            × Ended (record { name = self.old.name; written = W.contents writer.old; topic = topic.old }) read (R.remaining reader.new)
            (moment self.new (W.contents writer.new) topic.new) result [] }
    {
        for turn in 0..MOST_READS {
            self.write_answers(writer)?;
            let Ok(count) = reader.read(piece) else {
                return Err(Stop::Read);
            };
            if count == 0 {
                return self.end_input(topic);
            }
            self.take_piece(topic, &piece[..count], writer)?;
        }
        Err(Stop::Read)
    }

    fn append_bad_line(&mut self, number: u64) -> Result<(), AllocError>
        ensures ok { OnOk result (self.new.output.text.items ≡ self.old.output.text.items ++ bad_line_text number) }
        ensures err { OnErr result (self.new.output.text.items ≡ self.old.output.text.items) }
        ensures name { self.new.name ≡ self.old.name }
    {
        self.answer.clear();
        writeln!(self.answer, "bad line {number}")?;
        self.output.append(self.answer.as_bytes())
    }

    /// Gathers which line was bad, if one was.
    fn name_bad_line(&mut self, outcome: Result<(), Stop>) -> Result<(), Stop>
        ensures { (s : Start) (input : List ℕ) (left w : Option (List ℕ)) (t : Standing) → Ended s input left (moment self.old w t) outcome []
            → Ended s input left (moment self.new w t) result (last_words result) }
    {
        let Some(number) = bad_line(&outcome) else {
            return outcome;
        };
        self.append_bad_line(number)?;
        outcome
    }

    /// Writes what is left in the output, where writing has not failed before.
    fn write_rest<W: Write>(
        &mut self,
        outcome: Result<(), Stop>,
        writer: &mut W,
    ) -> Result<(), Stop>
        ensures { (s : Start) (input : List ℕ) (before left : Option (List ℕ)) (t : Standing) → Consumes before left input
            → Ended s input left (moment self.old (W.contents writer.old) t) outcome (last_words outcome)
            → IsReplay s.name (sides before s.written s.topic) result (sides left (W.contents writer.new) t) }
    {
        if failed_writing(&outcome) {
            return outcome;
        }
        self.output.write_to(writer)?;
        outcome
    }
}

/// The replay, with room for a piece of the input.
fn replay_by<T: Opened + Drop, R: Read, W: Write>(
    alloc: Global,
    name: TopicName,
    topic: &mut Restartable<T>,
    reader: &mut R,
    writer: &mut W,
    mut piece: Vec<u8>,
) -> Result<(), Stop>
    requires { length piece.items ≡ 65536 }
    ensures { IsReplay name (sides (R.remaining reader.old) (W.contents writer.old) topic.old) result
        (sides (R.remaining reader.new) (W.contents writer.new) topic.new) }
{
    let mut replay = Replay {
        alloc,
        name,
        lines: 0,
        begun: Vec::new(alloc),
        answer: String::new(alloc),
        output: Output::new(alloc),
    };
    let outcome = replay.run(topic, reader, writer, piece.as_mut_slice());
    let outcome = replay.name_bad_line(outcome);
    replay.write_rest(outcome, writer)
}

/// Replays the topic of the name: answers each line of the input with a line of the output.
pub fn replay_over<T: Opened + Drop, R: Read, W: Write>(
    alloc: Global,
    name: TopicName,
    topic: &mut Restartable<T>,
    reader: &mut R,
    writer: &mut W,
) -> Result<(), Stop>
    ensures { IsReplay name (sides (R.remaining reader.old) (W.contents writer.old) topic.old) result
        (sides (R.remaining reader.new) (W.contents writer.new) topic.new) }
{
    match vec![in alloc; 0u8; PIECE] {
        Ok(piece) => replay_by(alloc, name, topic, reader, writer, piece),
        Err(_) => Err(Stop::Memory),
    }
}
