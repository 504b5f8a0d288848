//! Replays a topic: `pulsar_replay [ledger_size]` reads one event a line and prints one reply a line.
//! The topic is kept as the plain topic; `pulsar_replay fast [ledger_size]` keeps it as the fast one.
#![tactic(auto)]

use plain_topic::PlainTopic;
use replay_core::{Form, asked_form, asked_ledger_size, replay_asked};
use std::io::{Stdin, Stdout};
use std::process::ExitCode;
use topic_core::TopicCore;

fn main(rt: HostRuntime) -> ExitCode {
    let form = asked_form(&rt);
    let size = asked_ledger_size(&rt, usize::from(form.is_some()));
    let reader = &mut rt.stdin();
    let writer = &mut rt.stdout();
    let status = match form {
        Some(Form::Fast) => replay_asked::<TopicCore, _, _, _>(
            &rt,
            size,
            "topic_replay",
            reader,
            writer,
        ),
        Some(Form::Plain) | None => {
            replay_asked::<PlainTopic, _, _, _>(&rt, size, "pulsar_replay", reader, writer)
        }
    };
    ExitCode::from(status)
}
