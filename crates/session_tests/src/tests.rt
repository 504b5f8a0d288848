// Sessions, and the bells that wake them.
mod bells;
mod errors;
mod sessions;

use position_core::{SubscriptionName, TopicName};
use std::process::Abort;
use value_texts::read_topic_name;

fn push<R: Abort>(rt: &R, out: &mut String, part: &str) {
    out.push_str(part).expect(rt, "no memory");
}

/// A text in parts.
fn joined<R: Abort + AllocGlobal>(rt: &R, parts: &[&str]) -> String {
    let mut out = String::new(rt.alloc());
    for part in parts {
        push(rt, &mut out, part);
    }
    out
}

/// `persistent://public/default/t`.
fn this_topic<R: Abort + AllocGlobal>(rt: &R) -> TopicName {
    let name = read_topic_name(rt.alloc(), "persistent://public/default/t");
    name.expect(rt, "no memory").expect(rt, "no name")
}

/// The subscription `s`.
fn this_subscription<R: Abort + AllocGlobal>(rt: &R) -> SubscriptionName {
    let name = SubscriptionName::from_text(rt.alloc(), "s");
    name.expect(rt, "no memory").expect(rt, "no name")
}

fn expect_count<R: Abort>(rt: &R, got: u64, want: u64) {
    assert_eq!(rt; got, want);
}
