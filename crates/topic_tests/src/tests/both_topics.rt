// The plain topic and the fast one, asked what no line asks: stores of a part, rules of what is kept, runs, copies, and
// any event while memory is refused.
mod calls;
mod deleted;
mod dice;
mod drawn;
mod kept;
mod memory;
mod pair;

use delivery_machine::Opened;
use drawn::{EXCLUSIVE, FAILOVER, FILLED, KEYED, SHARED};
use pair::Pair;
use plain_topic::PlainTopic;
use position_core::LedgerSize;
use std::process::Abort;
use topic_core::TopicCore;

/// How often a list is gone through, each time with other stores of a part.
const TURNS: u64 = 60;

/// A ledger has so few messages that a list fills several.
const IN_A_LEDGER: u32 = 3;

/// Every reply to the lines is the same, with stores of a part among them.
fn check_pair<P: Opened + Drop, F: Opened + Drop, R: Abort + AllocGlobal>(
    rt: &R,
    turn: u64,
    lines: &str,
) {
    let size = LedgerSize::new(IN_A_LEDGER).expect(rt, "no size");
    let mut pair = Pair::<P, F>::new(rt, size, turn);
    pair.answer_each(rt, lines);
    drop(pair);
}

fn check_lists<R: Abort + AllocGlobal>(rt: &R, turn: u64) {
    for lines in [FAILOVER, EXCLUSIVE, SHARED, KEYED, FILLED] {
        check_pair::<PlainTopic, TopicCore, R>(rt, turn, lines);
    }
}

#[test]
fn stores_of_a_part_and_rules_of_what_is_kept(rt: HostRuntime) {
    for turn in 0..TURNS {
        check_lists(&rt, turn);
    }
}
