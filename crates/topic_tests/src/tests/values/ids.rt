// Ids of messages, against texts from outside.
use position_core::{Fault, Position};
use std::process::Abort;
use value_texts::{id_text, read_id};

/// The greatest number of a ledger and of an entry.
const GREATEST: u64 = 18_446_744_073_709_551_615;

/// The position's text.
fn check_written<R: Abort + AllocGlobal>(rt: &R, position: Position, text: &str) {
    let id = id_text(rt.alloc(), position).expect(rt, "no memory");
    assert_eq!(rt; id.as_str(), text);
    drop(id);
}

fn check_read<R: Abort>(rt: &R, text: &str, want: Result<Position, Fault>) {
    assert_eq!(rt; read_id(text.as_bytes()), want, "at {text}");
}

const IDS: &[(u64, u64, &str)] = &[
    (0, 0, "CAAQAA=="),
    (0, 3, "CAAQAw=="),
    (0, 300, "CAAQrAI="),
    (1, 0, "CAEQAA=="),
    (127, 128, "CH8QgAE="),
    (GREATEST, GREATEST, "CP///////////wEQ////////////AQ=="),
];

const OTHERS: &[&str] = &[
    "",
    "=",
    "CAAQAw",
    "CAAQAw=",
    "CAAQAB==",
    "CAAQAw==\n",
    " CAAQAw==",
    "CAAQAAA=",
    "CIAAEAM=",
    "CAAIABAA",
    "CAA=",
    "EAA=",
    "EAAIAA==",
    "GAA=",
    "CAAQrA==",
    "CICAgICAgICAgAIQAA==",
    "CP///////////4EAEAA=",
    "CP___________wEQ____________AQ==",
    "CP///////////wEQ////////////AQAAAAAA",
    "CAAQAA==CAAQAA==CAAQAA==CAAQAA==CAAQAA==CAAQAA==CAAQAA==CAAQAA==",
];

fn check_others<R: Abort>(rt: &R) {
    for text in OTHERS {
        check_read(rt, text, Err(Fault::BadId));
    }
}

#[test]
fn ids_are_those_of_pulsar(rt: HostRuntime) {
    for (ledger, entry, text) in IDS {
        let position = Position {
            ledger: *ledger,
            entry: *entry,
        };
        check_written(&rt, position, text);
        check_read(&rt, text, Ok(position));
    }
    check_others(&rt);
}
