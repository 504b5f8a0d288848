// Statements that break a rule of the rows, each with one that mends it.

/// Rows of no subscription or no topic, and subscriptions that are none.
pub(super) const SUBSCRIPTIONS: [(&str, &str); 9] = [
    (
        "INSERT INTO ack VALUES ('persistent://public/default/t', 'x', 0, 0)",
        "DELETE FROM ack WHERE sub = 'x'",
    ),
    (
        "INSERT INTO dead VALUES ('persistent://public/default/t', 'x', 0, 0, 'persistent://a/b/c')",
        "DELETE FROM dead WHERE sub = 'x'",
    ),
    (
        "DELETE FROM topic",
        "INSERT INTO topic VALUES ('persistent://public/default/t', 50000, 0, 2)",
    ),
    (
        "DELETE FROM sub WHERE name = 'e'",
        "INSERT INTO sub VALUES ('persistent://public/default/t', 'e', 0)",
    ),
    (
        "INSERT INTO sub VALUES ('persistent://public/default/t', 'a/b', 0)",
        "DELETE FROM sub WHERE name = 'a/b'",
    ),
    (
        "INSERT INTO sub VALUES ('persistent://public/default/t', '', 0)",
        "DELETE FROM sub WHERE name = ''",
    ),
    (
        "UPDATE sub SET kind = 4 WHERE name = 'e'",
        "UPDATE sub SET kind = 0 WHERE name = 'e'",
    ),
    (
        "UPDATE sub SET kind = -1 WHERE name = 'e'",
        "UPDATE sub SET kind = 0 WHERE name = 'e'",
    ),
    // With 's' and 'e' these are 65.
    (
        "INSERT INTO sub SELECT a.topic, 'x' || a.idx || b.idx || c.idx, 0 FROM entry a, entry b, entry c WHERE a.idx + b.idx + c.idx > 0",
        "DELETE FROM sub WHERE name > 'x'",
    ),
];

/// Numbers of the topic's own row.
pub(super) const TOPICS: [(&str, &str); 8] = [
    (
        "UPDATE topic SET ordinal = 1",
        "UPDATE topic SET ordinal = 2",
    ),
    (
        "UPDATE topic SET ordinal = -1",
        "UPDATE topic SET ordinal = 2",
    ),
    (
        "UPDATE topic SET ordinal = 4611686018427387905",
        "UPDATE topic SET ordinal = 2",
    ),
    (
        "UPDATE topic SET ledger = -1",
        "UPDATE topic SET ledger = 0",
    ),
    (
        "UPDATE topic SET ledger = 4611686018427387906",
        "UPDATE topic SET ledger = 0",
    ),
    (
        "UPDATE topic SET ledger_size = 0",
        "UPDATE topic SET ledger_size = 50000",
    ),
    (
        "UPDATE topic SET ledger_size = 50001",
        "UPDATE topic SET ledger_size = 50000",
    ),
    (
        "UPDATE topic SET ledger_size = 4294967297",
        "UPDATE topic SET ledger_size = 50000",
    ),
];

/// Places of messages.
pub(super) const PLACES: [(&str, &str); 8] = [
    (
        "UPDATE entry SET idx = 4 WHERE idx = 3",
        "UPDATE entry SET idx = 3 WHERE idx = 4",
    ),
    (
        "UPDATE entry SET idx = -1 WHERE idx = 0",
        "UPDATE entry SET idx = 0 WHERE idx = -1",
    ),
    (
        "UPDATE entry SET entry = 1 WHERE idx = 2",
        "UPDATE entry SET entry = 2 WHERE idx = 2",
    ),
    (
        "UPDATE entry SET entry = 0 WHERE idx = 2",
        "UPDATE entry SET entry = 2 WHERE idx = 2",
    ),
    (
        "UPDATE entry SET entry = -1 WHERE idx = 0",
        "UPDATE entry SET entry = 0 WHERE idx = 0",
    ),
    (
        "UPDATE entry SET entry = 50000 WHERE idx = 3",
        "UPDATE entry SET entry = 3 WHERE idx = 3",
    ),
    (
        "UPDATE entry SET ledger = 1, entry = 0 WHERE idx = 3",
        "UPDATE entry SET ledger = 0, entry = 3 WHERE idx = 3",
    ),
    (
        "UPDATE entry SET ledger = -1 WHERE idx = 0",
        "UPDATE entry SET ledger = 0 WHERE idx = 0",
    ),
];

/// What messages have.
pub(super) const CONTENTS: [(&str, &str); 12] = [
    (
        "UPDATE entry SET producer = '' WHERE idx = 0",
        "UPDATE entry SET producer = 'p' WHERE idx = 0",
    ),
    (
        "UPDATE entry SET sequence = -1 WHERE idx = 0",
        "UPDATE entry SET sequence = 0 WHERE idx = 0",
    ),
    (
        "UPDATE entry SET time = -1 WHERE idx = 0",
        "UPDATE entry SET time = 1000 WHERE idx = 0",
    ),
    (
        "UPDATE entry SET time = 253402300800000 WHERE idx = 0",
        "UPDATE entry SET time = 1000 WHERE idx = 0",
    ),
    (
        "UPDATE entry SET has_key = 2 WHERE idx = 0",
        "UPDATE entry SET has_key = 1 WHERE idx = 0",
    ),
    (
        "UPDATE entry SET has_key = -1 WHERE idx = 0",
        "UPDATE entry SET has_key = 1 WHERE idx = 0",
    ),
    (
        "UPDATE entry SET has_key = 0 WHERE idx = 0",
        "UPDATE entry SET has_key = 1 WHERE idx = 0",
    ),
    (
        "UPDATE entry SET properties = '' WHERE idx = 0",
        "UPDATE entry SET properties = '{}' WHERE idx = 0",
    ),
    (
        "UPDATE entry SET properties = '[]' WHERE idx = 0",
        "UPDATE entry SET properties = '{}' WHERE idx = 0",
    ),
    (
        "UPDATE entry SET properties = '{ }' WHERE idx = 0",
        "UPDATE entry SET properties = '{}' WHERE idx = 0",
    ),
    (
        "UPDATE entry SET properties = '{\"a\":1}' WHERE idx = 0",
        "UPDATE entry SET properties = '{}' WHERE idx = 0",
    ),
    (
        "UPDATE entry SET properties = '{\"b\":\"\",\"a\":\"\"}' WHERE idx = 0",
        "UPDATE entry SET properties = '{}' WHERE idx = 0",
    ),
];

/// Runs of what is acknowledged.
pub(super) const RUNS: [(&str, &str); 6] = [
    (
        "UPDATE ack SET last = 4 WHERE first = 3",
        "UPDATE ack SET last = 3 WHERE first = 3",
    ),
    (
        "UPDATE ack SET last = 0 WHERE sub = 'e'",
        "UPDATE ack SET last = 1 WHERE sub = 'e'",
    ),
    (
        "UPDATE ack SET first = -1 WHERE sub = 'e'",
        "UPDATE ack SET first = 1 WHERE sub = 'e'",
    ),
    (
        "INSERT INTO ack VALUES ('persistent://public/default/t', 'e', 0, 1)",
        "DELETE FROM ack WHERE sub = 'e' AND first = 0",
    ),
    (
        "INSERT INTO ack VALUES ('persistent://public/default/t', 'e', 0, 0)",
        "DELETE FROM ack WHERE sub = 'e' AND first = 0",
    ),
    (
        "INSERT INTO ack VALUES ('persistent://public/default/t', 'e', 2, 2)",
        "DELETE FROM ack WHERE first = 2",
    ),
];

/// Dead letters.
pub(super) const LETTERS: [(&str, &str); 9] = [
    ("UPDATE dead SET idx = 4", "UPDATE dead SET idx = 1"),
    ("UPDATE dead SET idx = -1", "UPDATE dead SET idx = 1"),
    ("UPDATE dead SET ordinal = 2", "UPDATE dead SET ordinal = 1"),
    (
        "UPDATE dead SET ordinal = -1",
        "UPDATE dead SET ordinal = 1",
    ),
    (
        "INSERT INTO dead VALUES ('persistent://public/default/t', 's', 0, 1, 'persistent://a/b/c')",
        "DELETE FROM dead WHERE ordinal = 0",
    ),
    (
        "INSERT INTO dead VALUES ('persistent://public/default/t', 'e', 1, 2, 'persistent://a/b/c')",
        "DELETE FROM dead WHERE sub = 'e'",
    ),
    (
        "UPDATE dead SET target = 'persistent://public/default/t'",
        "UPDATE dead SET target = 'persistent://public/default/t-s-DLQ'",
    ),
    (
        "UPDATE dead SET target = 'persistent://a/b'",
        "UPDATE dead SET target = 'persistent://public/default/t-s-DLQ'",
    ),
    (
        "UPDATE dead SET target = ''",
        "UPDATE dead SET target = 'persistent://public/default/t-s-DLQ'",
    ),
];

/// Counts of what cannot be counted, and counts that are none.
pub(super) const COUNTS: [(&str, &str); 9] = [
    (
        "UPDATE redelivery SET times = 0",
        "UPDATE redelivery SET times = 1",
    ),
    (
        "UPDATE redelivery SET times = 2147483648",
        "UPDATE redelivery SET times = 1",
    ),
    (
        "UPDATE redelivery SET times = -1",
        "UPDATE redelivery SET times = 1",
    ),
    (
        "UPDATE redelivery SET idx = 1",
        "UPDATE redelivery SET idx = 0",
    ),
    (
        "UPDATE redelivery SET idx = 4",
        "UPDATE redelivery SET idx = 0",
    ),
    (
        "UPDATE redelivery SET idx = -1",
        "UPDATE redelivery SET idx = 0",
    ),
    (
        "UPDATE redelivery SET sub = 'x'",
        "UPDATE redelivery SET sub = 'e'",
    ),
    (
        "UPDATE redelivery SET sub = 's'",
        "UPDATE redelivery SET sub = 'e'",
    ),
    (
        "UPDATE redelivery SET sub = 's', idx = 1",
        "UPDATE redelivery SET sub = 'e', idx = 0",
    ),
];
