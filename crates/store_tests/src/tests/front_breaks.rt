// Statements that break a rule of the rows of what is gone and of what a topic keeps, each with one that mends it.

/// Rules of a topic of which no message is gone.
pub(super) const RULES: [(&str, &str); 12] = [
    (
        "INSERT INTO retention VALUES ('persistent://public/default/t', 0, 0, 0)",
        "DELETE FROM retention",
    ),
    (
        "INSERT INTO retention VALUES ('persistent://public/default/t', 0, 0, 1)",
        "DELETE FROM retention",
    ),
    (
        "INSERT INTO retention VALUES ('persistent://public/default/t', 0, 1, 1)",
        "DELETE FROM retention",
    ),
    (
        "INSERT INTO retention VALUES ('persistent://public/default/t', 0, 2, 1048577)",
        "DELETE FROM retention",
    ),
    (
        "INSERT INTO retention VALUES ('persistent://public/default/t', 0, 2, -1)",
        "DELETE FROM retention",
    ),
    (
        "INSERT INTO retention VALUES ('persistent://public/default/t', 0, 3, 253402300800000)",
        "DELETE FROM retention",
    ),
    (
        "INSERT INTO retention VALUES ('persistent://public/default/t', 0, 3, -1)",
        "DELETE FROM retention",
    ),
    (
        "INSERT INTO retention VALUES ('persistent://public/default/t', 0, 4, 0)",
        "DELETE FROM retention",
    ),
    (
        "INSERT INTO retention VALUES ('persistent://public/default/t', 0, -1, 0)",
        "DELETE FROM retention",
    ),
    (
        "INSERT INTO retention VALUES ('persistent://public/default/t', 1, 0, 0)",
        "DELETE FROM retention",
    ),
    (
        "INSERT INTO retention VALUES ('persistent://public/default/t', -1, 1, 0)",
        "DELETE FROM retention",
    ),
    (
        "INSERT INTO author VALUES ('persistent://public/default/t', 0, 'q', 0)",
        "DELETE FROM author",
    ),
];

/// How many messages are gone of a topic that had 70, and has the last six.
pub(super) const FRONTS: [(&str, &str); 10] = [
    (
        "UPDATE retention SET gone = 63",
        "UPDATE retention SET gone = 64",
    ),
    (
        "UPDATE retention SET gone = 65",
        "UPDATE retention SET gone = 64",
    ),
    (
        "UPDATE retention SET gone = 4611686018427387905",
        "UPDATE retention SET gone = 64",
    ),
    (
        "DELETE FROM retention",
        "INSERT INTO retention VALUES ('persistent://public/default/t', 64, 0, 0)",
    ),
    (
        "UPDATE entry SET idx = 63 WHERE idx = 64",
        "UPDATE entry SET idx = 64 WHERE idx = 63",
    ),
    (
        "UPDATE entry SET idx = idx - 64",
        "UPDATE entry SET idx = idx + 64",
    ),
    ("UPDATE ack SET first = 63", "UPDATE ack SET first = 64"),
    (
        "UPDATE ack SET first = 0, last = 5",
        "UPDATE ack SET first = 64, last = 69",
    ),
    (
        "INSERT INTO dead VALUES ('persistent://public/default/t', 's', 0, 63, 'persistent://a/b/c')",
        "DELETE FROM dead",
    ),
    (
        "INSERT INTO redelivery VALUES ('persistent://public/default/t', 's', 63, 1)",
        "DELETE FROM redelivery",
    ),
];

/// The producer of its messages that are gone.
pub(super) const AUTHORS: [(&str, &str); 7] = [
    ("UPDATE author SET idx = 64", "UPDATE author SET idx = 63"),
    ("UPDATE author SET idx = -1", "UPDATE author SET idx = 63"),
    (
        "UPDATE author SET sequence = -1",
        "UPDATE author SET sequence = 63",
    ),
    (
        "UPDATE author SET producer = ''",
        "UPDATE author SET producer = 'p'",
    ),
    (
        "INSERT INTO author VALUES ('persistent://public/default/t', 5, 'p', 5)",
        "DELETE FROM author WHERE idx = 5",
    ),
    (
        "INSERT INTO author VALUES ('persistent://public/default/t', 70, 'q', 5)",
        "DELETE FROM author WHERE idx = 70",
    ),
    (
        "UPDATE author SET idx = 4611686018427387904",
        "UPDATE author SET idx = 63",
    ),
];
