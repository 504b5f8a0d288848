// What a connection reads in its turns. The masks are 0, so that the texts stand in the frames as they are.
use super::play::{REQUEST, check};
use super::scripted::Piece;

const HELLO: &[Piece] = &[REQUEST, Piece::Bytes(b"\x81\x85\0\0\0\0hello")];

#[test]
fn a_short_read_ends_the_reading_of_a_turn(rt: HostRuntime) {
    check(
        &rt,
        HELLO,
        "turn data receive receive receive",
        "hello nothing nothing ",
        1,
        b"",
    );
}

#[test]
fn a_stream_whose_end_may_have_come_is_asked_again(rt: HostRuntime) {
    check(
        &rt,
        HELLO,
        "turn readable receive receive receive",
        "hello nothing nothing ",
        2,
        b"",
    );
}

#[test]
fn what_was_not_told_of_since_is_not_read(rt: HostRuntime) {
    check(
        &rt,
        HELLO,
        "turn data receive receive turn receive",
        "hello nothing nothing ",
        1,
        b"",
    );
}

/// A text whose frame comes in three reads.
const IN_PARTS: &[Piece] = &[
    REQUEST,
    Piece::Bytes(b"\x81"),
    Piece::Bytes(b"\x85\0\0\0\0hel"),
    Piece::Bytes(b"lo\x81\x82\0\0\0\0ho"),
];

#[test]
fn a_text_comes_in_several_reads(rt: HostRuntime) {
    check(
        &rt,
        IN_PARTS,
        "turn data receive turn data receive turn data receive receive receive",
        "nothing nothing hello ho nothing ",
        3,
        b"",
    );
    check(
        &rt,
        IN_PARTS,
        "turn readable receive receive receive",
        "hello ho nothing ",
        4,
        b"",
    );
}

/// A text in two frames, with a ping between them.
const IN_FRAMES: &[Piece] = &[
    REQUEST,
    Piece::Bytes(b"\x01\x82\0\0\0\0he\x89\x81\0\0\0\0p\x80\x83\0\0\0\0llo"),
];

#[test]
fn a_text_comes_in_several_frames(rt: HostRuntime) {
    check(
        &rt,
        IN_FRAMES,
        "turn data receive receive receive",
        "nothing hello nothing ",
        1,
        b"\x8a\x01p",
    );
}

/// The end of the stream behind a text.
const ENDS: &[Piece] = &[REQUEST, Piece::Bytes(b"\x81\x85\0\0\0\0hello"), Piece::End];

#[test]
fn the_end_behind_a_short_read_is_met(rt: HostRuntime) {
    check(
        &rt,
        ENDS,
        "turn readable receive receive receive",
        "hello fault closed ",
        2,
        b"",
    );
    check(
        &rt,
        ENDS,
        "turn data receive receive turn readable receive receive",
        "hello nothing fault closed ",
        2,
        b"",
    );
}

/// A close behind a text, in one read.
const CLOSES: &[Piece] = &[
    REQUEST,
    Piece::Bytes(b"\x81\x85\0\0\0\0hello\x88\x82\0\0\0\0\x03\xe8"),
];

#[test]
fn a_close_is_answered(rt: HostRuntime) {
    check(
        &rt,
        CLOSES,
        "turn data receive receive receive",
        "hello gone closed ",
        1,
        b"\x88\x02\x03\xe8",
    );
}
