// What a connection sends.
use super::play::{REQUEST, check};
use super::scripted::Piece;

const SILENT: &[Piece] = &[REQUEST, Piece::Nothing];

#[test]
fn texts_go_out_as_frames(rt: HostRuntime) {
    check(
        &rt,
        SILENT,
        "turn hello flush ho",
        "",
        0,
        b"\x81\x05hello\x81\x02ho",
    );
}

#[test]
fn a_close_is_the_last_frame(rt: HostRuntime) {
    check(
        &rt,
        SILENT,
        "turn hello close",
        "",
        0,
        b"\x81\x05hello\x88\x05\x03\xe8bye",
    );
}
