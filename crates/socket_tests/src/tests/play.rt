// Plays a connection over a stream in memory, by words.
use super::scripted::{Piece, Scripted};
use session_links::{Conn, Incoming};
use socket_conn::{Held, Shaken, Shaking, SocketConn};
use std::process::Abort;
use std::str;

type Socket = SocketConn<Held<Scripted>>;

/// The request that each connection begins with. Its key, and the answer to it, are those of RFC 6455, section 1.3.
pub(super) const REQUEST: Piece = Piece::Bytes(
    b"GET /ws/v2/ HTTP/1.1\r\nHost: h\r\nConnection: Upgrade\r\nUpgrade: websocket\r\nSec-WebSocket-Version: 13\r\nSec-WebSocket-Key: dGhlIHNhbXBsZSBub25jZQ==\r\n\r\n",
);

pub(super) const ANSWER: &[u8] =
    b"HTTP/1.1 101 Switching Protocols\r\nConnection: Upgrade\r\nUpgrade: websocket\r\nSec-WebSocket-Accept: s3pPLMBiTxaQ9kYGzzhZRbK+xOo=\r\n\r\n";

/// The connection that the first piece opens.
fn opened<R: Abort + AllocGlobal>(rt: &R, pieces: &'static [Piece]) -> Socket {
    let stream = Scripted {
        pieces,
        given: 0,
        asked: 0,
        taken: Vec::new(rt.alloc()),
    };
    match Shaking::start(rt.alloc(), stream).advance() {
        Shaken::Open(conn, asked) => {
            drop(asked);
            conn
        }
        _ => None.expect(rt, "a connection"),
    }
}

fn push<R: Abort>(rt: &R, out: &mut String, part: &str) {
    out.push_str(part).expect(rt, "no memory");
}

/// What was received.
fn receive<R: Abort>(rt: &R, conn: &mut Socket, out: &mut String) {
    if !conn.is_open() {
        push(rt, out, "closed");
        return;
    }
    match conn.receive() {
        Ok(Incoming::Text(bytes)) => {
            let text = str::from_utf8(bytes.as_slice()).unwrap_or("no text");
            push(rt, out, text);
        }
        Ok(Incoming::Nothing) => push(rt, out, "nothing"),
        Ok(Incoming::Gone) => push(rt, out, "gone"),
        Err(_) => push(rt, out, "fault"),
    }
}

fn send<R: Abort>(rt: &R, conn: &mut Socket, text: &str) {
    if conn.is_open() && conn.has_room() {
        conn.send(text).expect(rt, "it was sent");
    }
}

/// Does what a word says.
fn act<R: Abort>(rt: &R, conn: &mut Socket, word: &str, out: &mut String) {
    match word {
        "goes" => conn.let_go(),
        "turn" => conn.begin_turn(),
        "data" => conn.note_data(),
        "readable" => conn.note_readable(),
        "flush" => {
            let _ = conn.flush();
        }
        "close" => {
            if conn.is_open() {
                conn.close(1000, "bye");
            }
        }
        "receive" => receive(rt, conn, out),
        text => send(rt, conn, text),
    }
    if word == "receive" {
        push(rt, out, " ");
    }
}

/// The connection over these pieces is played by these words: what its receives answered, how often the stream was asked behind
/// the request, and what went out behind the answer to that.
pub(super) fn check<R: Abort + AllocGlobal>(
    rt: &R,
    pieces: &'static [Piece],
    words: &str,
    answers: &str,
    asked: u64,
    sent: &[u8],
) {
    let mut conn = opened(rt, pieces);
    conn.let_go();
    let mut out = String::new(rt.alloc());
    for word in words.split(' ') {
        act(rt, &mut conn, word, &mut out);
    }
    let _ = conn.flush();
    assert_eq!(rt; out.as_str(), answers);
    let stream = conn.into_stream();
    assert_eq!(rt; stream.asked, asked.wrapping_add(1));
    let behind = stream.taken.as_slice().strip_prefix(ANSWER);
    assert_eq!(rt; behind, Some(sent));
}
