// The errors of a publish, with the numbers and messages that Pulsar gives them. The broker sends a few of them.
use std::process::Abort;
use wire_json::{SendError, error_text};

fn check<R: Abort + AllocGlobal>(rt: &R, error: SendError, want: &str) {
    let mut text = String::new(rt.alloc());
    error_text(&mut text, None, error).expect(rt, "no memory");
    assert!(rt; text.as_str() == want, "{text}");
}

const ERRORS: [(SendError, &str); 8] = [
    (
        SendError::CreateProducer,
        "{\"errorMsg\":\"Failed to create producer\",\"result\":\"send-error:1\"}",
    ),
    (
        SendError::Subscribe,
        "{\"errorMsg\":\"Failed to subscribe\",\"result\":\"send-error:2\"}",
    ),
    (
        SendError::Deserialize,
        "{\"errorMsg\":\"Failed to deserialize from JSON\",\"result\":\"send-error:3\"}",
    ),
    (
        SendError::Serialize,
        "{\"errorMsg\":\"Failed to serialize to JSON\",\"result\":\"send-error:4\"}",
    ),
    (
        SendError::Authenticate,
        "{\"errorMsg\":\"Failed to authenticate\",\"result\":\"send-error:5\"}",
    ),
    (
        SendError::Authorize,
        "{\"errorMsg\":\"Not authorized\",\"result\":\"send-error:6\"}",
    ),
    (
        SendError::PayloadEncoding,
        "{\"errorMsg\":\"Invalid payload encoding\",\"result\":\"send-error:7\"}",
    ),
    (
        SendError::Unknown,
        "{\"errorMsg\":\"Unknown error\",\"result\":\"send-error:8\"}",
    ),
];

#[test]
fn each_error_has_its_number_and_message(rt: HostRuntime) {
    for (error, want) in ERRORS {
        check(&rt, error, want);
    }
}
