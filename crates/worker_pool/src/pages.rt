// What is said to requests that ask for no WebSocket.
ghost use Rattle.std.specs.Prelude.{◌≡◌, ◌++◌, IfOk};
ghost use Rattle.worker_pool.specs.Pages.{IsPage, asked_of, beginning, comes, ending, page_for, health as health_page, page_at, response_of, status_text, text_response, unseen};

use delivery_machine::Fault;
use endpoint_core::{Admitted, has_one_reading, may_come};
use itoa::Buffer;
use socket_conn::{Asked, Request};
use status_pages::{BrokerSeen, PAGE, PAGE_POLICY, metrics_text, overview_text};
use std::alloc::{AllocError, Global};

/// The status of a response (RFC 9110, section 15).
#[derive(Clone, Copy, Debug, PartialEq, Eq)]
pub(crate) enum Status {
    Fine,
    BadRequest,
    Forbidden,
    NotFound,
    Conflict,
    Unavailable,
}

/// The kind of a body that is a text.
const TEXT: &str = "text/plain; charset=utf-8";

/// The policy of a body that a browser shows alone: it loads nothing, and is in no frame.
pub(crate) const NOTHING: &str = "default-src 'none'; frame-ancestors 'none'";

impl Status {
    fn text(self) -> &'static str
        ensures { result.now ≡ status_text self }
    {
        match self {
            Status::Fine => "200 OK",
            Status::BadRequest => "400 Bad Request",
            Status::Forbidden => "403 Forbidden",
            Status::NotFound => "404 Not Found",
            Status::Conflict => "409 Conflict",
            Status::Unavailable => "503 Service Unavailable",
        }
    }
}

/// The first two lines of a response.
pub(crate) fn begun(alloc: Global, status: Status, kind: &str) -> Result<Vec<u8>, AllocError>
    ensures { IfOk result (λ bytes. bytes.items ≡ beginning status kind.now) }
{
    let mut bytes = Vec::from_slice(alloc, b"HTTP/1.1 ")?;
    bytes.extend_from_slice(status.text().as_bytes())?;
    bytes.extend_from_slice(b"\r\nContent-Type: ")?;
    bytes.extend_from_slice(kind.as_bytes())?;
    Ok(bytes)
}

/// The head, and behind it its last lines: the connection ends behind it, nobody is to keep it, and a browser may do with it what
/// the policy says.
pub(crate) fn ended(head: Vec<u8>, policy: &str) -> Result<Vec<u8>, AllocError>
    ensures { IfOk result (λ bytes. bytes.items ≡ head.items ++ ending policy.now) }
{
    let mut bytes = head;
    bytes.extend_from_slice(b"\r\nConnection: close\r\nCache-Control: no-store")?;
    bytes.extend_from_slice(b"\r\nX-Content-Type-Options: nosniff")?;
    bytes.extend_from_slice(b"\r\nCross-Origin-Resource-Policy: same-origin")?;
    bytes.extend_from_slice(b"\r\nContent-Security-Policy: ")?;
    bytes.extend_from_slice(policy.as_bytes())?;
    bytes.extend_from_slice(b"\r\n\r\n")?;
    Ok(bytes)
}

/// A response with its head, as it goes out. A browser may do with the body what the policy says, and pages from elsewhere may
/// not load it.
fn response(
    alloc: Global,
    status: Status,
    kind: &str,
    policy: &str,
    body: &[u8],
) -> Result<Vec<u8>, AllocError>
    ensures { IfOk result (λ bytes. bytes.items ≡ response_of status kind.now policy.now body.now) }
{
    let mut buffer = Buffer::new();
    let mut bytes = begun(alloc, status, kind)?;
    bytes.extend_from_slice(b"\r\nContent-Length: ")?;
    bytes.extend_from_slice(buffer.format(body.len()).as_bytes())?;
    let mut bytes = ended(bytes, policy)?;
    bytes.extend_from_slice(body)?;
    Ok(bytes)
}

fn text_page(alloc: Global, status: Status, body: &str) -> Result<Vec<u8>, AllocError>
    ensures { IfOk result (λ bytes. bytes.items ≡ text_response status body.now) }
{
    response(alloc, status, TEXT, NOTHING, body.as_bytes())
}

/// How the store stands.
#[derive(Clone, Copy, Debug, PartialEq, Eq)]
pub(crate) enum Store {
    Stands,
    /// The database takes as much of the disk as it may.
    Full,
    Failed,
}

impl Store {
    pub(crate) fn of(has_failed: bool, is_full: bool) -> Store {
        if has_failed {
            Store::Failed
        } else if is_full {
            Store::Full
        } else {
            Store::Stands
        }
    }
}

/// How the store stands, as whoever asks is told.
pub(crate) fn health(alloc: Global, store: Store) -> Result<Vec<u8>, AllocError>
    ensures { IfOk result (λ bytes. bytes.items ≡ health_page store) }
{
    match store {
        Store::Stands => text_page(alloc, Status::Fine, "ok\n"),
        Store::Full => text_page(alloc, Status::Unavailable, "disk full\n"),
        Store::Failed => text_page(alloc, Status::Unavailable, "store failed\n"),
    }
}

/// What a request asks for.
#[derive(Clone, Copy, Debug, PartialEq, Eq)]
pub(crate) enum Page {
    Health,
    Metrics,
    Overview,
    Index,
    /// There is no such page.
    Unknown,
    /// It is no GET, or no request, or its target may be read in two ways.
    Nothing,
    /// It may not come: a page of another origin asks, or the host is none of the broker's.
    Forbidden,
}

fn page_at(target: &str) -> Page
    ensures { result ≡ page_at target.now }
{
    if !has_one_reading(target) {
        return Page::Nothing;
    }
    if target == "/health" {
        return Page::Health;
    }
    if target == "/metrics" {
        return Page::Metrics;
    }
    if target == "/overview" {
        return Page::Overview;
    }
    if target == "/" {
        Page::Index
    } else {
        Page::Unknown
    }
}

/// Whether a request with this head may come.
pub(crate) fn comes(admitted: &Admitted, asked: &Asked) -> bool
    ensures { result ≡ comes admitted.now asked.now }
{
    let origin = match &asked.origin {
        Some(origin) => Some(origin.as_str()),
        None => None,
    };
    may_come(admitted, asked.host.as_str(), origin)
}

fn page_for(admitted: &Admitted, asked: &Asked) -> Page
    ensures { result ≡ page_for admitted.now asked.now }
{
    if comes(admitted, asked) {
        page_at(asked.target.as_str())
    } else {
        Page::Forbidden
    }
}

/// The page that the request asks for.
pub(crate) fn asked_of(admitted: &Admitted, request: &Request) -> Page
    ensures { result ≡ asked_of admitted.now request.now }
{
    match request {
        Request::Get(asked) => page_for(admitted, asked),
        Request::Other => Page::Nothing,
        Request::Bad => Page::Nothing,
    }
}

fn html(alloc: Global, policy: &str, body: &str) -> Result<Vec<u8>, AllocError>
    ensures { IfOk result (λ bytes. IsPage Page.Index bytes.items) }
{
    response(
        alloc,
        Status::Fine,
        "text/html; charset=utf-8",
        policy,
        body.as_bytes(),
    )
}

/// The page of the browser.
pub(crate) fn index(alloc: Global) -> Result<Vec<u8>, AllocError>
    ensures { IfOk result (λ bytes. IsPage Page.Index bytes.items) }
{
    html(alloc, PAGE_POLICY, PAGE)
}

/// The numbers for Prometheus, by its text format.
fn metrics(alloc: Global, seen: &BrokerSeen) -> Result<Vec<u8>, AllocError>
    ensures { IfOk result (λ bytes. IsPage Page.Metrics bytes.items) }
{
    let text = metrics_text(alloc, seen)?;
    response(
        alloc,
        Status::Fine,
        "text/plain; version=0.0.4; charset=utf-8",
        NOTHING,
        text.as_bytes(),
    )
}

/// The same and more, as an object of JSON.
fn overview(alloc: Global, seen: &BrokerSeen) -> Result<Vec<u8>, AllocError>
    ensures { IfOk result (λ bytes. IsPage Page.Overview bytes.items) }
{
    let text = overview_text(alloc, seen)?;
    response(
        alloc,
        Status::Fine,
        "application/json",
        NOTHING,
        text.as_bytes(),
    )
}

/// There is no memory to look.
fn unseen(alloc: Global) -> Result<Vec<u8>, AllocError>
    ensures { IfOk result (λ bytes. bytes.items ≡ unseen) }
{
    text_page(alloc, Status::Unavailable, "no memory\n")
}

pub(crate) fn not_found(alloc: Global) -> Result<Vec<u8>, AllocError>
    ensures { IfOk result (λ bytes. IsPage Page.Unknown bytes.items) }
{
    text_page(alloc, Status::NotFound, "not found\n")
}

pub(crate) fn bad_request(alloc: Global) -> Result<Vec<u8>, AllocError>
    ensures { IfOk result (λ bytes. IsPage Page.Nothing bytes.items) }
{
    text_page(alloc, Status::BadRequest, "bad request\n")
}

pub(crate) fn forbidden(alloc: Global) -> Result<Vec<u8>, AllocError>
    ensures { IfOk result (λ bytes. IsPage Page.Forbidden bytes.items) }
{
    text_page(alloc, Status::Forbidden, "forbidden\n")
}

/// The numbers of what was seen, or a word of why nothing was.
pub(crate) fn metrics_of(
    alloc: Global,
    seen: Result<BrokerSeen, Fault>,
) -> Result<Vec<u8>, AllocError>
    ensures { IfOk result (λ bytes. IsPage Page.Metrics bytes.items) }
{
    match seen {
        Ok(seen) => {
            let response = metrics(alloc, &seen);
            drop(seen);
            response
        }
        Err(_) => unseen(alloc),
    }
}

/// The overview of what was seen, or a word of why nothing was.
pub(crate) fn overview_of(
    alloc: Global,
    seen: Result<BrokerSeen, Fault>,
) -> Result<Vec<u8>, AllocError>
    ensures { IfOk result (λ bytes. IsPage Page.Overview bytes.items) }
{
    match seen {
        Ok(seen) => {
            let response = overview(alloc, &seen);
            drop(seen);
            response
        }
        Err(_) => unseen(alloc),
    }
}

/// The overview of what was seen, or why nothing was.
pub(crate) fn overview_in(seen: Result<BrokerSeen, Fault>) -> Result<String, Fault> {
    match seen {
        Ok(seen) => {
            let text = overview_text(*seen.topics.allocator(), &seen);
            drop(seen);
            text.map_err(|_| Fault::NoMemory)
        }
        Err(fault) => Err(fault),
    }
}
