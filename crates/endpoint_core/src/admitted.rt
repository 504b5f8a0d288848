// The hosts and the origins that the broker was told to admit.
ghost use Rattle.std.specs.Prelude.{◌≡◌, ◌==◌, IfOk, map, string_bytes};
ghost use Rattle.std.specs.List.{list_all, slice_split};
ghost use Rattle.std.specs.Option.{option_copied};
ghost use Rattle.endpoint_core.specs.Origins.{authority_of, is_among, is_host, is_host_byte, is_origin, is_same, parts_of};

use std::alloc::{AllocError, Global};
use std::marker::Model;

/// Who may come besides those that always may: the names that a host may have besides an address in digits and
/// `localhost`, and the origins whose pages may come from another host.
#[derive(Debug, Drop)]
pub struct Admitted {
    hosts: Vec<String>,
    origins: Vec<String>,
}

impl Model for Admitted {
    ghost use Rattle.std.specs.Prelude.{map, string_bytes};
    ghost use Rattle.endpoint_core.specs.Origins.{Listed};

    ghost Value = { Listed };

    ghost view = { λ a. record { hosts = map string_bytes a.hosts.items; origins = map string_bytes a.origins.items } };
}

/// Whether two texts are the same in letters of either case.
pub fn is_same(a: &str, b: &str) -> bool
    ensures { result ≡ is_same a.now b.now }
{
    a.eq_ignore_ascii_case(b)
}

fn is_among(texts: &[String], text: &str) -> bool
    ensures { result ≡ is_among (map string_bytes texts.now) text.now }
{
    texts.iter().any(|one| is_same(one.as_str(), text))
}

/// What follows the first `://`.
pub fn authority_of(origin: &str) -> Option<&str>
    ensures { option_copied result ≡ authority_of origin.now }
{
    match origin.split_once("://") {
        Some((_, authority)) => Some(authority),
        None => None,
    }
}

fn is_host_byte(byte: u8) -> bool
    ensures { result ≡ is_host_byte byte }
{
    byte.is_ascii_alphanumeric() || byte == b'.' || byte == b'-' || byte == b'_'
}

fn has_host_bytes(text: &str) -> bool
    ensures { result ≡ list_all is_host_byte text.now }
{
    text.bytes().all(|byte| is_host_byte(byte))
}

fn is_host(text: &str) -> bool
    ensures { result ≡ is_host text.now }
{
    !text.is_empty() && has_host_bytes(text)
}

fn is_origin(text: &str) -> bool
    ensures { result ≡ is_origin text.now }
{
    match authority_of(text) {
        Some(authority) => !text.starts_with("://") && !authority.is_empty(),
        None => false,
    }
}

fn each_is_host(text: &str) -> bool
    ensures { result ≡ list_all is_host (slice_split (λ byte. byte == 44) text.now) }
{
    text.split(',').all(|part| is_host(part))
}

fn each_is_origin(text: &str) -> bool
    ensures { result ≡ list_all is_origin (slice_split (λ byte. byte == 44) text.now) }
{
    text.split(',').all(|part| is_origin(part))
}

fn are_hosts(text: &str) -> bool
    ensures { result ≡ list_all is_host (parts_of text.now) }
{
    text.is_empty() || each_is_host(text)
}

fn are_origins(text: &str) -> bool
    ensures { result ≡ list_all is_origin (parts_of text.now) }
{
    text.is_empty() || each_is_origin(text)
}

fn copied_parts(alloc: Global, text: &str) -> Result<Vec<String>, AllocError>
    ensures { IfOk result (λ parts. map string_bytes parts.items ≡ slice_split (λ byte. byte == 44) text.now) }
{
    let mut parts = Vec::new(alloc);
    for part in text.split(',') {
        let part = String::from_str(alloc, part)?;
        parts.push(part)?;
    }
    Ok(parts)
}

fn parts_of(alloc: Global, text: &str) -> Result<Vec<String>, AllocError>
    ensures { IfOk result (λ parts. map string_bytes parts.items ≡ parts_of text.now) }
{
    if text.is_empty() {
        return Ok(Vec::new(alloc));
    }
    copied_parts(alloc, text)
}

impl Admitted {
    ghost use Rattle.std.specs.Prelude.{◌≡◌, IfOk};
    ghost use Rattle.endpoint_core.specs.Origins.{is_among, listed_by};

    /// Who the two words admit, each a list with commas, or an empty text. None where a part is no host, or no origin.
    pub fn from_words(alloc: Global, hosts: &str, origins: &str) -> Result<Option<Self>, AllocError>
        ensures { IfOk result (λ found. found ≡ listed_by hosts.now origins.now) }
    {
        if !are_hosts(hosts) || !are_origins(origins) {
            return Ok(None);
        }
        let hosts = parts_of(alloc, hosts)?;
        let origins = parts_of(alloc, origins)?;
        Ok(Some(Admitted { hosts, origins }))
    }

    pub fn lists_host(&self, host: &str) -> bool
        ensures { result ≡ is_among self.now.hosts host.now }
    {
        is_among(self.hosts.as_slice(), host)
    }

    pub fn lists_origin(&self, origin: &str) -> bool
        ensures { result ≡ is_among self.now.origins origin.now }
    {
        is_among(self.origins.as_slice(), origin)
    }
}
