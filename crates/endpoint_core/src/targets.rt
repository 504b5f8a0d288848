// Targets that every reader takes for one path.
ghost use Rattle.std.specs.Prelude.{◌≡◌, ◌==◌, ◌&&◌, ◌||◌, length};
ghost use Rattle.std.specs.List.{list_all, list_any};
ghost use Rattle.percent_encoding.specs.Percent.{percent_decode};
ghost use Rattle.endpoint_core.specs.OneReading.{has_backslash, has_empty_segment, has_one_reading, has_slash_within, is_dot, is_dot_segment, is_plain_segment, is_root, is_stray, path_of};
ghost use Rattle.endpoint_core.specs.Segments.{segments_of};

use percent_encoding::percent_decode;

/// What comes before the first `?`.
fn path_of(target: &str) -> &str
    ensures { result.now ≡ path_of target.now }
{
    match target.split_once('?') {
        Some((path, _)) => path,
        None => target,
    }
}

fn are_dots(segment: &str) -> bool
    ensures { result ≡ list_all is_dot (percent_decode segment.now) }
{
    percent_decode(segment.as_bytes()).all(|byte| byte == b'.')
}

fn decoded_len(segment: &str) -> usize
    ensures { result ≡ length (percent_decode segment.now) }
{
    percent_decode(segment.as_bytes()).count()
}

fn is_one_or_two(count: usize) -> bool
    ensures { result ≡ (count == 1 || count == 2) }
{
    count == 1 || count == 2
}

fn is_one_or_two_dots(segment: &str) -> bool
    ensures { let text = percent_decode segment.now in result ≡ ((length text == 1 || length text == 2) && list_all is_dot text) }
{
    is_one_or_two(decoded_len(segment)) && are_dots(segment)
}

fn is_dot_segment(segment: &str) -> bool
    ensures { result ≡ is_dot_segment segment.now }
{
    is_one_or_two_dots(segment)
}

fn has_slash_within(segment: &str) -> bool
    ensures { result ≡ has_slash_within segment.now }
{
    percent_decode(segment.as_bytes()).any(|byte| byte == b'/')
}

fn has_backslash(segment: &str) -> bool
    ensures { result ≡ has_backslash segment.now }
{
    segment.bytes().any(|byte| byte == b'\\')
}

fn is_plain_segment(segment: &str) -> bool
    ensures { result ≡ is_plain_segment segment.now }
{
    !is_dot_segment(segment) && !has_slash_within(segment) && !has_backslash(segment)
}

fn are_plain(path: &str) -> bool
    ensures { result ≡ list_all is_plain_segment (segments_of path.now) }
{
    path.split('/').all(|segment| is_plain_segment(segment))
}

fn has_empty_segment(path: &str) -> bool
    ensures { result ≡ has_empty_segment path.now }
{
    path.split('/').skip(1).any(|segment| segment.is_empty())
}

fn is_root(path: &str) -> bool
    ensures { result ≡ is_root path.now }
{
    path == "/"
}

fn is_stray(byte: u8) -> bool
    ensures { result ≡ is_stray byte }
{
    byte < 32 || byte == 127 || byte == b'#'
}

fn has_stray(target: &str) -> bool
    ensures { result ≡ list_any is_stray target.now }
{
    target.bytes().any(|byte| is_stray(byte))
}

/// Whether whoever reads the target finds the same segments in its path. A proxy lets a request through by the
/// path that it reads itself, decoded and resolved, so the broker answers no target that it would read otherwise.
pub fn has_one_reading(target: &str) -> bool
    ensures { result ≡ has_one_reading target.now }
{
    let path = path_of(target);
    !has_stray(target) && are_plain(path) && (is_root(path) || !has_empty_segment(path))
}
