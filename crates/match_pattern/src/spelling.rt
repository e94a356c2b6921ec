ghost use Rattle.std.specs.Prelude.{◌≡◌, ◌≤◌, ◌+◌, None, Some, length, IfSome, MatchOption};
ghost use Rattle.std.specs.List.{position_or_len};
ghost use Rattle.match_pattern.specs.Globs.{place_of};
ghost use Rattle.match_pattern.specs.Reading.{all_urls, host_of, is_known_scheme, is_slash};
ghost use Rattle.match_pattern.specs.Reading.{is_web_scheme, path_of, scheme_of, separator};

use crate::glob::find;

const ALL_URLS: &str = "<all_urls>";

pub(crate) const SEPARATOR: &[u8] = b"://";

const HTTP: &[u8] = b"http";

const HTTPS: &[u8] = b"https";

const WS: &[u8] = b"ws";

const WSS: &[u8] = b"wss";

const FTP: &[u8] = b"ftp";

pub(crate) const FILE: &[u8] = b"file";

pub(crate) const ANY: &[u8] = b"*";

pub(crate) const ANY_UNDER: &[u8] = b"*.";

// The parts of a pattern other than `<all_urls>`: what stands before the first `://`, what stands behind it
// up to a slash, and the rest.
#[derive(Clone, Copy)]
pub(crate) struct Spelling<'a> {
    pub scheme: &'a [u8],
    pub host: &'a [u8],
    pub path: &'a [u8],
}

impl<'a> Spelling<'a> {
    // The parts of a text. None exactly where there is no `://`.
    pub fn of(text: &'a [u8]) -> Option<Spelling<'a>>
        ensures scheme_len { MatchOption result (place_of separator text.now ≡ None)
            (λ s. place_of separator text.now ≡ Some (length s.scheme.now)) }
        ensures scheme { IfSome result (λ s. s.scheme.now ≡ scheme_of text.now) }
        ensures host { IfSome result (λ s. s.host.now ≡ host_of text.now) }
        ensures path { IfSome result (λ s. s.path.now ≡ path_of text.now) }
        ensures fits { IfSome result (λ s.
            length s.scheme.now + 3 + length s.host.now + length s.path.now ≡ length text.now) }
    {
        let scheme_len = find(SEPARATOR, text)?;
        let behind = &text[scheme_len + SEPARATOR.len()..];
        let host_len = slash_in(behind);
        Some(Spelling {
            scheme: &text[..scheme_len],
            host: &behind[..host_len],
            path: &behind[host_len..],
        })
    }
}

// Where the first slash stands, or the length where there is none.
fn slash_in(bytes: &[u8]) -> usize
    ensures place { result ≡ position_or_len is_slash bytes.now }
    ensures within { result ≤ length bytes.now }
{
    bytes.iter().take_while(|b| **b != b'/').count()
}

// Whether a text is the pattern that matches each address of a known scheme.
pub(crate) fn is_all_urls(text: &str) -> bool
    ensures { result ≡ all_urls text.now }
{
    text == ALL_URLS
}

// Whether it is a scheme of the web.
pub(crate) fn is_web_scheme(scheme: &[u8]) -> bool
    ensures { result ≡ is_web_scheme scheme.now }
{
    scheme == HTTP || scheme == HTTPS
}

// Whether it is one of the schemes of which `<all_urls>` matches each address.
pub(crate) fn is_known_scheme(scheme: &[u8]) -> bool
    ensures { result ≡ is_known_scheme scheme.now }
{
    is_web_scheme(scheme) || scheme == WS || scheme == WSS || scheme == FTP || scheme == FILE
}
