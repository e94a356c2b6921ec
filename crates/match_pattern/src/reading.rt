ghost use Rattle.std.specs.Prelude.{◌≡◌, ◌≤◌, ◌<◌, ◌^◌, None, Some, length, IfSome};
ghost use Rattle.std.specs.List.{prefix_len};
ghost use Rattle.match_pattern.specs.Reading.{break_behind, fault_of, host_break, is_name_byte};
ghost use Rattle.match_pattern.specs.Reading.{is_path_byte, is_scheme, name_break, named_host_break};
ghost use Rattle.match_pattern.specs.Reading.{path_break};

use crate::fault::PatternFault;
use crate::spelling::{ANY, ANY_UNDER, FILE, SEPARATOR, Spelling, is_all_urls, is_known_scheme};

const LONGEST_NAME: usize = 253;

// The first place that breaks a text, if one does.
pub(crate) fn fault_of(text: &str) -> Option<PatternFault>
    requires { length text.now < 2 ^ 32 }
    ensures { result ≡ fault_of text.now }
{
    if is_all_urls(text) {
        return None;
    }
    let Some(parts) = Spelling::of(text.as_bytes()) else {
        return Some(PatternFault::NoScheme { at: 0 });
    };
    if !is_scheme(parts.scheme) {
        return Some(PatternFault::NoScheme { at: 0 });
    }
    let host_start = parts.scheme.len() + SEPARATOR.len();
    if let Some(at) = host_break(parts.scheme, parts.host) {
        return Some(PatternFault::BadHost {
            at: (host_start + at) as u32,
        });
    }
    let path_start = host_start + parts.host.len();
    match path_break(parts.path) {
        None => None,
        Some(at) => Some(PatternFault::BadPath {
            at: (path_start + at) as u32,
        }),
    }
}

// Whether a pattern may have the scheme.
fn is_scheme(scheme: &[u8]) -> bool
    ensures { result ≡ is_scheme scheme.now }
{
    scheme == ANY || is_known_scheme(scheme)
}

// Where the host of a pattern of this scheme breaks, if it does.
fn host_break(scheme: &[u8], host: &[u8]) -> Option<usize>
    ensures place { result ≡ host_break scheme.now host.now }
    ensures within { IfSome result (λ at. at ≤ length host.now) }
{
    if scheme != FILE {
        named_host_break(host)
    } else if host.is_empty() {
        None
    } else {
        Some(0)
    }
}

// Where a host breaks that isn't of a file, if it does.
fn named_host_break(host: &[u8]) -> Option<usize>
    ensures place { result ≡ named_host_break host.now }
    ensures within { IfSome result (λ at. at ≤ length host.now) }
{
    if host == ANY {
        None
    } else if host.starts_with(ANY_UNDER) {
        Some(name_break(&host[ANY_UNDER.len()..])? + ANY_UNDER.len())
    } else if host.starts_with(ANY) {
        Some(ANY.len())
    } else {
        name_break(host)
    }
}

// Where a name breaks, if it does.
fn name_break(name: &[u8]) -> Option<usize>
    ensures place { result ≡ name_break name.now }
    ensures within { IfSome result (λ at. at ≤ length name.now) }
{
    let most = name.len().min(LONGEST_NAME);
    break_behind(name_len(&name[..most]), name)
}

// Where the path breaks, if it does.
fn path_break(path: &[u8]) -> Option<usize>
    ensures place { result ≡ path_break path.now }
    ensures within { IfSome result (λ at. at ≤ length path.now) }
{
    break_behind(path_len(path), path)
}

// How many bytes in front may stand in a name.
fn name_len(bytes: &[u8]) -> usize
    ensures count { result ≡ prefix_len is_name_byte bytes.now }
    ensures within { result ≤ length bytes.now }
{
    bytes.iter().take_while(|b| is_name_byte(**b)).count()
}

// How many bytes in front may stand in a path.
fn path_len(bytes: &[u8]) -> usize
    ensures count { result ≡ prefix_len is_path_byte bytes.now }
    ensures within { result ≤ length bytes.now }
{
    bytes.iter().take_while(|b| is_path_byte(**b)).count()
}

// Where a part breaks of which only so many bytes in front may stand.
fn break_behind(good: usize, part: &[u8]) -> Option<usize>
    requires { good ≤ length part.now }
    ensures place { result ≡ break_behind good part.now }
    ensures within { IfSome result (λ at. at ≤ length part.now) }
{
    if good > 0 && good == part.len() {
        None
    } else {
        Some(good)
    }
}

// A small letter, a digit, a dot or a dash.
fn is_name_byte(b: u8) -> bool
    ensures { result ≡ is_name_byte b }
{
    b.is_ascii_lowercase() || b.is_ascii_digit() || b == b'.' || b == b'-'
}

// A byte that is printed, and no blank.
fn is_path_byte(b: u8) -> bool
    ensures { result ≡ is_path_byte b }
{
    b.is_ascii_graphic()
}
