ghost use Rattle.std.specs.Prelude.{◌≡◌, ◌++◌, None};
ghost use Rattle.match_pattern.specs.Matching.{fits_host, fits_parts, fits_scheme, host_printed, is_match};
ghost use Rattle.match_pattern.specs.Matching.{query_printed};
ghost use Rattle.match_pattern.specs.Reading.{fault_of};

use crate::glob::globs;
use crate::spelling::{ANY, ANY_UNDER, Spelling, is_all_urls, is_known_scheme, is_web_scheme};
use url::{Position, Url};

// Whether the text of a pattern matches an address.
pub(crate) fn is_match(pattern: &str, u: &Url) -> bool
    requires { fault_of pattern.now ≡ None }
    ensures { result ≡ is_match pattern.now u.now }
{
    if is_all_urls(pattern) {
        return is_known_scheme(u.scheme().as_bytes());
    }
    let Some(parts) = Spelling::of(pattern.as_bytes()) else {
        unreachable!()
    };
    fits_parts(&parts, u)
}

// Whether an address fits the parts of a pattern.
fn fits_parts(parts: &Spelling<'_>, u: &Url) -> bool
    ensures { result ≡ fits_parts parts.now.scheme.now parts.now.host.now parts.now.path.now u.now }
{
    fits_scheme(parts.scheme, u.scheme().as_bytes())
        && fits_host(parts.host, host_of(u))
        && globs(parts.path, path_and_query(u))
}

// The host as it is printed, empty where there is none.
fn host_of(u: &Url) -> &[u8]
    ensures { result.now ≡ host_printed u.now }
{
    u.host_str().unwrap_or("").as_bytes()
}

// The path, and the query with its mark where there is one.
fn path_and_query(u: &Url) -> &[u8]
    ensures { result.now ≡ u.now.path ++ query_printed u.now.query }
{
    u.slice(Position::BeforePath, Position::AfterQuery)
        .as_bytes()
}

// Whether a scheme is that of a pattern.
fn fits_scheme(wanted: &[u8], scheme: &[u8]) -> bool
    ensures { result ≡ fits_scheme wanted.now scheme.now }
{
    if wanted == ANY {
        is_web_scheme(scheme)
    } else {
        scheme == wanted
    }
}

// Whether a host fits that of a pattern.
fn fits_host(wanted: &[u8], host: &[u8]) -> bool
    ensures { result ≡ fits_host wanted.now host.now }
{
    if wanted.is_empty() || wanted == ANY {
        true
    } else if wanted.starts_with(ANY_UNDER) {
        host == &wanted[2..] || host.ends_with(&wanted[1..])
    } else {
        host == wanted
    }
}
