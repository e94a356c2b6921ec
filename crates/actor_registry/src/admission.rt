ghost use Rattle.std.specs.Prelude.{◌≡◌, ◌≤◌, ◌==◌, bytes_eq, length, nat_eq};
ghost use Rattle.std.specs.List.{list_any, position_or_len, starts_with};
ghost use Rattle.match_pattern.specs.Matching.{is_match};
ghost use Rattle.actor_registry.specs.Admission.{checks, fits_address, fits_group, fits_remote_type};
ghost use Rattle.actor_registry.specs.Admission.{first_failing, remote_prefix};

use crate::entry::Entry;
use fission_ids::{Seq, Text, Why};
use match_pattern::Pattern;
use url::Url;

/// What is known of a window at which an actor is asked for.
#[derive(Clone, Copy, Debug)]
pub struct Facts<'a> {
    /// Whether its context is top-level.
    pub top: bool,
    /// The remote type of its owner.
    pub remote: &'a str,
    /// The message manager group of the top-level context.
    pub group: &'a str,
    /// Its address.
    pub url: &'a Url,
}

impl Entry {
    /// Whether the actor is admitted at a window, and else the first check that fails.
    pub fn admits(&self, facts: &Facts<'_>) -> Result<(), Why>
        ensures { result ≡ first_failing (checks self.now facts.now) }
    {
        if !facts.top && !self.all_frames {
            return Err(Why::Subframe);
        }
        if !fits_remote_type(&self.remote_types, facts.remote) {
            return Err(Why::RemoteType);
        }
        if !fits_group(&self.groups, facts.group) {
            return Err(Why::Group);
        }
        if !fits_address(&self.matches, facts.url) {
            return Err(Why::Address);
        }
        Ok(())
    }
}

// Whether a remote type begins, in front of its first `=`, with one of these, or there are none.
fn fits_remote_type(types: &Seq<Text>, remote: &str) -> bool
    ensures { result ≡ fits_remote_type types.now remote.now }
{
    types.is_empty() || begins_with_any(remote_prefix(remote.as_bytes()), types.as_slice())
}

// What stands before the first `=`, or all where there is none.
fn remote_prefix(remote: &[u8]) -> &[u8]
    ensures { result.now ≡ remote_prefix remote.now }
{
    &remote[..mark_in(remote)]
}

// Where the first `=` stands, or the length where there is none.
fn mark_in(bytes: &[u8]) -> usize
    ensures place { result ≡ position_or_len (λ b. b == 61) bytes.now }
    ensures within { result ≤ length bytes.now }
{
    bytes.iter().take_while(|b| **b != b'=').count()
}

// Whether the bytes begin with one of these texts.
fn begins_with_any(bytes: &[u8], texts: &[Text]) -> bool
    ensures { result ≡ list_any (λ text. starts_with nat_eq bytes.now text) texts.now }
{
    texts.iter().any(|text| begins_with(bytes, text))
}

// Whether the bytes begin with a text.
fn begins_with(bytes: &[u8], text: &Text) -> bool
    ensures { result ≡ starts_with nat_eq bytes.now text.now }
{
    bytes.starts_with(text.as_str().as_bytes())
}

// Whether a group is one of these, or there are none.
fn fits_group(groups: &Seq<Text>, group: &str) -> bool
    ensures { result ≡ fits_group groups.now group.now }
{
    groups.is_empty() || is_any_of(groups.as_slice(), group)
}

// Whether a text is one of these.
fn is_any_of(texts: &[Text], wanted: &str) -> bool
    ensures { result ≡ list_any (λ text. bytes_eq text wanted.now) texts.now }
{
    texts.iter().any(|text| is_text(text, wanted))
}

// Whether a text is this one.
fn is_text(text: &Text, wanted: &str) -> bool
    ensures { result ≡ bytes_eq text.now wanted.now }
{
    text.as_str() == wanted
}

// Whether one of these patterns matches an address, or there are none.
fn fits_address(patterns: &Seq<Pattern>, url: &Url) -> bool
    ensures { result ≡ fits_address patterns.now url.now }
{
    patterns.is_empty() || matches_any(patterns.as_slice(), url)
}

// Whether one of these patterns matches an address.
fn matches_any(patterns: &[Pattern], url: &Url) -> bool
    ensures { result ≡ list_any (λ pattern. is_match pattern url.now) patterns.now }
{
    patterns.iter().any(|pattern| pattern.matches(url))
}
