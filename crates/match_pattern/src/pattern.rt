ghost use Rattle.std.specs.Prelude.{◌≡◌, ◌<◌, ◌^◌, None, length, IfOk, IsOkUnless, MatchOption};
ghost use Rattle.match_pattern.specs.Matching.{is_match};
ghost use Rattle.match_pattern.specs.Reading.{fault_of};

use crate::fault::PatternFault;
use crate::matching::is_match;
use crate::reading::fault_of;
use fission_ids::{Duplicate, OutOfMemory, Text};
use std::alloc::Global;
use std::marker::Model;
use url::Url;

/// A pattern that addresses match or don't. Seen as the text that was read.
#[derive(Debug, Drop)]
pub struct Pattern {
    text: Text,
}

impl Model for Pattern {
    ghost use Rattle.std.specs.Prelude.{◌≡◌, List, None, ℕ};
    ghost use Rattle.match_pattern.specs.Reading.{fault_of};

    ghost Value = { List ℕ };

    ghost view = { λ p. p.text };

    ghost invariant = { λ p. fault_of p.text ≡ None };
}

impl Pattern {
    /// Reads a pattern. A fault comes exactly where the text isn't one, and tells the first place that breaks
    /// it, whether or not there is memory.
    pub fn read(alloc: Global, text: &str) -> Result<Pattern, PatternFault>
        requires { length text.now < 2 ^ 32 }
        ensures refused { MatchOption (fault_of text.now) (IsOkUnless result PatternFault.OutOfMemory)
            (λ fault. result ≡ Err fault) }
        ensures text { IfOk result (λ pattern. pattern ≡ text.now) }
    {
        if let Some(fault) = fault_of(text) {
            return Err(fault);
        }
        Ok(Pattern {
            text: Text::of(alloc, text)?,
        })
    }

    /// The text that was read.
    pub fn text(&self) -> &str
        ensures text { result.now ≡ self.now }
        ensures sound { fault_of self.now ≡ None }
    {
        self.text.as_str()
    }

    /// Whether an address matches. The time is at worst the length of the pattern times that of the address.
    pub fn matches(&self, u: &Url) -> bool
        ensures { result ≡ is_match self.now u.now }
    {
        is_match(self.text(), u)
    }
}

impl Duplicate for Pattern {
    fn copy(&self) -> Result<Pattern, OutOfMemory> {
        Ok(Pattern {
            text: self.text.copy()?,
        })
    }
}
