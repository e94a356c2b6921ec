ghost use Rattle.std.specs.Prelude.{◌≡◌, [], IfOk, bytes_eq, string_bytes};
ghost use Rattle.std.specs.Cmp.{partial_equiv_from_equiv};
ghost use Rattle.std.specs.Cmp.Lexicographic.{nat_list_eq_equiv};

use crate::memory::{Duplicate, OutOfMemory};
use std::alloc::Global;
use std::marker::Model;
use std::sync::ArcStr;

/// A text that doesn't change, seen as its bytes of UTF-8. Its copies share it.
#[derive(Debug, Drop)]
pub struct Text {
    // None is the text of no characters, which takes no memory.
    text: Option<ArcStr>,
}

impl Model for Text {
    ghost use Rattle.std.specs.Prelude.{List, ℕ};
    ghost use Rattle.fission_ids.specs.Sharing.{shared_bytes};

    ghost Value = { List ℕ };

    ghost view = { λ t. shared_bytes t.text };
}

impl Text {
    /// The text of no characters. It takes no memory.
    pub fn empty() -> Text
        ensures { result ≡ [] }
    {
        Text { text: None }
    }

    /// A text of these characters.
    pub fn of(alloc: Global, s: &str) -> Result<Text, OutOfMemory>
        ensures { IfOk result (λ t. t ≡ s.now) }
    {
        Ok(Text {
            text: Some(ArcStr::from_str(alloc, s)?),
        })
    }

    // The text in a string.
    pub(crate) fn from_string(text: String) -> Result<Text, OutOfMemory>
        ensures { IfOk result (λ t. t ≡ string_bytes text) }
    {
        Ok(Text {
            text: Some(ArcStr::from_string(text)?),
        })
    }

    /// The characters.
    pub fn as_str(&self) -> &str
        ensures { result.now ≡ self.now }
    {
        match &self.text {
            None => "",
            Some(text) => text.as_str(),
        }
    }
}

impl Duplicate for Text {
    fn copy(&self) -> Result<Text, OutOfMemory> {
        match &self.text {
            None => Ok(Text { text: None }),
            Some(text) => Ok(Text {
                text: Some(text.clone()?),
            }),
        }
    }
}

// Two texts are equal exactly where their bytes are.
impl PartialEq for Text {
    ghost eq = { bytes_eq };

    ghost laws = { partial_equiv_from_equiv nat_list_eq_equiv };

    fn eq(&self, other: &Text) -> bool {
        self.as_str() == other.as_str()
    }
}

impl Eq for Text {
    ghost laws = { nat_list_eq_equiv };
}
