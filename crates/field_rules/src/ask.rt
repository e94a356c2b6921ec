ghost use Rattle.std.specs.Prelude.{◌≡◌, true};
ghost use Rattle.field_table.specs.Field.{kind};
ghost use Rattle.field_table.specs.Value.{is_of, is_number};
ghost use Rattle.field_rules.specs.Bounds.{is_within, zooms};
ghost use Rattle.field_rules.specs.Rules.{question_of, number_in, has_window};
ghost use Rattle.field_rules.specs.Rules.{has_open_window, is_made_here, is_denied};

use crate::rule::Rule;
use field_table::{Field, Value};
use fission_ids::{ContextId, ProcId};

/// What is known of the window that a write names.
#[derive(Clone, Copy, Debug, PartialEq, Eq)]
pub struct WindowFact {
    /// The context that it was made for.
    pub made_for: ContextId,
    /// Whether it is open now.
    pub is_open: bool,
}

/// A write of one field, and what its verdict rests on.
#[derive(Clone, Copy, Debug)]
pub struct Ask<'a> {
    /// The field that is written.
    pub field: Field,
    /// The value that is written, of the field's kind.
    pub value: &'a Value,
    /// The context whose field it is.
    pub context: ContextId,
    /// Whether the context is top-level, and no frame.
    pub top: bool,
    /// What is known of the window that the value names. None where nothing is, or it names none.
    pub window: Option<WindowFact>,
    /// The process that writes. None is the parent.
    pub from: Option<ProcId>,
    /// Whether the process that writes owns the context.
    pub owner_is_sender: bool,
}

impl Ask<'_> {
    // Whether the value names a window, which 0 doesn't.
    pub(crate) fn has_window(&self) -> bool
        requires { is_number self.now.value.now ≡ true }
        ensures { result ≡ has_window (question_of self.now) }
    {
        number_in(self.value) != 0
    }

    // Whether the window is known and was made for this context.
    fn is_made_here(&self) -> bool
        ensures { result ≡ is_made_here (question_of self.now) }
    {
        match self.window {
            Some(fact) => self.context == fact.made_for,
            None => false,
        }
    }

    // Whether the window is known and open.
    pub(crate) fn has_open_window(&self) -> bool
        ensures { result ≡ has_open_window (question_of self.now) }
    {
        self.window.is_some_and(|fact| fact.is_open)
    }
}

/// Whether the facts that don't change deny a write. A process asks it before it sends a write, and the
/// parent answers the same. The value is of the field's kind.
#[tactic(auto, unfolding(crate::specs::Rules::row))]
pub fn denied(ask: &Ask) -> bool
    requires { is_of (kind ask.now.field) ask.now.value.now ≡ true }
    ensures { result ≡ is_denied (question_of ask.now) }
{
    match Rule::of(ask.field) {
        Rule::Any | Rule::OwnerElseRevert => false,
        Rule::ParentOnly => ask.from.is_some(),
        Rule::TopOnly => !ask.top,
        Rule::Window => ask.has_window() && (ask.from.is_none() || !ask.is_made_here()),
        Rule::Custom(_) => !ask.top || !is_zoom(number_in(ask.value)),
    }
}

// The number that a value is.
pub(crate) fn number_in(value: &Value) -> u64
    requires { is_number value.now ≡ true }
    ensures { result ≡ number_in value.now }
{
    match value {
        Value::Number(n) => *n,
        Value::Flag(_) | Value::Words(_) => unreachable!(),
    }
}

// Whether a number is a zoom of which a rule function is asked.
fn is_zoom(n: u64) -> bool
    ensures { result ≡ is_within zooms n }
{
    (30..=500).contains(&n)
}
