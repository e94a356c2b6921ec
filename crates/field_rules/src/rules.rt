ghost use Rattle.std.specs.Prelude.{◌≡◌, ◌↔◌, ◌<◌, ◌≤◌, true, false, IsTrue};
ghost use Rattle.field_table.specs.declared.verdict.Verdict.TheVariants.{Deny};
ghost use Rattle.field_table.specs.Field.{kind};
ghost use Rattle.field_table.specs.Value.{is_of};
ghost use Rattle.field_rules.specs.Bounds.{IsCallableOnZooms, AnswersWithin, is_within, range, no_bounds};
ghost use Rattle.field_rules.specs.RuleBounds.{bounds_of};
ghost use Rattle.field_rules.specs.Rules.{question_of, range_of, zoom_of, bounds_with, rule, row};
ghost use Rattle.field_rules.specs.Rules.{is_denied, verdict};

use crate::ask::{Ask, denied, number_in};
use crate::custom::Custom;
use crate::rule::{Rule, Zoom};
use field_table::Verdict;

/// The rule functions of the caller, at most one for each zoom, each with the numbers from 30 to 500 that it
/// allows. Clauses see the bounds of the two (`bounds_of`).
#[derive(Drop)]
pub struct Rules {
    full: Option<Custom>,
    text: Option<Custom>,
}

impl Rules {
    /// No function is stored: whatever only a function could allow is reverted.
    pub fn new() -> Rules
        ensures { bounds_of result ≡ no_bounds }
    {
        Rules {
            full: None,
            text: None,
        }
    }

    /// The rules with this function for the zoom of a row, 0 for the whole page and 1 for its text. It may be
    /// called on each number from 30 to 500, and there it answers Allow from `low` to `high`, else Revert. A
    /// row that has a function gets this one in its place, and the other row stays.
    pub fn with_custom(self, row: u8, low: u64, high: u64, f: fn(u64) -> Verdict) -> Rules
        requires row { row < 2 }
        requires callable { IsCallableOnZooms (λ n. pre f n) }
        requires by_range { AnswersWithin (range low high) (λ n v. post f n v) }
        ensures { bounds_of result ≡ bounds_with (zoom_of row) (range low high) (bounds_of self) }
    {
        let custom = Some(Custom {
            low,
            high,
            answer: f,
        });
        if row == 0 {
            Rules {
                full: custom,
                ..self
            }
        } else {
            Rules {
                text: custom,
                ..self
            }
        }
    }

    /// The verdict of the table on a write, whose value is of the field's kind. Deny exactly where `denied`.
    pub fn judge(&self, ask: &Ask) -> Verdict
        requires { is_of (kind ask.now.field) ask.now.value.now ≡ true }
        ensures table { result ≡ verdict (bounds_of self.now) (question_of ask.now) }
        ensures deny { IsTrue (is_denied (question_of ask.now)) ↔ (result ≡ Deny) }
    {
        if denied(ask) {
            Verdict::Deny
        } else if self.allows(ask) {
            Verdict::Allow
        } else {
            Verdict::Revert
        }
    }

    // Whether the rule of the field allows a write that isn't denied.
    #[tactic(auto, unfolding(crate::specs::Rules::row))]
    fn allows(&self, ask: &Ask) -> bool
        requires kind { is_of (kind ask.now.field) ask.now.value.now ≡ true }
        requires not_denied { is_denied (question_of ask.now) ≡ false }
        ensures { result ≡ (row (rule ask.now.field)).allows (bounds_of self.now) (question_of ask.now) }
    {
        match Rule::of(ask.field) {
            Rule::Any | Rule::ParentOnly | Rule::TopOnly => true,
            Rule::OwnerElseRevert => ask.from.is_none() || ask.owner_is_sender,
            Rule::Window => !ask.has_window() || ask.has_open_window() && ask.owner_is_sender,
            Rule::Custom(zoom) => {
                ask.from.is_none()
                    || ask.owner_is_sender
                    || self.allows_zoom(zoom, number_in(ask.value))
            }
        }
    }

    // Whether a zoom's function allows a number.
    fn allows_zoom(&self, zoom: Zoom, n: u64) -> bool
        requires low { 30 ≤ n }
        requires high { n ≤ 500 }
        ensures { result ≡ is_within (range_of zoom (bounds_of self.now)) n }
    {
        let custom = match zoom {
            Zoom::Full => &self.full,
            Zoom::Text => &self.text,
        };
        match custom {
            Some(custom) => custom.allows(n),
            None => false,
        }
    }
}
