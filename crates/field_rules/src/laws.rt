ghost use Rattle.std.specs.Prelude.{◌≡◌, ◌≢◌, true, false, None, IsSome};
ghost use Rattle.field_table.specs.declared.verdict.Verdict.TheVariants.{Allow, Deny, Revert};
ghost use Rattle.field_rules.specs.declared.rule.Zoom.{Zoom};
ghost use Rattle.field_rules.specs.declared.rule.Rule.TheVariants.{Any, Window, Custom};
ghost use Rattle.field_rules.specs.Bounds.{Bounds, verdict_within};
ghost use Rattle.field_rules.specs.Rules.{Question, SameFixedFacts, number_in, range_of, rule};
ghost use Rattle.field_rules.specs.Rules.{is_denied, verdict};
ghost use Rattle.field_rules.specs.WorkedRows.{WorkedRowsHold};

/// Two writes that differ at most in the owner, in the bounds and in whether the window is open are both
/// denied or neither.
pub fn denials_rest_on_fixed_facts()
    ensures denied { (q r : Question) → SameFixedFacts q r → is_denied q ≡ is_denied r }
    ensures verdict { (b c : Bounds) (q r : Question) → SameFixedFacts q r →
        verdict b q ≡ Deny → verdict c r ≡ Deny }
{}

/// Every write of a field that all may write is allowed.
pub fn any_is_allowed()
    ensures { (b : Bounds) (q : Question) → rule q.field ≡ Any → verdict b q ≡ Allow }
{}

/// Every write of no window is allowed.
pub fn no_window_is_allowed()
    ensures { (b : Bounds) (q : Question) →
        rule q.field ≡ Window → number_in q.value ≡ 0 → verdict b q ≡ Allow }
{}

/// No write of the parent is reverted.
pub fn parent_is_never_reverted()
    ensures { (b : Bounds) (q : Question) → q.from ≡ None → verdict b q ≢ Revert }
{}

/// A zoom that isn't denied is allowed to a process that owns the context, and to another process exactly
/// where it is within the zoom's bounds.
pub fn bounds_judge_the_zooms_of_others()
    ensures owner { (b : Bounds) (q : Question) (z : Zoom) → rule q.field ≡ Custom z → is_denied q ≡ false →
        q.owner_is_sender ≡ true → verdict b q ≡ Allow }
    ensures others { (b : Bounds) (q : Question) (z : Zoom) → rule q.field ≡ Custom z → is_denied q ≡ false →
        IsSome q.from → q.owner_is_sender ≡ false →
        verdict b q ≡ verdict_within (range_of z b) (number_in q.value) }
{}

/// The bounds judge nothing but zooms.
pub fn bounds_judge_zooms_alone()
    ensures { (b c : Bounds) (q : Question) → ((z : Zoom) → rule q.field ≢ Custom z) →
        verdict b q ≡ verdict c q }
{}

/// The table gives the verdicts that were worked by hand.
pub fn worked_rows()
    ensures { WorkedRowsHold }
{}
