ghost use Rattle.std.specs.Prelude.{◌≡◌};
ghost use Rattle.field_rules.specs.Bounds.{range, no_number, verdict_within};

use field_table::Verdict;

/// What the programs answer for the zoom of a whole page that another process than the owner sets: from 50 to
/// 300 it's allowed.
pub fn full_zoom(n: u64) -> Verdict
    ensures { result ≡ verdict_within (range 50 300) n }
{
    if (50..=300).contains(&n) {
        Verdict::Allow
    } else {
        Verdict::Revert
    }
}

/// What the programs answer for the zoom of a page's text that another process than the owner sets: never is
/// it allowed.
pub fn text_zoom(_n: u64) -> Verdict
    ensures { result ≡ verdict_within no_number _n }
{
    Verdict::Revert
}
