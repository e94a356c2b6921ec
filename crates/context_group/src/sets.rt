ghost use Rattle.std.specs.Prelude.{◌≡◌};
ghost use Rattle.fission_ids.specs.ProcSet.{has};
ghost use Rattle.context_group.specs.Sets.{has_any, set_without, union};

use fission_ids::{ProcId, ProcSet};

// Whether p is in the set. No number from 16 on is.
pub(crate) fn is_in(set: ProcSet, p: ProcId) -> bool
    ensures { result ≡ has set p.0 }
{
    p.0 < 16 && set.has(p)
}

// Whether some process is in the set.
pub(crate) fn is_any_in(set: ProcSet) -> bool
    ensures { result ≡ has_any set }
{
    set.0 != 0
}

// The set without p, which need not be in it.
pub(crate) fn without(set: ProcSet, p: ProcId) -> ProcSet
    ensures { result ≡ set_without p.0 set }
{
    if is_in(set, p) { set.without(p) } else { set }
}

// The processes of both sets.
pub(crate) fn union(set: ProcSet, other: ProcSet) -> ProcSet
    ensures { result ≡ union set other }
{
    ProcSet(set.0 | other.0)
}
