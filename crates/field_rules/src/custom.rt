ghost use Rattle.std.specs.Prelude.{◌≡◌, ◌≤◌};
ghost use Rattle.field_rules.specs.Bounds.{IsCallableOnZooms, AnswersWithin, is_within, range};

use field_table::Verdict;

// A function of the caller, and the numbers from 30 to 500 that it allows.
#[derive(Drop)]
pub(crate) struct Custom {
    pub(crate) low: u64,
    pub(crate) high: u64,
    pub(crate) answer: fn(u64) -> Verdict,
    ghost callable: { IsCallableOnZooms (λ n. pre answer n) },
    ghost by_range: { AnswersWithin (range low high) (λ n v. post answer n v) },
}

impl Custom {
    // Whether the function allows a number.
    pub(crate) fn allows(&self, n: u64) -> bool
        requires low { 30 ≤ n }
        requires high { n ≤ 500 }
        ensures { result ≡ is_within (range self.now.low self.now.high) n }
    {
        (self.answer)(n) == Verdict::Allow
    }
}
