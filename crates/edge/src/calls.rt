ghost use Rattle.std.specs.Prelude.{◌≡◌, ◌≤◌};
ghost use Rattle.edge.specs.Causes.{one_more};
ghost use Rattle.edge.specs.Memory.{is_due};

use std::marker::Model;

/// Which calls are to fail, and how many were made and how many faults answered.
#[derive(Debug, Drop)]
pub(crate) struct Calls {
    fails: Vec<u64>,
    made: u64,
    faults: u64,
}

impl Model for Calls {
    ghost use Rattle.edge.specs.Memory.{Tally};

    ghost Value = { Tally };

    ghost view = { λ c. record { fails = c.fails.items; calls = c.made; faults = c.faults } };
}

impl Calls {
    pub(crate) fn new(fails: Vec<u64>) -> Calls
        ensures { result ≡ record { fails = fails.items; calls = 0; faults = 0 } }
    {
        Calls {
            fails,
            made: 0,
            faults: 0,
        }
    }

    /// Counts one more call, and says whether it is to fail. A call past the type's end has no
    /// number, and does not fail.
    pub(crate) fn begin(&mut self) -> bool
        ensures due { result ≡ is_due self.old }
        ensures counted { self.new ≡ record self.old { calls = one_more self.old.calls } }
    {
        if self.made == u64::MAX {
            return false;
        }
        self.made += 1;
        self.fails.contains(&self.made)
    }

    /// Counts one more fault.
    pub(crate) fn fail(&mut self)
        ensures counted { self.new ≡ record self.old { faults = one_more self.old.faults } }
        ensures later { self.old.faults ≤ self.new.faults }
    {
        self.faults = self.faults.saturating_add(1);
    }
}
