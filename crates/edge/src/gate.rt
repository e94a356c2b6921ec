/// What stands round each turn of a round: 0 is the parent, and p + 1 the process p.
pub trait Gate {
    /// Is called before all that the turn of `who` does.
    fn enter(&self, who: u8);

    /// Is called after all that the turn of `who` does.
    fn leave(&self, who: u8);
}

/// The gate that returns at once.
#[derive(Clone, Copy, Debug, Default)]
pub struct NoGate;

impl Gate for NoGate {
    fn enter(&self, _who: u8) {}

    fn leave(&self, _who: u8) {}
}
