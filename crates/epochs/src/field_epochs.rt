ghost use Rattle.std.specs.Prelude.{◌≡◌, ◌&&◌, length, nat_lt, if◌then◌else◌};
ghost use Rattle.field_table.specs.declared.field.Field.{Field};
ghost use Rattle.field_table.specs.Field.{fields};
ghost use Rattle.field_table.specs.FieldSet.{has};
ghost use Rattle.epochs.specs.FieldEpochs.{epoch_of, no_epochs, epochs_after, obsolete_in};

use field_table::{Field, FieldSet};
use fission_ids::{Duplicate, Epoch, OutOfMemory};
use std::marker::Model;

/// The epoch of a process's last write to each field of a context, 0 where it wrote none. Seen as the list of
/// these epochs by the fields' numbers.
#[derive(Debug, Drop)]
pub struct FieldEpochs {
    epochs: [Epoch; 16],
}

impl Model for FieldEpochs {
    ghost use Rattle.epochs.specs.FieldEpochs.{Epochs};

    ghost Value = { Epochs };

    ghost view = { λ f. f.epochs };
}

impl FieldEpochs {
    /// No field was written.
    pub fn new() -> FieldEpochs
        ensures { result ≡ no_epochs }
    {
        FieldEpochs {
            epochs: [Epoch(0); 16],
        }
    }

    /// Gives each field of the set the epoch. The other fields keep theirs.
    pub fn mark(&mut self, s: FieldSet, e: Epoch)
        ensures whole { self.new ≡ epochs_after s e self.old }
        ensures epochs { (f : Field) → epoch_of self.new f ≡ (if has s f then e else epoch_of self.old f) }
    {
        mark_in(&mut self.epochs, s, e);
    }

    /// The fields of the set whose epoch is greater than this one.
    pub fn obsolete(&self, s: FieldSet, e: Epoch) -> FieldSet
        ensures whole { result ≡ obsolete_in s e self.now }
        ensures members { (f : Field) → has result f ≡ (has s f && nat_lt e.0 (epoch_of self.now f).0) }
    {
        let mut obsolete = FieldSet::EMPTY;
        for f in Field::ALL {
            if s.has(f) && self.is_newer(f, e) {
                obsolete = obsolete.with(f);
            }
        }
        obsolete
    }

    // Whether the field's epoch is greater than this one.
    fn is_newer(&self, f: Field, e: Epoch) -> bool
        ensures { result ≡ nat_lt e.0 (epoch_of self.now f).0 }
    {
        self.epochs[f.number()] > e
    }
}

impl Duplicate for FieldEpochs {
    fn copy(&self) -> Result<FieldEpochs, OutOfMemory> {
        Ok(FieldEpochs {
            epochs: self.epochs,
        })
    }
}

fn mark_in(epochs: &mut [Epoch], s: FieldSet, e: Epoch)
    requires { length epochs.old ≡ length fields }
    ensures { epochs.new ≡ epochs_after s e epochs.old }
{
    for f in Field::ALL {
        if s.has(f) {
            epochs[f.number()] = e;
        }
    }
}
