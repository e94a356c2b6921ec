ghost use Rattle.std.specs.Prelude.{◌≡◌, length, nat_lt};
ghost use Rattle.field_table.specs.Field.{fields};
ghost use Rattle.epochs.specs.FieldEpochs.{epoch_of, no_epochs, epochs_after, obsolete_in};
ghost use Rattle.context_store.specs.Marked.{numbers_after};

use field_table::{Field, FieldSet};
use fission_ids::{Duplicate, Epoch, OutOfMemory};
use std::marker::Model;

// The epochs of a context's fields: a number for each field, of which those count that are under the mask.
// The epoch of another field is 0. Seen as the list of the epochs by the fields' numbers.
#[derive(Debug, Drop)]
pub(crate) struct Marked {
    mask: FieldSet,
    numbers: [u64; 16],
}

impl Model for Marked {
    ghost use Rattle.epochs.specs.FieldEpochs.{Epochs};
    ghost use Rattle.context_store.specs.Marked.{epochs_under};

    ghost Value = { Epochs };

    ghost view = { λ m. epochs_under m.mask m.numbers };
}

impl Marked {
    // No field was written.
    pub(crate) fn new() -> Marked
        ensures { result ≡ no_epochs }
    {
        Marked {
            mask: FieldSet::EMPTY,
            numbers: [0; 16],
        }
    }

    // Gives each field of the set the epoch. The other fields keep theirs.
    pub(crate) fn mark(&mut self, s: FieldSet, e: Epoch)
        ensures { self.new ≡ epochs_after s e self.old }
    {
        renumber(&mut self.numbers, s, e.0);
        self.mask = self.mask.union(s);
    }

    // The fields of the set whose epoch is greater than this one.
    pub(crate) fn obsolete(&self, s: FieldSet, e: Epoch) -> FieldSet
        ensures { result ≡ obsolete_in s e self.now }
    {
        let mut obsolete = FieldSet::EMPTY;
        for f in Field::ALL {
            if s.has(f) && self.is_newer(f, e) {
                obsolete = obsolete.with(f);
            }
        }
        obsolete
    }

    // Whether the field's epoch is greater than this one.
    fn is_newer(&self, f: Field, e: Epoch) -> bool
        ensures { result ≡ nat_lt e.0 (epoch_of self.now f).0 }
    {
        self.mask.has(f) && self.numbers[f.number()] > e.0
    }
}

impl Duplicate for Marked {
    fn copy(&self) -> Result<Marked, OutOfMemory> {
        Ok(Marked {
            mask: self.mask,
            numbers: self.numbers,
        })
    }
}

// Each field of the set gets the number.
fn renumber(numbers: &mut [u64], s: FieldSet, n: u64)
    requires { length numbers.old ≡ length fields }
    ensures { numbers.new ≡ numbers_after s n numbers.old }
{
    for f in Field::ALL {
        if s.has(f) {
            numbers[f.number()] = n;
        }
    }
}
