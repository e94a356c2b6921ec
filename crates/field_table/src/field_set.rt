ghost use Rattle.std.specs.Prelude.{◌≡◌, ◌==◌, ◌&&◌, ◌||◌, not};
ghost use Rattle.field_table.specs.declared.field.Field.{Field};
ghost use Rattle.field_table.specs.Field.{number};
ghost use Rattle.field_table.specs.FieldSet.{IsEmpty, has, with, without, union, minus};

use crate::field::Field;
use fission_ids::{Duplicate, OutOfMemory};

/// A set of fields: the bit at a field's number tells whether the field is in it.
#[derive(Clone, Copy, Debug, PartialEq, Eq)]
pub struct FieldSet(pub u16);

impl Duplicate for FieldSet {
    fn copy(&self) -> Result<FieldSet, OutOfMemory> {
        Ok(*self)
    }
}

impl FieldSet {
    /// No field.
    pub const EMPTY: FieldSet = FieldSet(0);

    /// Whether the field is in the set.
    pub fn has(self, f: Field) -> bool
        ensures { result ≡ has self f }
    {
        self.0 >> f.number() & 1 == 1
    }

    /// The set with the field in it.
    pub fn with(self, f: Field) -> FieldSet
        ensures whole { result ≡ with self f }
        ensures members { (g : Field) → has result g ≡ (has self g || number g == number f) }
    {
        FieldSet(self.0 | 1 << f.number())
    }

    /// The set without the field.
    pub fn without(self, f: Field) -> FieldSet
        ensures whole { result ≡ without self f }
        ensures members { (g : Field) → has result g ≡ (has self g && not (number g == number f)) }
    {
        FieldSet(self.0 & !(1 << f.number()))
    }

    /// The fields that are in either set.
    pub fn union(self, s: FieldSet) -> FieldSet
        ensures whole { result ≡ union self s }
        ensures members { (g : Field) → has result g ≡ (has self g || has s g) }
    {
        FieldSet(self.0 | s.0)
    }

    /// The fields that are in this set and not in the other.
    pub fn minus(self, s: FieldSet) -> FieldSet
        ensures whole { result ≡ minus self s }
        ensures members { (g : Field) → has result g ≡ (has self g && not (has s g)) }
    {
        FieldSet(self.0 & !s.0)
    }
}

// The empty set has no field.
fn empty_is_empty()
    ensures { IsEmpty FieldSet.EMPTY }
{}
