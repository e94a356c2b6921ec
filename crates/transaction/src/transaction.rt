ghost use Rattle.std.specs.Prelude.{◌≡◌, ◌==◌, ◌≤◌, ◌||◌, ◌&&◌, not, Some, None, true, false, IfSome, length};
ghost use Rattle.std.specs.Prelude.{OnOk, IsTrue, IsSome, is_some, slice_set, unwrap_or, if◌then◌else◌};
ghost use Rattle.std.specs.Option.{option_copied};
ghost use Rattle.field_table.specs.declared.field.Field.{Field};
ghost use Rattle.field_table.specs.Field.{number, kind, fields as all_fields};
ghost use Rattle.field_table.specs.FieldSet.{has};
ghost use Rattle.field_table.specs.Table.{value_in};
ghost use Rattle.field_table.specs.Value.{is_of};
ghost use Rattle.transaction.specs.Transaction.{AreOfKind, nothing, new_value, table_after, modified_in};
ghost use Rattle.transaction.specs.Transaction.{changes_in, allowed_by};

use field_table::{Field, FieldSet, Fields, Value};
use fission_ids::{Duplicate, OutOfMemory};
use std::marker::Model;

/// A transaction that was judged: what is taken, and the fields that aren't.
#[derive(Debug, Drop)]
pub struct Split {
    /// The modified fields that are in neither set, with their new values.
    pub allowed: Transaction,
    /// The fields whose present values go back.
    pub reverted: FieldSet,
    /// The fields that nobody may write so.
    pub denied: FieldSet,
}

impl Duplicate for Split {
    fn copy(&self) -> Result<Split, OutOfMemory> {
        Ok(Split {
            allowed: self.allowed.copy()?,
            reverted: self.reverted,
            denied: self.denied,
        })
    }
}

/// New values for some fields, committed as one, each of its field's kind. Seen as a list by the fields'
/// numbers: the new value of each field that is modified.
#[derive(Debug, Drop)]
pub struct Transaction {
    values: [Option<Value>; 16],
}

impl Model for Transaction {
    ghost use Rattle.transaction.specs.Transaction.{Changes, IsChanges};

    ghost Value = { Changes };

    ghost view = { λ t. t.values };

    ghost invariant = { λ t. IsChanges t.values };
}

impl Transaction {
    /// A transaction that modifies nothing.
    pub fn new() -> Transaction
        ensures { result ≡ nothing }
    {
        Transaction {
            values: [
                None, None, None, None, None, None, None, None, None, None, None, None, None, None,
                None, None,
            ],
        }
    }

    /// There is a new value, or none, for each field.
    pub fn covers_each_field(&self)
        ensures { length self.now ≡ length all_fields }
    {
        let _ = &self.values;
    }

    /// Modifies a field. A later value wins.
    pub fn set(&mut self, f: Field, v: Value)
        requires { is_of (kind f) v ≡ true }
        ensures whole { self.new ≡ slice_set self.old (number f) (Some v) }
        ensures values { (g : Field) →
            new_value self.new g ≡ (if number g == number f then Some v else new_value self.old g) }
    {
        self.values[f.number()] = Some(v);
    }

    /// The new value of a field, which is of the field's kind, or None where it isn't modified.
    pub fn value(&self, f: Field) -> Option<&Value>
        ensures value { option_copied result ≡ new_value self.now f }
        ensures kind { IfSome result (λ v. is_of (kind f) v.now ≡ true) }
    {
        self.values[f.number()].as_ref()
    }

    /// The fields that are modified.
    pub fn modified(&self) -> FieldSet
        ensures whole { result ≡ modified_in self.now }
        ensures members { (f : Field) → has result f ≡ is_some (new_value self.now f) }
    {
        let mut modified = FieldSet::EMPTY;
        for f in Field::ALL {
            if self.is_modified(f) {
                modified = modified.with(f);
            }
        }
        modified
    }

    // The fields that are modified and in neither set.
    fn modified_beside(&self, reverted: FieldSet, denied: FieldSet) -> FieldSet
        ensures { (f : Field) → has result f ≡
            (is_some (new_value self.now f) && not (has reverted f || has denied f)) }
    {
        self.modified().minus(reverted.union(denied))
    }

    // Whether the field is modified.
    fn is_modified(&self, f: Field) -> bool
        ensures { result ≡ is_some (new_value self.now f) }
    {
        self.values[f.number()].is_some()
    }

    /// Leaves what is modified and in the set. The other fields aren't modified any more.
    pub fn keep(&mut self, s: FieldSet)
        ensures whole { self.new ≡ changes_in s self.old }
        ensures values { (f : Field) →
            new_value self.new f ≡ (if has s f then new_value self.old f else None) }
    {
        keep_in(&mut self.values, s);
    }

    /// Takes the fields of two sets out. The sets are disjoint, and all their fields are modified.
    pub fn split(self, reverted: FieldSet, denied: FieldSet) -> Split
        requires disjoint { (f : Field) → (has reverted f && has denied f) ≡ false }
        requires modified { (f : Field) → IsTrue (has reverted f || has denied f) →
            IsSome (new_value self f) }
        ensures whole { result ≡ record {
          allowed = allowed_by reverted denied self;
          reverted = reverted;
          denied = denied;
        } }
        ensures values { (f : Field) →
            new_value result.allowed f ≡ (if has reverted f || has denied f then None else new_value self f) }
        ensures parts { (f : Field) →
            is_some (new_value self f) ≡ (is_some (new_value result.allowed f) || has reverted f ||
            has denied f) }
    {
        let left = self.modified_beside(reverted, denied);
        let mut allowed = self;
        allowed.keep(left);
        Split {
            allowed,
            reverted,
            denied,
        }
    }

    /// Gives the modified fields their new values. The others stay.
    pub fn apply(self, fields: &mut Fields)
        ensures whole { fields.new ≡ table_after self fields.old }
        ensures values { (f : Field) →
            value_in fields.new f ≡ unwrap_or (new_value self f) (value_in fields.old f) }
    {
        fields.covers_each_field();
        let Transaction { mut values } = self;
        put_in(&mut values, fields);
    }
}

impl Duplicate for Transaction {
    fn copy(&self) -> Result<Transaction, OutOfMemory> {
        let Transaction { mut values } = Transaction::new();
        copy_into(&self.values, &mut values)?;
        Ok(Transaction { values })
    }
}

fn copy_into(values: &[Option<Value>], copies: &mut [Option<Value>]) -> Result<(), OutOfMemory>
    requires { length copies.old ≡ length values.now }
    ensures { OnOk result (copies.new ≡ values.now) }
{
    for i in 0..values.len() {
        copies[i] = values[i].copy()?;
    }
    Ok(())
}

// Moves the new values into the fields.
fn put_in(values: &mut [Option<Value>], fields: &mut Fields)
    requires long { length values.old ≡ length all_fields }
    requires kinds { AreOfKind values.old }
    requires table { length fields.old ≡ length all_fields }
    ensures whole { fields.new ≡ table_after values.old fields.old }
    ensures values { (f : Field) →
        value_in fields.new f ≡ unwrap_or (new_value values.old f) (value_in fields.old f) }
{
    for f in Field::ALL {
        if let Some(v) = values[f.number()].take() {
            fields.put(f, v);
        }
    }
}

fn keep_in(values: &mut [Option<Value>], s: FieldSet)
    requires { length values.old ≡ length all_fields }
    ensures { values.new ≡ changes_in s values.old }
{
    for f in Field::ALL {
        if !s.has(f) {
            unset(values, f);
        }
    }
}

// The field isn't modified any more.
fn unset(values: &mut [Option<Value>], f: Field)
    requires { length values.old ≡ length all_fields }
    ensures { values.new ≡ slice_set values.old (number f) None }
{
    values[f.number()] = None;
}
