ghost use Rattle.std.specs.Prelude.{◌≡◌, ◌==◌, true, length, OnOk, slice_set, if◌then◌else◌};
ghost use Rattle.field_table.specs.declared.field.Field.{Field};
ghost use Rattle.field_table.specs.Field.{fields, number, kind};
ghost use Rattle.field_table.specs.Table.{value_in, initial_table};
ghost use Rattle.field_table.specs.Value.{is_of};

use crate::field::Field;
use crate::value::Value;
use fission_ids::{Duplicate, OutOfMemory};
use std::marker::Model;

/// One value for each field, of its kind. Seen as the list of the values by the fields' numbers.
#[derive(Debug, Drop)]
pub struct Fields {
    values: [Value; 16],
}

impl Model for Fields {
    ghost use Rattle.field_table.specs.Table.{Table, IsTable};

    ghost Value = { Table };

    ghost view = { λ f. f.values };

    ghost invariant = { λ f. IsTable f.values };
}

impl Fields {
    /// What a new context has.
    pub fn initial() -> Fields
        ensures { result ≡ initial_table }
    {
        Fields {
            values: [
                Field::Name.initial(),
                Field::Closed.initial(),
                Field::ExplicitActive.initial(),
                Field::CurrentInnerWindowId.initial(),
                Field::OpenerId.initial(),
                Field::FullZoom.initial(),
                Field::TextZoom.initial(),
                Field::Muted.initial(),
                Field::MessageManagerGroup.initial(),
                Field::UserAgentOverride.initial(),
                Field::AllowContentRetargeting.initial(),
                Field::SandboxFlags.initial(),
                Field::IsInBFCache.initial(),
                Field::Loading.initial(),
                Field::DefaultLoadFlags.initial(),
                Field::DisplayMode.initial(),
            ],
        }
    }

    /// There is a value for each field.
    pub fn covers_each_field(&self)
        ensures { length self.now ≡ length fields }
    {
        let _ = &self.values;
    }

    /// The value of a field, which is of the field's kind.
    pub fn get(&self, f: Field) -> &Value
        ensures value { result.now ≡ value_in self.now f }
        ensures kind { is_of (kind f) result.now ≡ true }
    {
        &self.values[f.number()]
    }

    /// Sets the value of a field. The others stay.
    pub fn put(&mut self, f: Field, v: Value)
        requires { is_of (kind f) v ≡ true }
        ensures whole { self.new ≡ slice_set self.old (number f) v }
        ensures values { (g : Field) →
            value_in self.new g ≡ (if number g == number f then v else value_in self.old g) }
    {
        self.values[f.number()] = v;
    }
}

impl Duplicate for Fields {
    fn copy(&self) -> Result<Fields, OutOfMemory> {
        let mut values = [
            Value::Flag(false),
            Value::Flag(false),
            Value::Flag(false),
            Value::Flag(false),
            Value::Flag(false),
            Value::Flag(false),
            Value::Flag(false),
            Value::Flag(false),
            Value::Flag(false),
            Value::Flag(false),
            Value::Flag(false),
            Value::Flag(false),
            Value::Flag(false),
            Value::Flag(false),
            Value::Flag(false),
            Value::Flag(false),
        ];
        copy_into(&self.values, &mut values)?;
        Ok(Fields { values })
    }
}

fn copy_into(values: &[Value], copies: &mut [Value]) -> Result<(), OutOfMemory>
    requires { length copies.old ≡ length values.now }
    ensures { OnOk result (copies.new ≡ values.now) }
{
    for i in 0..values.len() {
        copies[i] = values[i].copy()?;
    }
    Ok(())
}
