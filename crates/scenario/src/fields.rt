ghost use Rattle.std.specs.Prelude.{◌≡◌, true, option_and_then, IfOk};
ghost use Rattle.serde_json.specs.Find.{as_object};
ghost use Rattle.serde_json.specs.View.{view, members_view};
ghost use Rattle.field_table.specs.Field.{kind};
ghost use Rattle.field_table.specs.Reading.{value_of};
ghost use Rattle.field_table.specs.Value.{is_of};
ghost use Rattle.fission_ids.specs.Gives.{Gives, GivesBy};
ghost use Rattle.scenario.specs.Faults.{is_memory, or_shape};
ghost use Rattle.scenario.specs.Members.{data_found};
ghost use Rattle.scenario.specs.Reading.{context_at, group_at, field_of, transaction_of};
ghost use Rattle.scenario.specs.Reading.{named_changes, named_change, or_no_value};

use crate::fault::ReadFault;
use crate::members::has_member;
use field_table::{Field, ValueFault};
use fission_ids::{ContextId, GroupId};
use serde_json::{Map, Value};
use std::alloc::Global;
use transaction::Transaction;

/// The context that a member names.
#[tactic(auto, unfolding(crate::specs::Reading::context_at))]
pub fn context_at(place: u32, found: Option<&Value>) -> Result<ContextId, ReadFault>
    ensures { Gives is_memory result (context_at place (data_found found.entry)) }
{
    match found.and_then(Value::as_str).and_then(ContextId::parse) {
        None => Err(ReadFault::Shape { place }),
        Some(context) => Ok(context),
    }
}

/// The group that a member names.
#[tactic(auto, unfolding(crate::specs::Reading::group_at))]
pub fn group_at(place: u32, found: Option<&Value>) -> Result<GroupId, ReadFault>
    ensures { Gives is_memory result (group_at place (data_found found.entry)) }
{
    match found.and_then(Value::as_str).and_then(GroupId::parse) {
        None => Err(ReadFault::Shape { place }),
        Some(group) => Ok(group),
    }
}

/// The field that a member names.
#[tactic(auto, unfolding(crate::specs::Reading::field_of))]
pub fn field_of(place: u32, found: Option<&Value>) -> Result<Field, ReadFault>
    ensures { Gives is_memory result (field_of place (data_found found.entry)) }
{
    match found.and_then(Value::as_str).and_then(Field::named) {
        None => Err(ReadFault::Shape { place }),
        Some(field) => Ok(field),
    }
}

/// The fields of a member, one at least, and their new values.
#[tactic(auto, unfolding(crate::specs::Reading::transaction_of))]
pub fn transaction_of(
    alloc: Global,
    place: u32,
    found: Option<&Value>,
) -> Result<Transaction, ReadFault>
    ensures { Gives is_memory result (transaction_of place (data_found found.entry)) }
{
    let members = members_in(place, found)?;
    if !has_member(members) {
        return Err(ReadFault::Shape { place });
    }
    changes_of(alloc, place, members)
}

// The members of an object.
fn members_in(place: u32, found: Option<&Value>) -> Result<&Map<String, Value>, ReadFault>
    ensures { let members = option_and_then as_object (data_found found.entry) in
        GivesBy is_memory (λ m. members_view m.now.entries) result (or_shape place members) }
{
    match found.and_then(Value::as_object) {
        None => Err(ReadFault::Shape { place }),
        Some(members) => Ok(members),
    }
}

// The new values. No two keys are the same, so that each member counts.
fn changes_of(
    alloc: Global,
    place: u32,
    members: &Map<String, Value>,
) -> Result<Transaction, ReadFault>
    ensures { Gives is_memory result (named_changes place (members_view members.now.entries)) }
{
    let mut changes = Transaction::new();
    for (key, v) in members.iter() {
        let (f, value) = named_change(alloc, place, key.as_str(), v)?;
        changes.set(f, value);
    }
    Ok(changes)
}

// The field of a name, and its new value.
fn named_change(
    alloc: Global,
    place: u32,
    key: &str,
    v: &Value,
) -> Result<(Field, field_table::Value), ReadFault>
    ensures exact { Gives is_memory result (named_change place key.now (view v.now)) }
    ensures kind { IfOk result (λ c. is_of (kind c.0) c.1 ≡ true) }
{
    let Some(f) = Field::named(key) else {
        return Err(ReadFault::Shape { place });
    };
    let value = value_of(alloc, place, f, v)?;
    Ok((f, value))
}

// The value of a field.
fn value_of(alloc: Global, place: u32, f: Field, v: &Value) -> Result<field_table::Value, ReadFault>
    ensures exact { Gives is_memory result (or_no_value place (value_of (kind f) (view v.now))) }
    ensures kind { IfOk result (λ v. is_of (kind f) v ≡ true) }
{
    match field_table::Value::read(alloc, f, v) {
        Ok(value) => Ok(value),
        Err(ValueFault::OutOfMemory) => Err(ReadFault::OutOfMemory),
        Err(ValueFault::WrongKind | ValueFault::TooLong { .. } | ValueFault::OutOfRange { .. }) => {
            Err(ReadFault::Shape { place })
        }
    }
}
