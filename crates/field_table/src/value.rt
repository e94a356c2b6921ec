ghost use Rattle.std.specs.Prelude.{◌≡◌, true, IfOk, option_and_then};
ghost use Rattle.serde_json.specs.Find.{as_str};
ghost use Rattle.serde_json.specs.View.{view};
ghost use Rattle.field_table.specs.declared.value.ValueFault.TheVariants as faults;
ghost use Rattle.field_table.specs.Field.{kind};
ghost use Rattle.fission_ids.specs.Gives.{Gives};
ghost use Rattle.field_table.specs.Reading.{is_memory, flag_value, number_value, text_value, window_value};
ghost use Rattle.field_table.specs.Reading.{context_value, value_of};
ghost use Rattle.field_table.specs.Value.{is_of};

use crate::field::Field;
use crate::kind::Kind;
use fission_ids::{ContextId, Duplicate, OutOfMemory, Text, WindowId};
use serde_json::Value as Json;
use std::alloc::Global;
use thiserror::Error;

// The most bytes that a text may have.
const MAX_LEN: usize = 64;

/// What a field holds.
#[derive(Debug, PartialEq, Eq, Drop)]
pub enum Value {
    /// True or false.
    Flag(bool),
    /// A number. That of a window or a context is 0 for none, else its creator times 2 to the 32, plus its
    /// serial.
    Number(u64),
    /// A text.
    Words(Text),
}

impl Duplicate for Value {
    fn copy(&self) -> Result<Value, OutOfMemory> {
        match self {
            Value::Flag(on) => Ok(Value::Flag(*on)),
            Value::Number(n) => Ok(Value::Number(*n)),
            Value::Words(text) => Ok(Value::Words(text.copy()?)),
        }
    }
}

impl Value {
    /// The value of a field that a JSON value is. A flag is true or false, a number a whole number, a text a
    /// string, and a window or a context the text of an id, or the number 0 for none. A number past the
    /// field's greatest, or one but 0 for an id, is OutOfRange, a string of more than 64 bytes is TooLong,
    /// and all else, a string that is no id of the field's kind among it, is WrongKind.
    #[tactic(auto, unfolding(crate::specs::Reading::value_of))]
    pub fn read(alloc: Global, f: Field, json: &Json) -> Result<Value, ValueFault>
        ensures exact { Gives is_memory result (value_of (kind f) (view json.now)) }
        ensures kind { IfOk result (λ v. is_of (kind f) v ≡ true) }
    {
        match f.kind() {
            Kind::Flag { initial: _ } => read_flag(json),
            Kind::Number { max, initial: _ } => read_number(max, json),
            Kind::Words => read_words(alloc, json),
            Kind::Window => read_window(json),
            Kind::Context => read_context(json),
        }
    }
}

fn read_flag(json: &Json) -> Result<Value, ValueFault>
    ensures { result ≡ flag_value (view json.now) }
{
    let on = json.as_bool().ok_or(ValueFault::WrongKind)?;
    Ok(Value::Flag(on))
}

fn read_number(max: u64, json: &Json) -> Result<Value, ValueFault>
    ensures { result ≡ number_value max (view json.now) }
{
    let n = json.as_u64().ok_or(ValueFault::WrongKind)?;
    if n <= max {
        Ok(Value::Number(n))
    } else {
        Err(ValueFault::OutOfRange { n })
    }
}

fn read_words(alloc: Global, json: &Json) -> Result<Value, ValueFault>
    ensures { Gives is_memory result (text_value (as_str (view json.now))) }
{
    let text = json.as_str().ok_or(ValueFault::WrongKind)?;
    if text.len() > MAX_LEN {
        return Err(ValueFault::TooLong {
            len: text.len() as u64,
        });
    }
    Ok(Value::Words(Text::of(alloc, text)?))
}

fn read_window(json: &Json) -> Result<Value, ValueFault>
    ensures { result ≡ window_value (view json.now) }
{
    let Some(text) = json.as_str() else {
        return read_number(0, json);
    };
    let id = WindowId::parse(text).ok_or(ValueFault::WrongKind)?;
    Ok(Value::Number(id.number()))
}

fn read_context(json: &Json) -> Result<Value, ValueFault>
    ensures { result ≡ context_value (view json.now) }
{
    let Some(text) = json.as_str() else {
        return read_number(0, json);
    };
    let id = ContextId::parse(text).ok_or(ValueFault::WrongKind)?;
    Ok(Value::Number(id.number()))
}

/// Why a value of the input is no value of a field.
#[derive(Clone, Copy, Debug, PartialEq, Eq, Error)]
pub enum ValueFault {
    /// It is of another kind than the field.
    #[error("a value of another kind than the field's")]
    WrongKind,
    /// It is a text of more bytes than the field takes.
    #[error("a text of {len} bytes, where the field takes at most {MAX_LEN}")]
    TooLong {
        /// The text's number of bytes.
        len: u64,
    },
    /// It is a number that the field doesn't take.
    #[error("the number {n}, which the field doesn't take")]
    OutOfRange {
        /// The number.
        n: u64,
    },
    /// Memory wasn't there.
    #[error("{}", fission_ids::OutOfMemory)]
    OutOfMemory,
}

impl From<OutOfMemory> for ValueFault {
    ghost from_gives = { λ _ e. e ≡ faults.OutOfMemory };

    fn from(_e: OutOfMemory) -> ValueFault {
        ValueFault::OutOfMemory
    }
}
