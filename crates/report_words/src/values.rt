//! What a field shows.

ghost use Rattle.std.specs.Prelude.{◌≡◌, IfOk, decimal, string_bytes};
ghost use Rattle.std.specs.Option.{option_copied};
ghost use Rattle.serde_json.specs.Data.{string};
ghost use Rattle.serde_json.specs.Written.{compact_text};
ghost use Rattle.report_words.specs.Values.{window_of_number, window_or_digits};
ghost use Rattle.report_words.specs.Values.{context_of_number, context_or_digits};
ghost use Rattle.report_words.specs.Values.{number_text, value_text};

use crate::items::alone;
use field_table::{Field, Kind, Value};
use fission_ids::{ContextId, OutOfMemory, WindowId};
use std::alloc::Global;

fn window_of_number(n: u64) -> Option<WindowId>
    ensures { result ≡ window_of_number n }
{
    WindowId::of_number(n)
}

fn context_of_number(n: u64) -> Option<ContextId>
    ensures { result ≡ context_of_number n }
{
    ContextId::of_number(n)
}

fn digits(alloc: Global, n: u64) -> Result<String, OutOfMemory>
    ensures { IfOk result (λ s. string_bytes s ≡ decimal n) }
{
    Ok(format!(in alloc; "{n}")?)
}

// The number of no window is 0, or isn't read.
fn window_or_digits(alloc: Global, n: u64) -> Result<String, OutOfMemory>
    ensures { IfOk result (λ s. string_bytes s ≡ window_or_digits (window_of_number n) n) }
{
    let Some(window) = window_of_number(n) else {
        return digits(alloc, n);
    };
    alone(alloc, window.print(alloc)?.as_str())
}

// The number of no context is 0, or isn't read.
fn context_or_digits(alloc: Global, n: u64) -> Result<String, OutOfMemory>
    ensures { IfOk result (λ s. string_bytes s ≡ context_or_digits (context_of_number n) n) }
{
    let Some(context) = context_of_number(n) else {
        return digits(alloc, n);
    };
    alone(alloc, context.print(alloc)?.as_str())
}

#[tactic(auto, unfolding(crate::specs::Values::number_text))]
fn number_words(alloc: Global, kind: Kind, n: u64) -> Result<String, OutOfMemory>
    ensures { IfOk result (λ s. string_bytes s ≡ number_text kind n) }
{
    match kind {
        Kind::Window => window_or_digits(alloc, n),
        Kind::Context => context_or_digits(alloc, n),
        Kind::Flag { initial: _ } | Kind::Number { max: _, initial: _ } | Kind::Words => {
            digits(alloc, n)
        }
    }
}

// A text as JSON writes it.
fn quoted_words(alloc: Global, text: &str) -> Result<String, OutOfMemory>
    ensures { IfOk result (λ s. string_bytes s ≡ compact_text (string text.now)) }
{
    let text = String::from_str(alloc, text)?;
    Ok(serde_json::Value::String(text).to_string(alloc)?)
}

/// The text of a field's value: `true` or `false`, a number in decimal digits, a text as JSON writes it.
/// Where there is no value it's `-`. A field of ids shows the id of its number, and `0` for none.
#[tactic(auto, unfolding(crate::specs::Values::value_text))]
pub fn value_words(
    alloc: Global,
    field: Field,
    value: Option<&Value>,
) -> Result<String, OutOfMemory>
    ensures { IfOk result (λ s. string_bytes s ≡ value_text field (option_copied value.entry)) }
{
    match value {
        None => alone(alloc, "-"),
        Some(Value::Flag(true)) => alone(alloc, "true"),
        Some(Value::Flag(false)) => alone(alloc, "false"),
        Some(Value::Number(n)) => number_words(alloc, field.kind(), *n),
        Some(Value::Words(text)) => quoted_words(alloc, text.as_str()),
    }
}
