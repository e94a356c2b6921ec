//! The rows of the input.

ghost use Rattle.std.specs.Prelude.{◌≡◌, ◌++◌, IfOk, IfSome, codes, string_bytes};
ghost use Rattle.std.specs.List.{flat_map};
ghost use Rattle.std.specs.Str.{IsUtf8};
ghost use Rattle.worked_rows.specs.Rows.{row_text};
ghost use Rattle.worked_rows.specs.Script.{script_text};

use crate::script::{Piece, cut, pieces_in};
use anyhow::{Result, bail};
use std::alloc::Global;

/// A worked scenario.
#[derive(Debug, Drop)]
pub struct Row {
    /// What it's called.
    pub name: String,
    /// The script of the bytes that are read.
    pub scenario: Vec<Piece>,
    /// The script of what is to be told of them.
    pub report: Vec<Piece>,
}

// The name, the scenario and the report of the first row, and what stands behind it.
fn first_row(text: &str) -> Option<(&str, &str, &str, &str)>
    ensures found { IfSome result (λ parts. text.now ≡
        parts.0.now ++ (codes "\n" ++ (parts.1.now ++
        (codes "--\n" ++ (parts.2.now ++ (codes "==\n" ++ parts.3.now)))))) }
    ensures utf8 { IfSome result (λ parts. IsUtf8 parts.3.now) }
{
    let (name, behind) = cut(text, "\n")?;
    let (scenario, behind) = cut(behind, "--\n")?;
    let (report, behind) = cut(behind, "==\n")?;
    Some((name, scenario, report, behind))
}

fn row_of(alloc: Global, name: &str, scenario: &str, report: &str) -> Result<Row>
    ensures name { IfOk result (λ row. string_bytes row.name ≡ name.now) }
    ensures scenario { IfOk result (λ row. script_text row.scenario.items ≡ scenario.now) }
    ensures report { IfOk result (λ row. script_text row.report.items ≡ report.now) }
{
    Ok(Row {
        name: String::from_str(alloc, name)?,
        scenario: pieces_in(alloc, scenario)?,
        report: pieces_in(alloc, report)?,
    })
}

/// The rows that a text holds, one behind the other.
pub fn rows_in(alloc: Global, text: &str) -> Result<Vec<Row>>
    ensures { IfOk result (λ rows. flat_map row_text rows.items ≡ text.now) }
{
    let mut rows = Vec::new(alloc);
    let mut rest = text;
    'more: while !rest.is_empty() {
        let Some((name, scenario, report, behind)) = first_row(rest) else {
            bail!("the last row isn't whole");
        };
        rows.push(row_of(alloc, name, scenario, report)?)?;
        rest = behind;
    }
    Ok(rows)
}
