//! What is told of the rows.

ghost use Rattle.std.specs.Prelude.{◌≡◌, ◌<◌, ◌++◌, IfOk, OnOk, map, string_bytes};
ghost use Rattle.edge.specs.Memory.{written_of};
ghost use Rattle.scenario.specs.Fits.{Fits};
ghost use Rattle.scenario.specs.Reading.{reading};
ghost use Rattle.report.specs.Report.{text, place_text, player_bounds};
ghost use Rattle.worked_rows.specs.Rows.{answer_text, differs, name_if_differs, names_among, names_of_differing};
ghost use Rattle.worked_rows.specs.Script.{count_of_texts};

use crate::rows::Row;
use crate::script::{count_texts, unfold};
use anyhow::{Error, Result};
use edge::{MemSink, write_all};
use field_rules::Rules;
use report::{full_zoom, place_line, text_zoom, write_report};
use scenario::{ReadFault, Scenario, read};
use std::alloc::Global;

fn tell_report(alloc: Global, scenario: Scenario, sink: &mut MemSink) -> Result<()>
    requires { Fits scenario }
    ensures { OnOk result (written_of sink.new ≡ written_of sink.old ++ text player_bounds scenario) }
{
    let rules = Rules::new()
        .with_custom(0, 50, 300, full_zoom)
        .with_custom(1, 1, 0, text_zoom);
    write_report(alloc, &rules, scenario, sink)?;
    Ok(())
}

fn tell_place(alloc: Global, place: u32, sink: &mut MemSink) -> Result<()>
    ensures { OnOk result (written_of sink.new ≡ written_of sink.old ++ place_text place) }
{
    let line = place_line(alloc, place)?;
    write_all(sink, line.as_bytes())?;
    Ok(())
}

// Tells what the player tells of a scenario.
fn tell(alloc: Global, scenario: &str, sink: &mut MemSink) -> Result<()>
    ensures { OnOk result (written_of sink.new ≡ written_of sink.old ++ answer_text (reading scenario.now)) }
{
    match read(alloc, scenario.as_bytes()) {
        Ok(scenario) => tell_report(alloc, scenario, sink),
        Err(ReadFault::Shape { place }) => tell_place(alloc, place, sink),
        Err(ReadFault::Unread) => Ok(()),
        Err(fault) => Err(Error::from(fault)),
    }
}

fn differs(alloc: Global, row: &Row, number: usize) -> Result<bool>
    ensures { IfOk result (λ other. other ≡ differs row.now number) }
{
    let scenario = unfold(alloc, number, row.scenario.as_slice())?;
    let report = unfold(alloc, number, row.report.as_slice())?;
    let mut sink = MemSink::new(alloc, Vec::new(alloc));
    tell(alloc, scenario.as_str(), &mut sink)?;
    Ok(sink.bytes() != report.as_bytes())
}

fn push_if_differs(alloc: Global, row: &Row, k: usize, names: &mut Vec<String>) -> Result<()>
    requires { k < usize.MAX }
    ensures { OnOk result (map string_bytes names.new.items ≡
        map string_bytes names.old.items ++ name_if_differs row.now k) }
{
    if !differs(alloc, row, k)? {
        return Ok(());
    }
    let number = k + 1;
    names.push(format!(in alloc; "{} {number}", row.name)?)?;
    Ok(())
}

fn push_differing(alloc: Global, row: &Row, names: &mut Vec<String>) -> Result<()>
    ensures { OnOk result (map string_bytes names.new.items ≡
        map string_bytes names.old.items ++ names_among row.now (count_of_texts row.now.scenario.items)) }
{
    for k in 0..count_texts(row.scenario.as_slice()) {
        push_if_differs(alloc, row, k, names)?;
    }
    Ok(())
}

/// The names of the rows of which another report is told, each with the number of the scenario from 1.
pub fn names_of_differing(alloc: Global, rows: &[Row]) -> Result<Vec<String>>
    ensures { IfOk result (λ names. map string_bytes names.items ≡ names_of_differing rows.now) }
{
    let mut names = Vec::new(alloc);
    for row in rows {
        push_differing(alloc, row, &mut names)?;
    }
    Ok(names)
}
