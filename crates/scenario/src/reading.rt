ghost use Rattle.std.specs.Prelude.{◌≤◌, length, IfOk};
ghost use Rattle.serde_json.specs.View.{view, items_view};
ghost use Rattle.fission_ids.specs.Gives.{Gives, GivesBy};
ghost use Rattle.scenario.specs.Faults.{is_memory};
ghost use Rattle.scenario.specs.Reading.{reading, scenario_of, data_of, or_unread, with_types};
ghost use Rattle.scenario.specs.Fits.{Fits};

use crate::fault::ReadFault;
use crate::line::Scenario;
use crate::members::{Kind, has_only, whole_number};
use crate::processes::{array_in, items_in, processes_of, start_tabs_of};
use crate::steps::lines_of;
use fission_ids::{Seq, Text};
use serde_json::Value;
use std::alloc::Global;
use wire_msgs::Config;

const VERSION: u64 = 1;

const MAX_TABS: usize = 64;

/// The scenario that all the bytes read as, or why they don't.
pub fn read(alloc: Global, bytes: &[u8]) -> Result<Scenario, ReadFault>
    // The scenario or the first fault, unless memory is wanting.
    ensures exact { Gives is_memory result (reading bytes.now) }
    // A run may begin so, its steps are few enough, and their process numbers exist.
    ensures fits { IfOk result Fits }
{
    whole(alloc, bytes)
}

fn whole(alloc: Global, bytes: &[u8]) -> Result<Scenario, ReadFault>
    ensures { Gives is_memory result (reading bytes.now) }
{
    let v = value_of_bytes(alloc, bytes)?;
    scenario_of(alloc, &v)
}

fn value_of_bytes(alloc: Global, bytes: &[u8]) -> Result<Value, ReadFault>
    ensures { GivesBy is_memory view result (or_unread (data_of bytes.now)) }
{
    match Value::from_slice(alloc, bytes) {
        Ok(v) => Ok(v),
        Err(e) => {
            if e.is_memory() {
                Err(ReadFault::OutOfMemory)
            } else {
                Err(ReadFault::Unread)
            }
        }
    }
}

#[tactic(auto, using(crate::proofs::Turns::items_len_view), unfolding(crate::specs::Reading::scenario_of))]
fn scenario_of(alloc: Global, v: &Value) -> Result<Scenario, ReadFault>
    ensures { Gives is_memory result (scenario_of (view v.now)) }
{
    if !has_only(v, Kind::Top) {
        return Err(ReadFault::Shape { place: 0 });
    }
    if whole_number(v.get("version")) != Some(VERSION) {
        return Err(ReadFault::Shape { place: 0 });
    }
    let types = processes_of(alloc, v.get("processes"))?;
    let tabs = items_in(0, v.get("tabs"))?;
    if tabs.len() > MAX_TABS {
        return Err(ReadFault::Shape { place: 0 });
    }
    let steps = array_in(0, v.get("steps"))?;
    with_types(alloc, types, tabs, steps)
}

// The scenario of these processes.
fn with_types(
    alloc: Global,
    types: Seq<Text>,
    tabs: &[Value],
    steps: &[Value],
) -> Result<Scenario, ReadFault>
    requires types { length types ≤ 16 }
    requires tabs { length tabs.now ≤ 64 }
    ensures { Gives is_memory result (with_types types (items_view tabs.now) (items_view steps.now)) }
{
    let count = types.len() as u8;
    let tabs = start_tabs_of(alloc, count, tabs)?;
    let lines = lines_of(alloc, count, steps)?;
    Ok(Scenario {
        config: Config { types, tabs },
        lines,
    })
}
