ghost use Rattle.std.specs.Prelude.{◌≡◌, ◌<◌, ◌≤◌, ◌==◌, ◌&&◌, not, length, option_and_then, IfOk};
ghost use Rattle.std.specs.List.{list_all};
ghost use Rattle.std.specs.Char.{is_ascii_graphic};
ghost use Rattle.fission_ids.specs.Gives.{Gives, GivesBy};
ghost use Rattle.fission_ids.specs.ProcSet.{has};
ghost use Rattle.serde_json.specs.Find.{as_array};
ghost use Rattle.serde_json.specs.View.{view, items_view};
ghost use Rattle.wire_msgs.specs.Config.{is_remote_type};
ghost use Rattle.scenario.specs.Faults.{is_memory, or_shape};
ghost use Rattle.scenario.specs.Members.{data_found};
ghost use Rattle.scenario.specs.Reading.{type_of, types_of, processes_of, process_of, items_in};
ghost use Rattle.scenario.specs.Reading.{also_of, start_tab_of, start_tabs_of};

use crate::fault::ReadFault;
use crate::members::{Kind, has_only, whole_number};
use fission_ids::{ProcId, ProcSet, Seq, Text};
use serde_json::Value;
use std::alloc::Global;
use wire_msgs::StartTab;

const MAX_PROCESSES: usize = 16;

const MAX_TYPE_BYTES: usize = 128;

const FIRST_TAB: u32 = 100_001;

/// The remote types of the processes.
#[tactic(auto, using(crate::proofs::Turns::items_len_view), unfolding(crate::specs::Reading::processes_of))]
pub fn processes_of(alloc: Global, found: Option<&Value>) -> Result<Seq<Text>, ReadFault>
    ensures exact { Gives is_memory result (processes_of (data_found found.entry)) }
    ensures few { IfOk result (λ types. length types ≤ 16) }
{
    let values = array_in(0, found)?;
    if values.is_empty() {
        return Err(ReadFault::Shape { place: 0 });
    }
    if values.len() > MAX_PROCESSES {
        return Err(ReadFault::Shape { place: 0 });
    }
    types_of(alloc, values)
}

fn types_of(alloc: Global, values: &[Value]) -> Result<Seq<Text>, ReadFault>
    ensures exact { Gives is_memory result (types_of (items_view values.now)) }
    ensures len { IfOk result (λ types. length types ≡ length values.now) }
{
    let mut types = Seq::new(alloc);
    for v in values {
        types.push(type_of(alloc, v)?)?;
    }
    Ok(types)
}

#[tactic(auto, unfolding(crate::specs::Reading::type_of))]
fn type_of(alloc: Global, v: &Value) -> Result<Text, ReadFault>
    ensures { Gives is_memory result (type_of (view v.now)) }
{
    let Some(s) = v.as_str() else {
        return Err(ReadFault::Shape { place: 0 });
    };
    if !is_remote_type(s) {
        return Err(ReadFault::Shape { place: 0 });
    }
    Ok(Text::of(alloc, s)?)
}

fn is_remote_type(s: &str) -> bool
    ensures { result ≡ is_remote_type s.now }
{
    !s.is_empty() && s.len() <= MAX_TYPE_BYTES && is_graphic(s)
}

// Whether there is no blank, no control character and nothing beyond ASCII.
fn is_graphic(s: &str) -> bool
    ensures { result ≡ list_all is_ascii_graphic s.now }
{
    s.as_bytes().iter().all(|b| b.is_ascii_graphic())
}

/// The number of one of `count` processes.
#[tactic(auto, unfolding(crate::specs::Reading::process_of))]
pub fn process_of(place: u32, count: u8, found: Option<&Value>) -> Result<ProcId, ReadFault>
    ensures exact { Gives is_memory result (process_of place count (data_found found.entry)) }
    ensures below { IfOk result (λ p. p.0 < count) }
{
    match whole_number(found) {
        Some(p) if p < u64::from(count) => Ok(ProcId(p as u8)),
        _ => Err(ReadFault::Shape { place }),
    }
}

/// The items of a member that is an array.
pub fn array_in(place: u32, found: Option<&Value>) -> Result<&[Value], ReadFault>
    ensures { let items = option_and_then as_array (data_found found.entry) in
        GivesBy is_memory (λ vs. items_view vs.now) result (or_shape place items) }
{
    match found.and_then(Value::as_array) {
        None => Err(ReadFault::Shape { place }),
        Some(values) => Ok(values),
    }
}

/// The items of a member that may be left out.
pub fn items_in(place: u32, found: Option<&Value>) -> Result<&[Value], ReadFault>
    ensures { GivesBy is_memory (λ vs. items_view vs.now) result (items_in place (data_found found.entry)) }
{
    match found {
        None => Ok(&[]),
        Some(_) => array_in(place, found),
    }
}

/// The tabs that are open at the start.
pub fn start_tabs_of(alloc: Global, count: u8, values: &[Value]) -> Result<Seq<StartTab>, ReadFault>
    requires count { count ≤ 16 }
    requires few { length values.now ≤ 64 }
    ensures exact { Gives is_memory result (start_tabs_of 100001 count (items_view values.now)) }
{
    let mut tabs = Seq::new(alloc);
    let mut place = FIRST_TAB;
    for v in values {
        tabs.push(start_tab_of(place, count, v)?)?;
        place += 1;
    }
    Ok(tabs)
}

#[tactic(auto, unfolding(crate::specs::Reading::start_tab_of))]
fn start_tab_of(place: u32, count: u8, v: &Value) -> Result<StartTab, ReadFault>
    requires { count ≤ 16 }
    ensures { Gives is_memory result (start_tab_of place count (view v.now)) }
{
    if !has_only(v, Kind::Tab) {
        return Err(ReadFault::Shape { place });
    }
    let owner = process_of(place, count, v.get("owner"))?;
    let values = items_in(place, v.get("also"))?;
    let also = also_of(place, count, owner, values)?;
    Ok(StartTab { owner, also })
}

#[tactic(auto, using(crate::proofs::Also::also_is))]
fn also_of(place: u32, count: u8, owner: ProcId, values: &[Value]) -> Result<ProcSet, ReadFault>
    requires { count ≤ 16 }
    ensures { Gives is_memory result (also_of place count owner (items_view values.now)) }
{
    let mut also = ProcSet::EMPTY;
    for v in values {
        let p = process_of(place, count, Some(v))?;
        if !may_join(p, owner, also) {
            return Err(ReadFault::Shape { place });
        }
        also = also.with(p);
    }
    Ok(also)
}

fn may_join(p: ProcId, owner: ProcId, also: ProcSet) -> bool
    requires { p.0 < 16 }
    ensures { result ≡ (not (p.0 == owner.0) && not (has also p.0)) }
{
    p != owner && !also.has(p)
}
