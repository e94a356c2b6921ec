ghost use Rattle.serde_json.specs.View.{view};
ghost use Rattle.fission_ids.specs.Gives.{Gives};
ghost use Rattle.scenario.specs.Faults.{is_memory};
ghost use Rattle.scenario.specs.Members.{data_found};
ghost use Rattle.scenario.specs.Reading.{group_named, subscribe_line, tab_line};

use crate::fault::ReadFault;
use crate::fields::group_at;
use crate::line::Line;
use crate::members::{Kind, has_only, is_text};
use crate::processes::process_of;
use fission_ids::GroupId;
use journal::Step;
use serde_json::Value;
use wire_msgs::ParentAction;

/// A tab that the parent opens, in the group that is named or in a new one.
#[tactic(auto, unfolding(crate::specs::Reading::tab_line))]
pub fn tab_line(place: u32, count: u8, v: &Value) -> Result<Line, ReadFault>
    ensures { Gives is_memory result (tab_line place count (view v.now)) }
{
    if !has_only(v, Kind::OpenTab) {
        return Err(ReadFault::Shape { place });
    }
    if !is_text(v.get("at"), "parent") {
        return Err(ReadFault::Shape { place });
    }
    let owner = process_of(place, count, v.get("owner"))?;
    let group = group_named(place, v.get("group"))?;
    let action = ParentAction::Tab { owner, group };
    Ok(Line::Step(Step::ParentAct { action }))
}

// The group of a member that may be left out.
#[tactic(auto, unfolding(crate::specs::Reading::group_named))]
fn group_named(place: u32, found: Option<&Value>) -> Result<Option<GroupId>, ReadFault>
    ensures { Gives is_memory result (group_named place (data_found found.entry)) }
{
    if found.is_none() {
        return Ok(None);
    }
    let group = group_at(place, found)?;
    Ok(Some(group))
}

/// A process that the parent subscribes to a group.
#[tactic(auto, unfolding(crate::specs::Reading::subscribe_line))]
pub fn subscribe_line(place: u32, count: u8, v: &Value) -> Result<Line, ReadFault>
    ensures { Gives is_memory result (subscribe_line place count (view v.now)) }
{
    if !has_only(v, Kind::Subscribe) {
        return Err(ReadFault::Shape { place });
    }
    if !is_text(v.get("at"), "parent") {
        return Err(ReadFault::Shape { place });
    }
    let process = process_of(place, count, v.get("process"))?;
    let group = group_at(place, v.get("group"))?;
    let action = ParentAction::Subscribe { process, group };
    Ok(Line::Step(Step::ParentAct { action }))
}
