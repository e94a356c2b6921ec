ghost use Rattle.serde_json.specs.View.{view};
ghost use Rattle.fission_ids.specs.Gives.{Gives};
ghost use Rattle.scenario.specs.Faults.{is_memory};
ghost use Rattle.scenario.specs.Reading.{frame_line, drop_line, discard_line};

use crate::fault::ReadFault;
use crate::fields::context_at;
use crate::line::Line;
use crate::members::{Kind, has_only, is_text};
use crate::processes::process_of;
use journal::Step;
use serde_json::Value;
use wire_msgs::{Action, ParentAction};

/// A frame that a process makes in a context.
#[tactic(auto, unfolding(crate::specs::Reading::frame_line))]
pub fn frame_line(place: u32, count: u8, v: &Value) -> Result<Line, ReadFault>
    ensures { Gives is_memory result (frame_line place count (view v.now)) }
{
    if !has_only(v, Kind::OneContext) {
        return Err(ReadFault::Shape { place });
    }
    let p = process_of(place, count, v.get("at"))?;
    let context = context_at(place, v.get("context"))?;
    let action = Action::Frame { context };
    Ok(Line::Step(Step::Act { p, action }))
}

/// A context that a process drops.
#[tactic(auto, unfolding(crate::specs::Reading::drop_line))]
pub fn drop_line(place: u32, count: u8, v: &Value) -> Result<Line, ReadFault>
    ensures { Gives is_memory result (drop_line place count (view v.now)) }
{
    if !has_only(v, Kind::OneContext) {
        return Err(ReadFault::Shape { place });
    }
    let p = process_of(place, count, v.get("at"))?;
    let context = context_at(place, v.get("context"))?;
    let action = Action::Drop { context };
    Ok(Line::Step(Step::Act { p, action }))
}

/// A context that the parent discards.
#[tactic(auto, unfolding(crate::specs::Reading::discard_line))]
pub fn discard_line(place: u32, v: &Value) -> Result<Line, ReadFault>
    ensures { Gives is_memory result (discard_line place (view v.now)) }
{
    if !has_only(v, Kind::OneContext) {
        return Err(ReadFault::Shape { place });
    }
    if !is_text(v.get("at"), "parent") {
        return Err(ReadFault::Shape { place });
    }
    let context = context_at(place, v.get("context"))?;
    let action = ParentAction::Discard { context };
    Ok(Line::Step(Step::ParentAct { action }))
}
