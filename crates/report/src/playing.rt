//! A scenario is played line by line, and each line is passed on before the next.

ghost use Rattle.std.specs.Prelude.{◌≡◌, ◌<◌, ◌≤◌, ◌+◌, ◌*◌, ◌++◌, length, IfOk, IsErrOf, OnOk, Some};
ghost use Rattle.std.specs.List.{AllByRecursion};
ghost use Rattle.edge.specs.Causes.{Rose};
ghost use Rattle.edge.specs.Memory.{written_of};
ghost use Rattle.edge.specs.Pieces.{Writes};
ghost use Rattle.field_rules.specs.RuleBounds.{bounds_of};
ghost use Rattle.journal.specs.Step.{StepFits};
ghost use Rattle.model.specs.Laws.{RunFits};
ghost use Rattle.model.specs.Next.{run_at_start, run_after, moment_after};
ghost use Rattle.model.specs.Settling.{settled, weight};
ghost use Rattle.wire_msgs.specs.Config.{ConfigFits};
ghost use Rattle.world.specs.Stands.{most_entries};
ghost use Rattle.scenario.specs.Fits.{LineFits, Fits};
ghost use Rattle.report.specs.Passing.{Passes, CountsFault};
ghost use Rattle.report.specs.Report.{entry_text, settle_text, deliveries, line_text, body_text};
ghost use Rattle.report.specs.Report.{run_after_line, run_at_end, played_text, text};

use crate::fault::ReportFault;
use crate::passing::{in_memory, no_pieces, pass_all, pass_piece};
use crate::writing::{entry, head, last, settled, shown};
use edge::{MemSink, Sink};
use field_rules::Rules;
use fission_ids::{Duplicate, OutOfMemory};
use journal::Step;
use model::{a_step_adds_little, settling_ends};
use scenario::{Line, Scenario};
use std::alloc::Global;
use wire_msgs::Config;
use world::World;

// The world after a step, whose line is gathered.
fn play_step(
    alloc: Global,
    rules: &Rules,
    world: World,
    number: u64,
    step: &Step,
    pieces: &mut MemSink,
) -> Result<World, OutOfMemory>
    requires fits { StepFits (length world.config.types) step.now }
    requires room { length world.journal < most_entries }
    ensures world { IfOk result (λ w. w ≡ run_after (bounds_of rules.now) world step.now) }
    ensures text { OnOk result (written_of pieces.new ≡ written_of pieces.old ++
        entry_text (Some number) step.now
        (moment_after (bounds_of rules.now) world.config world.journal step.now).answer) }
{
    let world = world.step(rules, step.copy()?)?;
    in_memory(entry(
        alloc,
        Some(number),
        world.journal().newest().unwrap(),
        pieces,
    ))?;
    Ok(world)
}

// The world after settling, whose line is gathered.
fn play_settle(
    alloc: Global,
    rules: &Rules,
    world: World,
    number: u64,
    pieces: &mut MemSink,
) -> Result<World, OutOfMemory>
    requires { length world.journal + weight world < most_entries }
    ensures world { IfOk result (λ w. w ≡ settled (bounds_of rules.now) world) }
    ensures text { OnOk result (written_of pieces.new ≡ written_of pieces.old ++
        settle_text number (deliveries (bounds_of rules.now) world)) }
{
    let before = world.journal().entries().len();
    let world = world.settle(rules)?;
    let count = world.journal().entries().len() - before;
    in_memory(settled(alloc, number, count, pieces))?;
    Ok(world)
}

// The world after a line of the scenario, whose line of the report is gathered.
fn play_line(
    alloc: Global,
    rules: &Rules,
    world: World,
    number: u64,
    line: &Line,
    pieces: &mut MemSink,
) -> Result<World, OutOfMemory>
    requires fits { LineFits (length world.config.types) line.now }
    requires room { length world.journal + weight world < most_entries }
    ensures world { IfOk result (λ w. w ≡ run_after_line (bounds_of rules.now) world line.now) }
    ensures text { OnOk result (written_of pieces.new ≡ written_of pieces.old ++
        line_text (bounds_of rules.now) number world line.now) }
{
    match line {
        Line::Step(step) => play_step(alloc, rules, world, number, step, pieces),
        Line::Settle => play_settle(alloc, rules, world, number, pieces),
        Line::Show(show) => {
            in_memory(shown(alloc, number, &world, *show, pieces))?;
            Ok(world)
        }
    }
}

// The world after a line of the scenario, whose line of the report is passed on.
fn pass_line<K: Sink>(
    alloc: Global,
    rules: &Rules,
    world: World,
    number: u64,
    line: &Line,
    pieces: &mut MemSink,
    sink: &mut K,
) -> Result<World, ReportFault>
    requires fits { LineFits (length world.config.types) line.now }
    requires room { length world.journal + weight world < most_entries }
    ensures world { IfOk result (λ w. w ≡ run_after_line (bounds_of rules.now) world line.now) }
    ensures bytes { Passes (written_of pieces.old ++ line_text (bounds_of rules.now) number world line.now)
        (written_of pieces.new) (K.written sink.old) (K.written sink.new) result }
    ensures faults { CountsFault (K.faults sink.old) (K.faults sink.new) result }
{
    let world = play_line(alloc, rules, world, number, line, pieces)?;
    pass_piece(alloc, pieces, sink)?;
    Ok(world)
}

// The world after all the lines. None adds more than 65 entries and what waits then.
fn pass_lines<K: Sink>(
    alloc: Global,
    rules: &Rules,
    mut world: World,
    lines: &[Line],
    pieces: &mut MemSink,
    sink: &mut K,
) -> Result<World, ReportFault>
    requires run { RunFits world }
    requires lines { AllByRecursion (LineFits (length world.config.types)) lines.now }
    requires room { length world.journal + weight world + 65 * length lines.now < most_entries }
    ensures world { IfOk result (λ w. w ≡ run_at_end (bounds_of rules.now) world lines.now) }
    ensures bytes { Passes (written_of pieces.old ++ body_text (bounds_of rules.now) 1 world lines.now)
        (written_of pieces.new) (K.written sink.old) (K.written sink.new) result }
    ensures faults { CountsFault (K.faults sink.old) (K.faults sink.new) result }
{
    settling_ends();
    a_step_adds_little();
    let mut number = 1;
    for line in lines {
        world = pass_line(alloc, rules, world, number, line, pieces, sink)?;
        number += 1;
    }
    Ok(world)
}

// All behind the first line.
fn pass_played<K: Sink>(
    alloc: Global,
    rules: &Rules,
    config: Config,
    lines: &[Line],
    pieces: &mut MemSink,
    sink: &mut K,
) -> Result<(), ReportFault>
    requires config { ConfigFits config }
    requires few { length lines.now ≤ 20000 }
    requires lines { AllByRecursion (LineFits (length config.types)) lines.now }
    ensures bytes { Passes
        (written_of pieces.old ++ played_text (bounds_of rules.now) (run_at_start config) lines.now)
        (written_of pieces.new) (K.written sink.old) (K.written sink.new) result }
    ensures faults { CountsFault (K.faults sink.old) (K.faults sink.new) result }
{
    let world = World::start(alloc, config)?;
    let world = pass_lines(alloc, rules, world, lines, pieces, sink)?;
    in_memory(last(alloc, &world, pieces))?;
    Ok(())
}

/// Plays a scenario by the rules and writes its report, in pieces of some 64 KB. After an error a front of
/// the report was written. `Failed` comes exactly where the sink failed.
pub fn write_report<K: Sink>(
    alloc: Global,
    rules: &Rules,
    scenario: Scenario,
    sink: &mut K,
) -> Result<(), ReportFault>
    requires { Fits scenario }
    ensures bytes { Writes
        (K.written sink.old) (K.written sink.new) result (text (bounds_of rules.now) scenario) }
    ensures failed { IsErrOf result ReportFault.Failed → Rose (K.faults sink.old) (K.faults sink.new) }
    ensures quiet { (IsErrOf result ReportFault.Failed → ⊥) → K.faults sink.new ≡ K.faults sink.old }
    ensures later { K.faults sink.old ≤ K.faults sink.new }
{
    let Scenario { config, lines } = scenario;
    let mut pieces = no_pieces(alloc);
    in_memory(head(alloc, &config, &mut pieces))?;
    pass_played(alloc, rules, config, lines.as_slice(), &mut pieces, sink)?;
    pass_all(alloc, &mut pieces, sink)
}
