//! The lines of a report, each written by one call.

ghost use Rattle.std.specs.Prelude.{◌≡◌, ℕ, ◌<◌, List, length, string_bytes, IfOk};
ghost use Rattle.std.specs.Option.{option_copied};
ghost use Rattle.edge.specs.Pieces.{Writes};
ghost use Rattle.scenario.specs.declared.line.Line.TheVariants as lines;
ghost use Rattle.scenario.specs.Fits.{ActorFits, LineFits};
ghost use Rattle.report.specs.Passing.{CountsFault};
ghost use Rattle.report.specs.Report.{head_text, entry_text, settle_text, value_shown, process_shows};
ghost use Rattle.report.specs.Report.{shown_text, end_text};

use crate::fault::ReportFault;
use crate::lines::{end_line, entry_line, head_line, settle_line, show_line};
use crate::sides::{all_lines, side_lines};
use edge::{Sink, write_all};
use field_table::{Field, Value};
use fission_ids::{ContextId, OutOfMemory, ProcId};
use journal::Entry;
use scenario::{Actor, Show};
use std::alloc::Global;
use wire_msgs::Config;
use world::World;

// Writes a line, where memory sufficed to make it.
fn write_line<K: Sink>(line: Result<String, OutOfMemory>, sink: &mut K) -> Result<(), ReportFault>
    ensures bytes { (text : List ℕ) → IfOk line (λ s. string_bytes s ≡ text) →
        Writes (K.written sink.old) (K.written sink.new) result text }
    ensures faults { CountsFault (K.faults sink.old) (K.faults sink.new) result }
{
    let line = line?;
    write_all(sink, line.as_bytes())?;
    Ok(())
}

/// Writes the first line: how many processes and tabs there are. After an error a front of it was written.
/// `Failed` comes exactly where the sink failed.
pub fn head<K: Sink>(alloc: Global, config: &Config, sink: &mut K) -> Result<(), ReportFault>
    ensures bytes { Writes (K.written sink.old) (K.written sink.new) result (head_text config.now) }
    ensures faults { CountsFault (K.faults sink.old) (K.faults sink.new) result }
{
    write_line(head_line(alloc, config), sink)
}

/// Writes the line of a step and what it came to, under a number, or under `+` where none is given. After an
/// error a front of it was written. `Failed` comes exactly where the sink failed.
pub fn entry<K: Sink>(
    alloc: Global,
    mark: Option<u64>,
    entry: &Entry,
    sink: &mut K,
) -> Result<(), ReportFault>
    ensures bytes { Writes (K.written sink.old) (K.written sink.new) result
        (entry_text mark entry.now.step entry.now.answer) }
    ensures faults { CountsFault (K.faults sink.old) (K.faults sink.new) result }
{
    write_line(entry_line(alloc, mark, entry), sink)
}

/// Writes the line of a settle: how many deliveries it took. After an error a front of it was written.
/// `Failed` comes exactly where the sink failed.
pub fn settled<K: Sink>(
    alloc: Global,
    number: u64,
    count: usize,
    sink: &mut K,
) -> Result<(), ReportFault>
    ensures bytes { Writes (K.written sink.old) (K.written sink.new) result (settle_text number count) }
    ensures faults { CountsFault (K.faults sink.old) (K.faults sink.new) result }
{
    write_line(settle_line(alloc, number, count), sink)
}

// What one side shows of a field of a context.
fn value_shown(world: &World, who: Actor, context: ContextId, field: Field) -> Option<&Value>
    requires { ActorFits (length world.now.config.types) who }
    ensures { option_copied result ≡ value_shown world.now who context field }
{
    match who {
        Actor::Parent => world.parent().field(context, field),
        Actor::Process(p) => process_shows(world, p, context, field),
    }
}

// What a process shows of a field of a context.
fn process_shows(world: &World, p: ProcId, context: ContextId, field: Field) -> Option<&Value>
    requires { p.0 < length world.now.config.types }
    ensures { option_copied result ≡ process_shows world.now p.0 context field }
{
    world.content(p)?.field(context, field)
}

// The lines of what is shown.
fn show_lines(alloc: Global, number: u64, world: &World, show: Show) -> Result<String, OutOfMemory>
    requires { LineFits (length world.now.config.types) (lines.Show show) }
    ensures { IfOk result (λ s. string_bytes s ≡ shown_text number world.now show) }
{
    match show {
        Show::One {
            who,
            context,
            field,
        } => {
            let value = value_shown(world, who, context, field);
            show_line(alloc, number, who, context, field, value)
        }
        Show::Side { who } => side_lines(alloc, number, world, who),
        Show::All => all_lines(alloc, number, world),
    }
}

/// Writes what is shown: what one side shows of a field of a context, all that one side has, or all that each
/// side has. The lines are made in memory first. After an error a front of them was written. `Failed` comes
/// exactly where the sink failed.
pub fn shown<K: Sink>(
    alloc: Global,
    number: u64,
    world: &World,
    show: Show,
    sink: &mut K,
) -> Result<(), ReportFault>
    requires { LineFits (length world.now.config.types) (lines.Show show) }
    ensures bytes { Writes (K.written sink.old) (K.written sink.new) result
        (shown_text number world.now show) }
    ensures faults { CountsFault (K.faults sink.old) (K.faults sink.new) result }
{
    write_line(show_lines(alloc, number, world, show), sink)
}

/// Writes the last line: how many entries the journal has. After an error a front of it was written. `Failed`
/// comes exactly where the sink failed.
pub fn last<K: Sink>(alloc: Global, world: &World, sink: &mut K) -> Result<(), ReportFault>
    ensures bytes { Writes (K.written sink.old) (K.written sink.new) result
        (end_text (length world.now.journal)) }
    ensures faults { CountsFault (K.faults sink.old) (K.faults sink.new) result }
{
    write_line(end_line(alloc, world.journal().entries().len()), sink)
}
