//! The program's one call: from the bytes read to the bytes written.

ghost use Rattle.std.specs.Prelude.{◌≡◌, ◌+◌, ◌≤◌, ◌⊎◌, ◌↔◌, Err, false, map, string_bytes, true, IsErrOf};
ghost use Rattle.std.specs.Io.KnownBytes.{Keeps};
ghost use Rattle.field_rules.specs.RuleBounds.{bounds_of};
ghost use Rattle.edge.specs.Causes.{Rose};
ghost use Rattle.edge.specs.Input.{ReadAtMost};
ghost use Rattle.edge.specs.Pieces.{Writes};
ghost use Rattle.report.specs.Report.{place_text};
ghost use Rattle.scenario.specs.declared.fault.ReadFault.TheVariants as faults;
ghost use Rattle.fission_play.specs.Played.{are_play, limit, ReadAs, ReadPastLimit, Reports, BeginsReport};
ghost use Rattle.fission_play.specs.Played.{TellsPlace, BeginsAnswer, Explains, may_come};
ghost use Rattle.fission_play.specs.Status.{code_of};

use crate::failure::Failure;
use crate::status::code_of;
use edge::{Input, Sink, Source, read_all, write_all};
use field_rules::Rules;
use report::{ReportFault, place_line, write_report};
use scenario::{ReadFault, read};
use std::alloc::Global;

/// The most bytes that are read.
pub const LIMIT: u64 = 4_194_304;

fn are_play(words: &[String]) -> bool
    ensures { result ≡ are_play (map string_bytes words.now) }
{
    match words {
        [word] => word.as_str() == "play",
        _ => false,
    }
}

// Writes the line that tells where JSON is no scenario.
fn write_place<K: Sink>(alloc: Global, place: u32, sink: &mut K) -> Result<(), ReportFault>
    ensures bytes { Writes (K.written sink.old) (K.written sink.new) result (place_text place) }
    ensures unwritten { IsErrOf result ReportFault.OutOfMemory →
        Keeps (K.written sink.old) (K.written sink.new) }
    ensures failed { IsErrOf result ReportFault.Failed → Rose (K.faults sink.old) (K.faults sink.new) }
    ensures quiet { (IsErrOf result ReportFault.Failed → ⊥) → K.faults sink.new ≡ K.faults sink.old }
{
    let line = place_line(alloc, place)?;
    write_all(sink, line.as_bytes())?;
    Ok(())
}

#[tactic(auto, using(crate::proofs::Statuses::statuses_come))]
fn play<S: Source, K: Sink>(
    alloc: Global,
    rules: &Rules,
    source: &mut S,
    sink: &mut K,
) -> Result<(), Failure>
    ensures explains { Explains (bounds_of rules.now) result (S.left source.old) (S.left source.new)
        (K.written sink.old) (K.written sink.new)
        (S.faults source.old) (S.faults source.new) (K.faults sink.old) (K.faults sink.new) }
    ensures statuses { may_come (S.left source.old) (code_of result) ≡ true }
    ensures taken { ReadAtMost (S.left source.old) (S.left source.new) (limit + 1) }
    ensures quiet_in { (code_of result ≡ 6 → ⊥) → S.faults source.new ≡ S.faults source.old }
    ensures quiet_out { (code_of result ≡ 7 → ⊥) → K.faults sink.new ≡ K.faults sink.old }
{
    let bytes = match read_all(alloc, source, LIMIT) {
        Input::Whole(bytes) => bytes,
        Input::TooLarge => return Err(Failure::TooLarge),
        Input::Failed => return Err(Failure::ReadFault),
        Input::OutOfMemory => return Err(Failure::Memory),
    };
    let scenario = match read(alloc, bytes.as_slice()) {
        Ok(scenario) => scenario,
        Err(ReadFault::OutOfMemory) => return Err(Failure::Memory),
        Err(ReadFault::Unread) => return Err(Failure::Unread),
        Err(ReadFault::Shape { place }) => {
            write_place(alloc, place, sink)?;
            return Err(Failure::Shape { place });
        }
    };
    write_report(alloc, rules, scenario, sink)?;
    Ok(())
}

/// Plays the scenario that the source holds by the rules, writes its report to the sink, and answers the exit
/// status.
#[tactic(auto, using(crate::proofs::Statuses::words_come))]
pub fn run<S: Source, K: Sink>(
    alloc: Global,
    words: &[String],
    rules: &Rules,
    source: &mut S,
    sink: &mut K,
) -> u8
    // The source was read to its end, and the bytes written are the report of the scenario that all its bytes
    // read as.
    ensures done { result ≡ 0 →
        Reports (bounds_of rules.now) (S.left source.old) (S.left source.new)
        (K.written sink.old) (K.written sink.new) }
    // Memory was wanting, and a front of the report was written, or nothing.
    ensures memory { result ≡ 1 → Keeps (K.written sink.old) (K.written sink.new)
        ⊎ BeginsReport (bounds_of rules.now) (S.left source.old) (S.left source.new)
        (K.written sink.old) (K.written sink.new) }
    // The words aren't the one word `play`, and then nothing was read or written.
    ensures words { (result ≡ 2) ↔ (are_play (map string_bytes words.now) ≡ false) }
    ensures untouched { result ≡ 2 → (source.new ≡ source.old) × (sink.new ≡ sink.old) }
    // The source was read to its end, all its bytes aren't JSON, and nothing was written.
    ensures unread { result ≡ 3 → ReadAs (S.left source.old) (S.left source.new) (Err faults.Unread)
        × Keeps (K.written sink.old) (K.written sink.new) }
    // The source was read to its end, all its bytes are JSON and no scenario, and the place of the first
    // fault was told.
    ensures shape { result ≡ 4 →
        TellsPlace (S.left source.old) (S.left source.new) (K.written sink.old) (K.written sink.new) }
    // One byte more was read than a scenario may have, and nothing was written.
    ensures too_large { result ≡ 5 → ReadPastLimit (S.left source.old) (S.left source.new)
        × Keeps (K.written sink.old) (K.written sink.new) }
    // The source failed, and nothing was written.
    ensures read_fault { result ≡ 6 → Rose (S.faults source.old) (S.faults source.new)
        × Keeps (K.written sink.old) (K.written sink.new) }
    // The sink failed, and a front of what is to be written was.
    ensures write_fault { result ≡ 7 → Rose (K.faults sink.old) (K.faults sink.new)
        × BeginsAnswer (bounds_of rules.now) (S.left source.old) (S.left source.new)
        (K.written sink.old) (K.written sink.new) }
    // There are no other statuses, and of each kind of bytes no others than its own: so 0, 3, 4 or 5 by the
    // bytes alone, or else 1, 2, 6 or 7 for their causes.
    ensures statuses { may_come (S.left source.old) result ≡ true }
    // At most one byte more was read than a scenario may have.
    ensures taken { (result ≡ 2 → ⊥) → ReadAtMost (S.left source.old) (S.left source.new) (limit + 1) }
    // The source failed at no other status than 6, and the sink at no other than 7.
    ensures quiet_in { (result ≡ 6 → ⊥) → S.faults source.new ≡ S.faults source.old }
    ensures quiet_out { (result ≡ 7 → ⊥) → K.faults sink.new ≡ K.faults sink.old }
{
    if !are_play(words) {
        return code_of(Err(Failure::Words));
    }
    code_of(play(alloc, rules, source, sink))
}
