//! Plays a scenario of JSON from standard input, and writes the report to standard output.
#![tactic(auto)]

ghost use Rattle.std.specs.Prelude.{◌≡◌, ◌+◌, ◌≤◌, ◌⊎◌, ◌↔◌, Err, false, map, string_bytes, true};
ghost use Rattle.std.specs.Prelude.{IfOk, IfErr};
ghost use Rattle.std.specs.Io.KnownBytes.{Keeps};
ghost use Rattle.std.specs.Process.{exit_status};
ghost use Rattle.field_rules.specs.RuleBounds.{bounds_of};
ghost use Rattle.edge.specs.Causes.{Rose};
ghost use Rattle.edge.specs.Input.{ReadAtMost};
ghost use Rattle.scenario.specs.declared.fault.ReadFault.TheVariants as faults;
ghost use Rattle.fission_play.specs.Played.{are_play, ReadAs, ReadPastLimit, Reports, BeginsReport};
ghost use Rattle.fission_play.specs.Played.{TellsPlace, BeginsAnswer, limit, may_come};

mod failure;
mod player;
mod status;

use edge::{Sink, Source, StdSink, StdSource};
use failure::Failure;
use field_rules::Rules;
use fission_ids::OutOfMemory;
use player::run;
use report::{full_zoom, text_zoom};
use status::{code_of, line_of};
use std::alloc::{Alloc, Global};
use std::env::Env;
use std::io::{Eprint, ErrorKind};
use std::process::ExitCode;
use std::{env, io};

// The program's words. Where one isn't UTF-8 there are none, since no command line with it is the program's.
fn words_of<R: Env + Alloc<A = Global>>(rt: &R) -> Result<Vec<String>, OutOfMemory> {
    let mut words = Vec::new(rt.alloc());
    match env::args(rt) {
        Ok(given) => {
            for word in given.skip(1) {
                words.push(word)?;
            }
            Ok(words)
        }
        Err(error) if error.kind() == ErrorKind::OutOfMemory => Err(OutOfMemory),
        Err(_) => Ok(words),
    }
}

// Runs the program on its words and by the rules, tells a person what came where that isn't 0, and gives the
// exit status: what `run` answered, or 1 where memory for the words was wanting, and then nothing was run. A
// fault in telling the line is passed over.
#[tactic(auto, using(crate::proofs::Statuses::memory_comes))]
fn ended<S: Source, K: Sink, P: Eprint>(
    alloc: Global,
    words: Result<Vec<String>, OutOfMemory>,
    rules: &Rules,
    source: &mut S,
    sink: &mut K,
    person: &P,
) -> ExitCode
    ensures done { exit_status result ≡ 0 →
        Reports (bounds_of rules.now) (S.left source.old) (S.left source.new)
        (K.written sink.old) (K.written sink.new) }
    ensures memory { exit_status result ≡ 1 → Keeps (K.written sink.old) (K.written sink.new)
        ⊎ BeginsReport (bounds_of rules.now) (S.left source.old) (S.left source.new)
        (K.written sink.old) (K.written sink.new) }
    ensures words { IfOk words (λ these.
        (exit_status result ≡ 2) ↔ (are_play (map string_bytes these.items) ≡ false)) }
    ensures no_words { IfErr words (λ _.
        (exit_status result ≡ 1) × (source.new ≡ source.old) × (sink.new ≡ sink.old)) }
    ensures untouched { exit_status result ≡ 2 → (source.new ≡ source.old) × (sink.new ≡ sink.old) }
    ensures unread { exit_status result ≡ 3 →
        ReadAs (S.left source.old) (S.left source.new) (Err faults.Unread)
        × Keeps (K.written sink.old) (K.written sink.new) }
    ensures shape { exit_status result ≡ 4 →
        TellsPlace (S.left source.old) (S.left source.new) (K.written sink.old) (K.written sink.new) }
    ensures too_large { exit_status result ≡ 5 → ReadPastLimit (S.left source.old) (S.left source.new)
        × Keeps (K.written sink.old) (K.written sink.new) }
    ensures read_fault { exit_status result ≡ 6 → Rose (S.faults source.old) (S.faults source.new)
        × Keeps (K.written sink.old) (K.written sink.new) }
    ensures write_fault { exit_status result ≡ 7 → Rose (K.faults sink.old) (K.faults sink.new)
        × BeginsAnswer (bounds_of rules.now) (S.left source.old) (S.left source.new)
        (K.written sink.old) (K.written sink.new) }
    ensures statuses { may_come (S.left source.old) (exit_status result) ≡ true }
    ensures taken { (exit_status result ≡ 2 → ⊥) →
        ReadAtMost (S.left source.old) (S.left source.new) (limit + 1) }
    ensures quiet_in { (exit_status result ≡ 6 → ⊥) → S.faults source.new ≡ S.faults source.old }
    ensures quiet_out { (exit_status result ≡ 7 → ⊥) → K.faults sink.new ≡ K.faults sink.old }
{
    let status = match words {
        Ok(words) => run(alloc, words.as_slice(), rules, source, sink),
        Err(OutOfMemory) => code_of(Err(Failure::Memory)),
    };
    if let Some(line) = line_of(status) {
        let _ = eprintln!(person; "{line}");
    }
    ExitCode::from(status)
}

fn main(rt: HostRuntime) -> ExitCode {
    let mut source = StdSource::new(rt.reader());
    let mut sink = StdSink::new(io::writer(&rt));
    let rules = Rules::new()
        .with_custom(0, 50, 300, full_zoom)
        .with_custom(1, 1, 0, text_zoom);
    ended(
        rt.alloc(),
        words_of(&rt),
        &rules,
        &mut source,
        &mut sink,
        &rt,
    )
}
