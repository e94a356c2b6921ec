//! Plays the worked scenarios of its input, and names each whose report isn't the one that stands beside it.
//! At the end it tells how many it played.
#![tactic(auto)]

mod played;
mod rows;
mod script;

use anyhow::Result;
use played::names_of_differing;
use rows::rows_in;
use std::io;
use std::process::ExitCode;

fn main(rt: HostRuntime) -> Result<ExitCode> {
    let alloc = rt.alloc();
    let text = io::read_to_string(alloc, rt.reader())?;
    let rows = rows_in(alloc, text.as_str())?;
    let names = names_of_differing(alloc, rows.as_slice())?;
    for name in &names {
        println!(rt; "{name}")?;
    }
    println!(rt; "{} rows played", rows.len())?;
    Ok(if names.is_empty() {
        ExitCode::SUCCESS
    } else {
        ExitCode::FAILURE
    })
}
