// The bench: reads a script on standard input and prints what the library answers, a line for each directive.
#![tactic(auto)]

mod carry;
mod directive;
mod error;
mod fields;
mod head_directive;
mod panel;
mod session_directive;
mod shown;
mod station;
mod value;

use anyhow::anyhow;
use carry::carry_out;
use directive::parse_line;
use error::ScriptError;
use station::Station;
use std::io;
use std::io::{BufRead, BufReader};

// Reads one line of the script and carries out its directive, if it has one.
fn obey(
    rt: &HostRuntime,
    station: &mut Station,
    line: io::Result<String>,
) -> Result<(), ScriptError> {
    let text = line?;
    match parse_line(rt.alloc(), text.as_str())? {
        Some(directive) => carry_out(rt, station, directive),
        None => Ok(()),
    }
}

// Carries out the script, up to its end or its first error.
fn run(rt: &HostRuntime, station: &mut Station) -> anyhow::Result<()> {
    let lines = BufReader::new(rt.alloc(), rt.stdin())?.lines(rt.alloc());
    for (number, line) in (1..=u64::MAX).zip(lines) {
        if let Err(error) = obey(rt, station, line) {
            eprintln!(rt; "error: line {number}: {error}")?;
            return Err(anyhow!("the script ends in an error"));
        }
    }
    Ok(())
}

fn main(rt: HostRuntime) -> anyhow::Result<()> {
    let mut station = Station::new(rt.alloc());
    let outcome = run(&rt, &mut station);
    station.close();
    outcome
}
