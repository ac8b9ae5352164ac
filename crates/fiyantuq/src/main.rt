//! The console of a site: checks its radio list against its group sheets, as a script says.
#![tactic(auto)]

mod command;
mod console;
mod site;

use anyhow::anyhow;
use console::Console;
use std::io::Read;
use std::{env, fs};

const HELP: &str =
    "fiyantuq [FILE ...]: carries out the script in the files, or from standard input.
One command a line, # starts a comment, numbers are decimal:
  ROSTER TABLE | ROSTER SHEETS   what keeps the documents; before any other command, TABLE without it
  ENROL user n2 serial           puts a user on the radio list
  DOCUMENT hex                   reads a group sheet of 512 bytes and takes its document
  COMMISSION                     do the radio list and the sheets name the same users?
";

/// The bytes of a file, or why it cannot be read.
fn script(rt: &HostRuntime, file: &str) -> anyhow::Result<Vec<u8>> {
    fs::read(rt, file).map_err(|error| anyhow!("cannot read {file}: {error}"))
}

/// Has the console take the lines of a script one by one.
fn carry_out(rt: &HostRuntime, console: &mut Console, script: &[u8]) -> anyhow::Result<()> {
    for line in script.split_inclusive(|byte| *byte == b'\n') {
        console.take(rt, line.strip_suffix(b"\n").unwrap_or(line))?;
    }
    Ok(())
}

fn run(rt: &HostRuntime) -> anyhow::Result<()> {
    let mut console = Console::new();
    let mut files = env::args(rt)?.skip(1).peekable();
    if files.peek().is_none() {
        let mut script = Vec::new(rt.alloc());
        rt.stdin().read_to_end(&mut script)?;
        carry_out(rt, &mut console, script.as_slice())?;
    }
    for file in files {
        if matches!(file.as_str(), "--help" | "-h") {
            rt.print(HELP)?;
            return Ok(());
        }
        let script = script(rt, file.as_str())?;
        carry_out(rt, &mut console, script.as_slice())?;
    }
    console.close(rt)?;
    Ok(())
}

fn main(rt: HostRuntime) -> anyhow::Result<()> {
    run(&rt)
}
