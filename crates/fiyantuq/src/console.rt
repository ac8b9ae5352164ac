//! The console: the lines of a script, and the answer to each.
use crate::command::{Command, Fault, Keeping, read};
use crate::site::Site;
use commission::Side;
use std::io;

/// A site under a script, and what the script came to so far.
#[derive(Drop)]
pub struct Console {
    site: Site,
    line: u64,
    calls: u64,
    refused: u64,
    errors: u64,
}

impl Console {
    pub fn new() -> Console {
        Console {
            site: Site::new(Keeping::Table),
            line: 0,
            calls: 0,
            refused: 0,
            errors: 0,
        }
    }

    /// Reads one line of the script and answers it.
    pub fn take(&mut self, rt: &HostRuntime, line: &[u8]) -> anyhow::Result<()> {
        self.line = self.line.saturating_add(1);
        match read(rt.alloc(), line) {
            Ok(None) => Ok(()),
            Ok(Some(command)) => self.answer(rt, command),
            Err(fault @ Fault::Memory(_)) => Err(fault.into()),
            Err(fault) => Ok(self.fail(rt, fault)?),
        }
    }

    fn answer(&mut self, rt: &HostRuntime, command: Command) -> anyhow::Result<()> {
        if let Command::Roster(keeping) = command {
            if self.calls > 0 {
                return Ok(self.fail(rt, Fault::LateRoster)?);
            }
            self.site = Site::new(keeping);
        }
        self.calls = self.calls.saturating_add(1);
        let line = self.line;
        match self.site.obey(&command) {
            Ok(None) => println!(rt; "{line}: done")?,
            Ok(Some(Ok(users))) => println!(rt; "{line}: same users {users}")?,
            Ok(Some(Err(_))) => self.differences(rt)?,
            Err(refusal) => {
                self.refused = self.refused.saturating_add(1);
                let number = refusal.number();
                println!(rt; "{line}: refused {number} {refusal}")?
            }
        }
        Ok(())
    }

    fn differences(&self, rt: &HostRuntime) -> io::Result<()> {
        println!(rt; "{}: users differ", self.line)?;
        let mut after = 0;
        while let Some(difference) = self.site.difference_after(after) {
            after = difference.user.number;
            let side = match difference.side {
                Side::RadioList => "the radio list",
                Side::Sheets => "sheets",
            };
            println!(rt; "  user {after} on {side} only")?;
        }
        Ok(())
    }

    fn fail(&mut self, rt: &HostRuntime, fault: Fault<'_>) -> io::Result<()> {
        self.errors = self.errors.saturating_add(1);
        let line = self.line;
        println!(rt; "{line}: error: {fault}")
    }

    /// Says what was accomplished.
    pub fn close(&self, rt: &HostRuntime) -> io::Result<()> {
        println!(rt;
            "calls {} refused {} errors {}",
            self.calls, self.refused, self.errors
        )
    }
}
