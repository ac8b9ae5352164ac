//! A host's call set-up: it begins an implicit affiliation, and completes or cancels it on every way out.
#![tactic(auto)]

use mcptt::{ClientId, GroupId, McpttId, Refusal, Settings};
use serving::Serving;
use std::io;

/// A radio that calls a group, and the SIP answers that come back.
#[derive(Clone, Copy)]
struct Attempt {
    user: McpttId,
    radio: ClientId,
    group: GroupId,
    answers: [u16; 3],
}

/// The first final answer, none where all were provisional; refusal 5 for what is no SIP code.
fn final_answer(answers: &[u16]) -> Result<Option<u16>, Refusal> {
    let first = answers
        .iter()
        .copied()
        .find(|code| !matches!(code, 100..=199));
    match first {
        None | Some(200..=699) => Ok(first),
        Some(_) => Err(Refusal::NumberOutOfRange),
    }
}

/// Begins the affiliation and waits for a final answer: a 2xx completes it, any other cancels it, and
/// so do silence and an answer that is none.
fn set_up(serving: &mut Serving, attempt: &Attempt) -> Result<bool, Refusal> {
    let pending = serving.begin(attempt.user, attempt.radio, attempt.group)?;
    match final_answer(&attempt.answers) {
        Ok(Some(200..=299)) => Ok(serving.complete(pending)),
        answer => {
            serving.cancel(pending);
            answer.map(|_| false)
        }
    }
}

fn call_of(radio: u32, group: u32, answers: [u16; 3]) -> Attempt {
    Attempt {
        user: McpttId { number: 7 },
        radio: ClientId { number: radio },
        group: GroupId { number: group },
        answers,
    }
}

fn main(rt: HostRuntime) -> io::Result<()> {
    let mut serving = Serving::new(Settings::usual());
    let _ = serving.enrol(McpttId { number: 7 }, 1, 1);
    let attempts = [
        call_of(1, 50, [100, 180, 200]),
        call_of(1, 50, [100, 180, 200]),
        call_of(2, 60, [100, 180, 200]),
        call_of(2, 50, [100, 180, 486]),
        call_of(2, 50, [100, 100, 100]),
        call_of(2, 50, [100, 7, 200]),
        call_of(5, 50, [200, 200, 200]),
    ];
    for attempt in &attempts {
        let radio = attempt.radio.number;
        let group = attempt.group.number;
        match set_up(&mut serving, attempt) {
            Ok(true) => println!(rt; "radio {radio} group {group}: affiliated")?,
            Ok(false) => println!(rt; "radio {radio} group {group}: cancelled")?,
            Err(refusal) => {
                let number = refusal.number();
                println!(rt; "radio {radio} group {group}: refused {number} {refusal}")?
            }
        }
    }
    Ok(())
}
