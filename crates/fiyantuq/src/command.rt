//! The commands of the console, and how a line is read.
ghost use Rattle.std.specs.Prelude.{◌<◌, IfSome};

use mcptt::McpttId;
use std::alloc::{AllocError, Global};
use std::str::{Utf8Error, from_utf8};
use thiserror::Error;

/// What keeps the documents of a site.
#[derive(Clone, Copy)]
pub enum Keeping {
    /// A table of 16 documents.
    Table,
    /// A store of 8 sheets.
    Sheets,
}

/// One command of a script.
#[derive(Drop)]
pub enum Command {
    Roster(Keeping),
    Enrol {
        user: McpttId,
        limit: u32,
        first_serial: u32,
    },
    Document(Vec<u8>),
    Commission,
}

/// Why a line is not carried out: what is wrong with it, and what was expected.
#[derive(Debug, Drop, Error)]
pub enum Fault<'a> {
    #[error("not UTF-8; expected text in UTF-8")]
    NotUtf8(#[from] Utf8Error),
    #[error("unknown command {0}; expected ROSTER, ENROL, DOCUMENT or COMMISSION")]
    UnknownCommand(&'a str),
    #[error("words after the command: {count}; expected {expected}")]
    Miscounted {
        count: usize,
        expected: &'static str,
    },
    #[error("no roster {0}; expected {expected}", expected = ROSTER)]
    NoRoster(&'a str),
    #[error("ROSTER after another command; expected ROSTER as the first command")]
    LateRoster,
    #[error("{0} is no number from 0 to 4294967295; expected {expected}", expected = ENROL)]
    NoNumber(&'a str),
    #[error("no hex digit at place {place} or the next; expected {expected}", expected = DOCUMENT)]
    NoHexDigit {
        place: usize,
    },
    #[error("an odd number of hex digits; expected {expected}", expected = DOCUMENT)]
    OddDigits,
    #[error("out of memory")]
    Memory(#[from(alloc)] AllocError),
}

const ROSTER: &str = "ROSTER TABLE or ROSTER SHEETS";

const ENROL: &str = "ENROL user n2 serial";

const DOCUMENT: &str = "DOCUMENT hex, two hex digits for each byte of the sheet";

const COMMISSION: &str = "COMMISSION alone";

/// The command of a line, none where the line is empty or a comment, or why it cannot be read.
pub fn read(heap: Global, line: &[u8]) -> Result<Option<Command>, Fault<'_>> {
    let text = from_utf8(line)?;
    let said = text.split_once('#').map_or(text, |(before, _)| before);
    let words: Vec<&str> = said.split_whitespace().collect(heap)?;
    let Some((first, rest)) = words.as_slice().split_first() else {
        return Ok(None);
    };
    let command = match *first {
        "ROSTER" => roster(rest)?,
        "ENROL" => enrol(rest)?,
        "DOCUMENT" => document(heap, rest)?,
        "COMMISSION" => commission(rest)?,
        other => return Err(Fault::UnknownCommand(other)),
    };
    Ok(Some(command))
}

fn roster<'a>(words: &[&'a str]) -> Result<Command, Fault<'a>> {
    let [kind] = words else {
        return Err(miscounted(words, ROSTER));
    };
    Ok(Command::Roster(Keeping::try_from(*kind)?))
}

impl<'a> TryFrom<&'a str> for Keeping {
    type Error = Fault<'a>;

    fn try_from(word: &'a str) -> Result<Keeping, Fault<'a>> {
        match word {
            "TABLE" => Ok(Keeping::Table),
            "SHEETS" => Ok(Keeping::Sheets),
            other => Err(Fault::NoRoster(other)),
        }
    }
}

fn enrol<'a>(words: &[&'a str]) -> Result<Command, Fault<'a>> {
    let [user, limit, first_serial] = words else {
        return Err(miscounted(words, ENROL));
    };
    Ok(Command::Enrol {
        user: McpttId {
            number: number(*user)?,
        },
        limit: number(*limit)?,
        first_serial: number(*first_serial)?,
    })
}

fn document<'a>(heap: Global, words: &[&'a str]) -> Result<Command, Fault<'a>> {
    let [hex] = words else {
        return Err(miscounted(words, DOCUMENT));
    };
    Ok(Command::Document(bytes(heap, hex.as_bytes())?))
}

fn commission<'a>(words: &[&'a str]) -> Result<Command, Fault<'a>> {
    if words.is_empty() {
        Ok(Command::Commission)
    } else {
        Err(miscounted(words, COMMISSION))
    }
}

fn miscounted<'a>(words: &[&'a str], expected: &'static str) -> Fault<'a> {
    Fault::Miscounted {
        count: words.len(),
        expected,
    }
}

/// A decimal number of 32 bits.
fn number(word: &str) -> Result<u32, Fault<'_>> {
    word.parse()
        .ok()
        .filter(|_| !word.starts_with('+'))
        .ok_or(Fault::NoNumber(word))
}

/// The bytes that hex digits spell.
fn bytes<'a>(heap: Global, digits: &[u8]) -> Result<Vec<u8>, Fault<'a>> {
    let (pairs, odd) = digits.as_chunks::<2>();
    let mut bytes = Vec::new(heap);
    for (i, [high, low]) in pairs.iter().enumerate() {
        let (Some(high), Some(low)) = (hex_digit(*high), hex_digit(*low)) else {
            return Err(Fault::NoHexDigit { place: 2 * i + 1 });
        };
        bytes.push(16 * high + low)?;
    }
    if odd.is_empty() {
        Ok(bytes)
    } else {
        Err(Fault::OddDigits)
    }
}

fn hex_digit(digit: u8) -> Option<u8>
    ensures { IfSome result (λ d. d < 16) }
{
    char::from(digit).to_digit(16).map(|value| value as u8)
}
