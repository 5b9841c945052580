//! Counts how often a check reads an image, phase by phase, beside the most reads that it may make:
//! `ffs_reads [-b sector] image..`.
//!
//! Of each image it prints its name, a row for each part of the check that ran, and a row for the
//! whole check, which is run once more. A row has the messages of the part (without its heading;
//! the opening's aren't counted, and the whole has all), its reads, the most of them
//! (`Report/Reads` of `ffs_volume`), and the one divided by the other. The status is 1 where a
//! part reads more often than its most, or where the parts don't add up to the whole.
#![tactic(auto)]

mod limits;
mod messages;
mod parts;
mod row;
mod table;
mod words;

use std::process::ExitCode;
use std::{env, io};
use table::Table;
use words::Words;

/// The status where an image can't be looked at.
const NOT_COMPLETED: u8 = 8;

/// The status of arguments that are refused.
const WRONG_WORDS: u8 = 2;

fn main(rt: HostRuntime) -> ExitCode {
    match count_all(&rt) {
        Ok(Some(true)) => ExitCode::SUCCESS,
        Ok(Some(false)) => ExitCode::FAILURE,
        Ok(None) => ExitCode::from(WRONG_WORDS),
        Err(error) => {
            let _ = eprintln!(rt; "ffs_reads: {error}");
            ExitCode::from(NOT_COMPLETED)
        }
    }
}

/// Counts the reads of the images that the arguments name, and returns whether all are within their
/// limits, or nothing where the arguments name none.
///
/// # Errors
/// An image that can't be opened, memory that was refused, and standard output that failed.
fn count_all(rt: &HostRuntime) -> io::Result<Option<bool>> {
    let arguments: Vec<String> = env::args(rt)?.skip(1).collect(rt.alloc())?;
    let Some(words) = Words::of(arguments.as_slice()) else {
        eprintln!(rt; "usage: ffs_reads [-b sector] image..")?;
        return Ok(None);
    };
    let mut is_within = true;
    for name in words.names {
        let table = Table::of(rt, name.as_str(), words.sector)?;
        table.print(rt, name.as_str())?;
        is_within &= table.is_within();
    }
    Ok(Some(is_within))
}
