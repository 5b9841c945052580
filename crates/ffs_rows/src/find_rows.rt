//! Runs of `ffs_find` over worked images.

use crate::Tally;
use ffs_finding::run::run;
use std::{fs, io};

/// Runs the rows of `find_rows.txt` as `ffs_find` does, each by its words over an image in a file,
/// and counts whether its text and its status are those that are expected.
///
/// # Errors
/// A text that can't be read, memory that was refused, and standard output that failed.
pub fn compare(rt: &HostRuntime, tally: &mut Tally) -> io::Result<()> {
    let list = fs::read_to_string(rt, "find_rows.txt")?;
    for line in list.lines() {
        let agrees = is_right(rt, line)?;
        tally.count(rt, line, "ffs_find", agrees)?;
    }
    Ok(())
}

/// Whether a row has the text and the status that are expected. A line has the name of the text,
/// the status, and the words. What goes to standard error follows what goes to standard output.
///
/// # Errors
/// A text that can't be read, and memory that was refused.
fn is_right(rt: &HostRuntime, line: &str) -> io::Result<bool> {
    let mut parts = line.split_whitespace();
    let name = parts.next().unwrap_or("");
    let status = parts
        .next()
        .and_then(|word| word.parse().ok())
        .unwrap_or(255);
    let mut words: Vec<&str> = Vec::new(rt.alloc());
    for word in parts {
        words.push(word)?;
    }
    let expected = fs::read(rt, format!(in rt.alloc(); "{name}.text")?)?;
    let mut text = Vec::new(rt.alloc());
    let mut errors = Vec::new(rt.alloc());
    let mut system = *rt;
    let ended = run(
        &mut system,
        rt.alloc(),
        words.as_slice(),
        &mut text,
        &mut errors,
    );
    text.extend_from_slice(errors.as_slice())?;
    Ok(ended == status && text == expected)
}
