//! Checks the worked images of `data/`, runs `ffs_find` over some of them, and prints where a text
//! or a status is not what is expected.
#![tactic(auto)]

mod areas;
mod faults;
mod find_rows;
mod lengths;
mod row;
mod watched;

use row::Row;
use std::{fs, io};

/// How many comparisons were made, and how many of them failed.
#[derive(Clone, Copy)]
pub struct Tally {
    compared: u64,
    failed: u64,
}

impl Tally {
    /// Counts a comparison, and prints what was compared where it failed.
    ///
    /// # Errors
    /// Standard output failed.
    pub fn count(
        &mut self,
        rt: &HostRuntime,
        name: &str,
        what: &str,
        agrees: bool,
    ) -> io::Result<()> {
        self.compared = self.compared.saturating_add(1);
        if agrees {
            return Ok(());
        }
        self.failed = self.failed.saturating_add(1);
        println!(rt; "{name}: {what}")
    }
}

fn main(rt: HostRuntime) -> io::Result<()> {
    let mut tally = Tally {
        compared: 0,
        failed: 0,
    };
    let list = fs::read_to_string(&rt, "rows.txt")?;
    for line in list.lines() {
        let row = Row::read(&rt, line)?;
        row.compare(&rt, &mut tally)?;
    }
    faults::compare(&rt, &mut tally)?;
    lengths::compare(&rt, &mut tally)?;
    find_rows::compare(&rt, &mut tally)?;
    println!(rt; "{} compared, {} failed", tally.compared, tally.failed)
}
