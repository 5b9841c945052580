//! After its first failed write nothing goes out, whatever is flushed or dropped above.

use crate::compare::same;
use ffs_report::{Counted, Heading, Line, MutedWriter, Output, Report};
use std::alloc::Global;
use std::io;
use std::io::{BufWriter, ErrorKind, Write};
use std::test::Fail;

/// A writer whose n-th write fails, and no other. It keeps what the others took.
#[derive(Drop)]
struct FailsOnce {
    nth: u64,
    kind: ErrorKind,
    writes: u64,
    flushes: u64,
    taken: Vec<u8>,
}

impl FailsOnce {
    fn new(alloc: Global, nth: u64, kind: ErrorKind) -> FailsOnce {
        FailsOnce {
            nth,
            kind,
            writes: 0,
            flushes: 0,
            taken: Vec::new(alloc),
        }
    }
}

impl Write for FailsOnce {
    fn write(&mut self, buf: &[u8]) -> io::Result<usize> {
        self.writes = self.writes.saturating_add(1);
        if self.writes == self.nth {
            return Err(io::Error::from(self.kind));
        }
        self.taken.write(buf)
    }

    fn flush(&mut self) -> io::Result<()> {
        self.flushes = self.flushes.saturating_add(1);
        Ok(())
    }
}

const TEXT: &[u8] =
    b"** Phase 1 - Check Blocks and Sizes\n** Phase 1 - Check Blocks and Sizes\n** Phase 1 - Check Blocks and Sizes\n** Phase 1 - Check Blocks and Sizes\n";

/// Says a line four times, and flushes.
fn say_four<W: Output>(out: &mut W) -> bool {
    let mut report = Report::new(out);
    let mut fine = true;
    for _ in 0..4 {
        fine &= report.say(&Line::Heading(Heading::Phase1)).is_ok();
    }
    fine
}

/// What came of four lines whose n-th write fails, and of a flush.
#[derive(Drop)]
struct Outcome {
    said: bool,
    flushed: bool,
    device: FailsOnce,
}

fn four_lines(nth: u64, kind: ErrorKind, alloc: Global) -> Result<Outcome, Fail> {
    let mut device = FailsOnce::new(alloc, nth, kind);
    let muted = MutedWriter::new(&mut device);
    let mut out = BufWriter::with_capacity(alloc, 40, muted)?;
    let said = say_four(&mut Counted::new(&mut out));
    let flushed = out.flush().is_ok();
    drop(out);
    Ok(Outcome {
        said,
        flushed,
        device,
    })
}

#[test]
fn nothing_follows_a_failed_write(rt: HostRuntime) -> Result<(), Fail> {
    for nth in 1..4 {
        let found = four_lines(nth, ErrorKind::StorageFull, rt.alloc())?;
        same(&rt, &(found.said, found.flushed), &(false, false));
        same(&rt, &(found.device.writes, found.device.flushes), &(nth, 0));
        same(&rt, &TEXT.starts_with(found.device.taken.as_slice()), &true);
    }
    Ok(())
}

#[test]
fn an_interrupted_write_is_tried_again(rt: HostRuntime) -> Result<(), Fail> {
    for nth in 1..4 {
        let found = four_lines(nth, ErrorKind::Interrupted, rt.alloc())?;
        same(&rt, &(found.said, found.flushed), &(true, true));
        same(&rt, &found.device.flushes, &1);
        same(&rt, &found.device.taken.as_slice(), &TEXT);
    }
    Ok(())
}

/// Whether an empty write, one of a byte, another empty one and a flush are fine.
fn written_to_none() -> [bool; 4] {
    let mut none: [u8; 0] = [];
    let mut writer = MutedWriter::new(none.as_mut_slice());
    [
        writer.write(b"").is_ok(),
        writer.write(b"a").is_ok(),
        writer.write(b"").is_ok(),
        writer.flush().is_ok(),
    ]
}

#[test]
fn a_write_that_takes_nothing_fails(rt: HostRuntime) -> Result<(), Fail> {
    same(&rt, &written_to_none(), &[true, false, false, false]);
    Ok(())
}

/// Which of two puts are fine, where the second write fails, how many of them failed, and the
/// device after them.
fn two_puts(kind: ErrorKind, alloc: Global) -> ([bool; 2], u64, FailsOnce) {
    let mut device = FailsOnce::new(alloc, 2, kind);
    let mut out = Counted::new(&mut device);
    let fine = [out.put(b"a").is_ok(), out.put(b"b").is_ok()];
    let failures = out.failures();
    drop(out);
    (fine, failures, device)
}

/// A write that fails isn't tried again by an output, not even one that a signal interrupts.
#[test]
fn a_put_is_one_write(rt: HostRuntime) -> Result<(), Fail> {
    for kind in [ErrorKind::StorageFull, ErrorKind::Interrupted] {
        let (fine, failures, device) = two_puts(kind, rt.alloc());
        same(&rt, &fine, &[true, false]);
        same(&rt, &[failures, device.writes], &[1, 2]);
        same(&rt, &device.taken.as_slice(), &b"a".as_slice());
    }
    Ok(())
}
