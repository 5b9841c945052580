//! What `ffs_find` is asked for, one call each: what is printed, and the status.

use crate::check::volume;
use crate::compare::same;
use ffs::{Counted, FuseMemory, Order, SystemMemory};
use ffs_finding::find_in;
use ffs_finding::request::{Command, Target};
use ffs_samples::{Number, ORDERS};
use std::alloc::{AllocError, Global};
use std::test::Fail;

/// The number of the request for memory that is refused: none of a command's.
const NONE_REFUSED: u64 = 99;

/// The status of a command over the volume with a root alone and one number more, and what it
/// prints; the k-th request for memory is refused.
fn found(
    order: Order,
    number: Number,
    command: Command,
    k: u64,
    alloc: Global,
) -> Result<(u8, Vec<u8>), AllocError> {
    let mut image = volume(order, &[number], alloc)?;
    let mut memory = FuseMemory::nth(SystemMemory::new(alloc), k);
    let mut text = Vec::new(alloc);
    let status = find_in(
        &mut memory,
        &mut image,
        command,
        &mut Counted::new(&mut text),
    );
    Ok((status, text))
}

/// A target in the volume whose superblock is at the usual place.
fn in_volume(target: Target) -> Command {
    Command::InVolume {
        target,
        sector: None,
    }
}

/// A number that changes nothing.
const AS_IT_IS: Number = (0, 1, 0);

/// A number that is put into the volume, what is looked for, the status, and what is printed. The
/// root's inode is the third one of the table at byte 28,672, and keeps fragment 36. The group's map
/// of fragments begins at byte 24,748; in the last row it has 37 to 39 as used.
static FOUND: [(Number, Target, u8, &[u8]); 5] = [
    (
        AS_IT_IS,
        Target::Inode { number: 2 },
        0,
        b"byte 28928\nclass directory\nmode 40755\nlinks 2\nsize 512\nblocks 2\nuid 0\nmtime 0\naddress 0 36 byte 36864\n",
    ),
    (
        AS_IT_IS,
        Target::Owner { fragment: 36 },
        0,
        b"inode 2 block 0\n",
    ),
    (AS_IT_IS, Target::Owner { fragment: 37 }, 0, b"free\n"),
    (AS_IT_IS, Target::Lost, 0, b""),
    ((24752, 1, 0x0e), Target::Lost, 1, b"lost 37 to 39\n"),
];

#[test]
fn targets_of_a_volume(rt: HostRuntime) -> Result<(), Fail> {
    for order in ORDERS {
        for &(number, target, status, text) in &FOUND {
            let command = in_volume(target);
            let (ended, printed) = found(order, number, command, NONE_REFUSED, rt.alloc())?;
            same(&rt, &printed.as_slice(), &text);
            same(&rt, &ended, &status);
        }
    }
    Ok(())
}

#[test]
fn copies_of_a_superblock(rt: HostRuntime) -> Result<(), Fail> {
    let (ended, printed) = found(
        Order::Little,
        AS_IT_IS,
        Command::Copies,
        NONE_REFUSED,
        rt.alloc(),
    )?;
    let copies: &[u8] = b"16 little 4096/1024 128 primary\n32 little 4096/1024 128 group 0\n";
    same(&rt, &printed.as_slice(), &copies);
    same(&rt, &ended, &0);
    Ok(())
}

#[test]
fn memory_refused(rt: HostRuntime) -> Result<(), Fail> {
    let command = in_volume(Target::Lost);
    let (ended, printed) = found(Order::Big, AS_IT_IS, command, 1, rt.alloc())?;
    let line: &[u8] = b"cannot alloc maps\n";
    same(&rt, &printed.as_slice(), &line);
    same(&rt, &ended, &8);
    Ok(())
}
