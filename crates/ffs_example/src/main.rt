//! The check as a library: an image that lies in memory is checked, its report is kept in memory
//! too, and both are printed with how the check ended. Then the same is done part by part.
#![tactic(auto)]

mod parts;

use ffs::{Args, Counted, End, MemoryImage, check};
use std::{fs, io};

fn main(rt: HostRuntime) -> io::Result<()> {
    // The bytes can be of anywhere: here they are a file's. (A `FileImage` reads a file in place.)
    let bytes = fs::read(&rt, "shared_fragment.img")?;
    let mut image = MemoryImage::new(bytes);

    // A check prints to anything that bytes are written to.
    let mut report = Vec::new(rt.alloc());
    let args = Args {
        name: "an image in memory",
        sector: None,
    };
    let end = check(
        rt.alloc(),
        &mut image,
        &args,
        &mut Counted::new(&mut report),
    );

    println!(rt; "{}, status {}", verdict(&end), end.status())?;
    println!(rt; "The report has {} bytes:", report.len())?;
    rt.stdout().write_all(report.as_slice())?;
    parts::print_parts(&rt, &args, &mut image, report.as_slice())?;
    parts::print_three(&rt, &args, &mut image, report.as_slice())
}

/// What the end of a check says, in a word.
fn verdict(end: &End) -> &'static str {
    match end {
        End::Consistent => "Consistent",
        End::Defects => "Defects",
        End::Refused(_) => "The superblock is refused",
        End::RootStop => "Inode 2 is no directory",
        End::ReadFault(_) | End::WriteFault => "A read or a write failed",
        End::NoMemory => "Memory was refused",
    }
}
