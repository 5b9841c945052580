//! How the process of a program starts: its words, its standard streams, and its exit status.
ghost use Rattle.std.specs.Prelude.{◌≡◌, ◌/◌, ◌%◌};

use crate::program::Program;
use crate::run::{NOT_COMPLETED, WRONG_WORDS, run_program};
use ffs_report::MutedWriter;
use ffs_volume::texts::CANNOT_ALLOC;
use std::io::{BufWriter, ErrorKind, LineWriter, Write};
use std::os::unix::fs::{FileTypeExt, MetadataExt};
use std::process::ExitCode;
use std::{env, fs};

/// The bytes of the output that are gathered before they are written.
const BUFFER_SIZE: usize = 65536;

/// The major number of the devices of memory: null(4), full(4), zero(4).
const MEMORY_DEVICES: u64 = 1;

/// Collects the words of the process, runs a program by them, and returns the exit status.
pub fn start<P: Program>(rt: &HostRuntime) -> ExitCode {
    let words: Vec<String> = match env::args(rt) {
        Ok(words) => match words.collect(rt.alloc()) {
            Ok(words) => words,
            Err(_) => return no_memory(rt),
        },
        Err(error) if error.kind() == ErrorKind::OutOfMemory => return no_memory(rt),
        Err(_) => {
            let _ = rt.stderr().write_all(b"error: a word is not text\n");
            return ExitCode::from(WRONG_WORDS);
        }
    };
    let mut texts: Vec<&str> = Vec::new(rt.alloc());
    for word in words.iter().skip(1) {
        if texts.push(word.as_str()).is_err() {
            return no_memory(rt);
        }
    }
    start_by::<P>(rt, texts.as_slice())
}

/// Runs a program over a buffer for standard output, which has none of its own.
fn start_by<P: Program>(rt: &HostRuntime, words: &[&str]) -> ExitCode {
    let mut system = *rt;
    let mut errors = MutedWriter::new(rt.stderr());
    let stdout = MutedWriter::new(rt.stdout());
    let status = if is_watched(rt) {
        let Ok(mut out) = LineWriter::with_capacity(rt.alloc(), BUFFER_SIZE, stdout) else {
            return no_memory(rt);
        };
        run_program::<P, _, _, _>(&mut system, rt.alloc(), words, &mut out, &mut errors)
    } else {
        let Ok(mut out) = BufWriter::with_capacity(rt.alloc(), BUFFER_SIZE, stdout) else {
            return no_memory(rt);
        };
        run_program::<P, _, _, _>(&mut system, rt.alloc(), words, &mut out, &mut errors)
    };
    ExitCode::from(status)
}

/// Whether standard output is taken for a terminal, where somebody may wait for each line: it is a
/// character device, and none of memory, such as /dev/null.
fn is_watched(rt: &HostRuntime) -> bool {
    match fs::metadata(rt, "/dev/stdout") {
        Ok(metadata) => {
            metadata.file_type().is_char_device() && major(metadata.rdev()) != MEMORY_DEVICES
        }
        Err(_) => false,
    }
}

/// The major number of a device (makedev(3)).
fn major(device: u64) -> u64
    ensures { result ≡ device / 256 % 4096 }
{
    device / 256 % 4096
}

/// Reports that memory was refused before the program ran.
fn no_memory(rt: &HostRuntime) -> ExitCode {
    let _ = rt.stdout().write_all(CANNOT_ALLOC);
    ExitCode::from(NOT_COMPLETED)
}
