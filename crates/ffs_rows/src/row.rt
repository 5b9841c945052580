//! A worked row.

use crate::Tally;
use crate::areas::Areas;
use crate::watched::WatchedImage;
use ffs_check::args::Args;
use ffs_check::check::check;
use ffs_check::run::run;
use ffs_image::{Image, MemoryImage};
use ffs_report::Counted;
use ffs_volume::End;
use std::alloc::{AllocError, Global};
use std::io::Write;
use std::{fs, io};

/// An image, what a check of it is asked, and what it must print, and its status.
#[derive(Drop)]
pub struct Row {
    /// The name of its files in `data/`.
    pub name: String,
    /// The exit status that is expected.
    pub status: u8,
    /// The sector of the superblock that is asked for, of 512 bytes.
    pub sector: Option<u32>,
    /// The bytes of the image.
    pub image: Vec<u8>,
    /// The report that is expected.
    pub report: Vec<u8>,
}

impl Row {
    /// Reads the row of a line of the list: its name, its status, and the sector that is asked for.
    ///
    /// # Errors
    /// A file of the row that can't be read, and memory that was refused.
    pub fn read(rt: &HostRuntime, line: &str) -> io::Result<Row> {
        let mut words = line.split_whitespace();
        let name = String::from_str(rt.alloc(), words.next().unwrap_or(""))?;
        let status = words
            .next()
            .and_then(|word| word.parse().ok())
            .unwrap_or(255);
        let sector = words.next().and_then(|word| word.parse().ok());
        let image = fs::read(rt, format!(in rt.alloc(); "{name}.img")?)?;
        let report = fs::read(rt, format!(in rt.alloc(); "{name}.report")?)?;
        Ok(Row {
            name,
            status,
            sector,
            image,
            report,
        })
    }

    /// The row's image in memory.
    ///
    /// # Errors
    /// The memory was refused.
    pub fn in_memory(&self, alloc: Global) -> Result<MemoryImage, AllocError> {
        let mut bytes = Vec::new(alloc);
        bytes.extend_from_slice(self.image.as_slice())?;
        Ok(MemoryImage::new(bytes))
    }

    /// How a check of an image ends that is asked what the row asks, and what it prints.
    pub fn checked<I: Image>(&self, alloc: Global, image: &mut I) -> (End, Vec<u8>) {
        let args = Args {
            name: "t.img",
            sector: self.sector,
        };
        let mut text = Vec::new(alloc);
        let end = check(alloc, image, &args, &mut Counted::new(&mut text));
        (end, text)
    }

    /// The status of the program's run over the row's image in a file, which prints to `out`.
    ///
    /// # Errors
    /// The file can't be written, and memory that was refused.
    pub fn run_over_file<S: Write>(&self, rt: &HostRuntime, out: &mut S) -> io::Result<u8> {
        fs::write(rt, "t.img", self.image.as_slice())?;
        let mut system = *rt;
        let mut errors = Vec::new(rt.alloc());
        let status = match self.sector {
            None => run(&mut system, rt.alloc(), &["-n", "t.img"], out, &mut errors),
            Some(sector) => {
                let sector = format!(in rt.alloc(); "{sector}")?;
                let words = ["-n", "-b", sector.as_str(), "t.img"];
                run(&mut system, rt.alloc(), &words, out, &mut errors)
            }
        };
        Ok(status)
    }

    /// The row's image in memory, which watches its reads.
    ///
    /// # Errors
    /// The memory was refused.
    fn watched(&self, alloc: Global) -> Result<WatchedImage<MemoryImage>, AllocError> {
        let areas = Areas::new(self.image.as_slice(), self.sector);
        Ok(WatchedImage::new(self.in_memory(alloc)?, areas))
    }

    /// Compares the row with a check of its image in memory, of which each read covers no more than
    /// one part of the volume, and with a run over it in a file.
    ///
    /// # Errors
    /// A file that can't be written or read, and standard output that failed.
    pub fn compare(&self, rt: &HostRuntime, tally: &mut Tally) -> io::Result<()> {
        let name = self.name.as_str();
        let mut image = self.watched(rt.alloc())?;
        let (end, text) = self.checked(rt.alloc(), &mut image);
        let agrees = end.status() == self.status && text == self.report;
        tally.count(rt, name, "in memory", agrees)?;
        if let Some(read) = image.first_wrong() {
            println!(rt; "{name}: reads {} bytes at byte {}", read.bytes, read.place)?;
        }
        tally.count(rt, name, "its reads", image.first_wrong().is_none())?;
        let mut text = Vec::new(rt.alloc());
        let status = self.run_over_file(rt, &mut text)?;
        let agrees = status == self.status && text == self.report;
        tally.count(rt, name, "in a file", agrees)
    }
}
