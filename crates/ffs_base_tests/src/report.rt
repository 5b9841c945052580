//! The bytes of every line.
use crate::compare::same;
use ffs_report::{
    Counted, DirectoryLine, DotLine, EntryLine, FuseWriter, Heading, Line, Output, ReferenceLine,
    Report,
};
use ffs_volume::{Attr, BlockMessage, Label, SuperFault};
use std::alloc::Global;
use std::process::Abort;

const ATTR: Attr = Attr {
    number: 7,
    uid: 1001,
    mode: 0o40755,
    size: 512,
    mtime: 86400,
};

const FREE: Attr = Attr {
    number: 4294967295,
    uid: 0,
    mode: 0,
    size: 0,
    mtime: 0,
};

const LARGEST: Attr = Attr {
    number: 5,
    uid: 4294967295,
    mode: 0o100600,
    size: 18446744073709551615,
    mtime: -1,
};

const UNREF: ReferenceLine = ReferenceLine::Unref {
    label: Label::File,
    attr: LARGEST,
};

const UNREF_TEXT: &[u8] =
    b"UNREF FILE I=5 OWNER=4294967295 MODE=100600\nSIZE=18446744073709551615 MTIME=-1\nRECONNECT? no\n\nCLEAR? no\n\n";

/// Duplicates of inodes in turn, with 1 to 10 digits, and one line of another kind.
const DUPLICATES: &[u8] =
    b"0 DUP I=0\n1 DUP I=0\n12 DUP I=4294967295\n9 DUP I=4294967295\n123 DUP I=4294967294\n4294967295 DUP I=2\n1234 DUP I=2\nEXCESSIVE DUP BLKS I=2\nCONTINUE? yes\n\n1234 DUP I=3\n12345 DUP I=34\n123456 DUP I=345\n1234567 DUP I=3456\n12345678 DUP I=34567\n123456789 DUP I=345678\n1234567890 DUP I=3456789\n10 DUP I=34567890\n1000000000 DUP I=345678901\n4294967294 DUP I=34\n";

/// Whether a report of a line alone succeeds, and whether the line is a defect.
fn say_alone<W: Output>(line: &Line<'_>, out: &mut W) -> (bool, bool) {
    let mut report = Report::new(out);
    let is_said = report.say(line).is_ok();
    (is_said, report.any_defect())
}

/// The same, and the line's bytes.
fn said(line: &Line<'_>, alloc: Global) -> ((bool, bool), Vec<u8>) {
    let mut written = Vec::new(alloc);
    let found = say_alone(line, &mut Counted::new(&mut written));
    (found, written)
}

/// Says a line, and compares its bytes and whether it is a defect.
fn says(rt: &(impl Abort + AllocGlobal), line: &Line<'_>, defect: bool, text: &[u8]) {
    let (found, written) = said(line, rt.alloc());
    same(rt, &found, &(true, defect));
    same(rt, &written.as_slice(), &text);
}

/// A line, whether it is a defect, and its bytes.
type Said = (Line<'static>, bool, &'static [u8]);

fn say_all(rt: &(impl Abort + AllocGlobal), cases: &[Said]) {
    for (line, defect, text) in cases {
        says(rt, line, *defect, text);
    }
}

/// Every line, whether it is a defect, and its bytes.
static LINES: [Said; 75] = [
    // Lines about a superblock before the phases.
    (
        Line::Location { sector: 4194303 },
        false,
        b"Alternate super block location: 4194303\n",
    ),
    (
        Line::ImageName { name: "a\tb.img" },
        false,
        b"** a\tb.img (NO WRITE)\n",
    ),
    (
        Line::Mounted {
            mount: b"/m\x01\x1f \x7e\x7f\x80\xff",
        },
        false,
        b"** Last Mounted on /m?? ~?\x80\xff\n",
    ),
    (
        Line::Mounted { mount: b"" },
        false,
        b"** Last Mounted on \n",
    ),
    (
        Line::Optimization,
        true,
        b"UNDEFINED OPTIMIZATION IN SUPERBLOCK\nSET TO DEFAULT? no\n\n",
    ),
    (
        Line::Minfree { value: 100 },
        true,
        b"IMPOSSIBLE MINFREE=100 IN SUPERBLOCK\nSET TO DEFAULT? no\n\n",
    ),
    (
        Line::Minfree { value: -2147483648 },
        true,
        b"IMPOSSIBLE MINFREE=-2147483648 IN SUPERBLOCK\nSET TO DEFAULT? no\n\n",
    ),
    (
        Line::CannotRead {
            sector: 18446744073709551615,
        },
        false,
        b"CAN NOT READ: BLK 18446744073709551615\n",
    ),
    (Line::CannotAlloc, false, b"cannot alloc maps\n"),
    // Why a superblock is refused.
    (
        Line::BadSuper(SuperFault::CannotRead { sector: 16 }),
        false,
        b"CAN NOT READ: BLK 16\n",
    ),
    (
        Line::BadSuper(SuperFault::Magic),
        false,
        b"BAD SUPER BLOCK: MAGIC NUMBER WRONG\n",
    ),
    (
        Line::BadSuper(SuperFault::InodeFormat),
        false,
        b"BAD SUPER BLOCK: INODE FORMAT NOT SUPPORTED\n",
    ),
    (
        Line::BadSuper(SuperFault::Ncg),
        false,
        b"BAD SUPER BLOCK: NCG OUT OF RANGE\n",
    ),
    (
        Line::BadSuper(SuperFault::Cpg),
        false,
        b"BAD SUPER BLOCK: CPG OUT OF RANGE\n",
    ),
    (
        Line::BadSuper(SuperFault::Ncyl),
        false,
        b"BAD SUPER BLOCK: NCYL DOES NOT JIVE WITH NCG*CPG\n",
    ),
    (
        Line::BadSuper(SuperFault::TooLarge),
        false,
        b"BAD SUPER BLOCK: SIZE PREPOSTEROUSLY LARGE\n",
    ),
    (
        Line::BadSuper(SuperFault::Shape),
        false,
        b"BAD SUPER BLOCK: GEOMETRY OUT OF RANGE\n",
    ),
    (
        Line::BadSuper(SuperFault::Short),
        false,
        b"BAD SUPER BLOCK: SIZE LARGER THAN IMAGE\n",
    ),
    (
        Line::BadSuper(SuperFault::Disagree),
        false,
        b"BAD SUPER BLOCK: VALUES DISAGREE WITH LAST ALTERNATE\n",
    ),
    // Headings and summaries, which are no defects.
    (
        Line::Heading(Heading::Phase1),
        false,
        b"** Phase 1 - Check Blocks and Sizes\n",
    ),
    (
        Line::Heading(Heading::Phase1b),
        false,
        b"** Phase 1b - Rescan For More DUPS\n",
    ),
    (
        Line::Heading(Heading::Phase2),
        false,
        b"** Phase 2 - Check Pathnames\n",
    ),
    (
        Line::Heading(Heading::Phase3),
        false,
        b"** Phase 3 - Check Connectivity\n",
    ),
    (
        Line::Heading(Heading::Phase4),
        false,
        b"** Phase 4 - Check Reference Counts\n",
    ),
    (
        Line::Heading(Heading::Phase5),
        false,
        b"** Phase 5 - Check Cyl groups\n",
    ),
    (
        Line::Summary {
            files: 1,
            used: 1,
            free: 94,
            frags: 6,
            blocks: 22,
            tenths: 63,
        },
        false,
        b"1 files, 1 used, 94 free (6 frags, 22 blocks, 6.3% fragmentation)\n",
    ),
    (
        Line::Summary {
            files: 0,
            used: 0,
            free: -1,
            frags: -1,
            blocks: 0,
            tenths: -10,
        },
        false,
        b"0 files, 0 used, -1 free (-1 frags, 0 blocks, -1.0% fragmentation)\n",
    ),
    (
        Line::Summary {
            files: 0,
            used: 0,
            free: -1,
            frags: -1,
            blocks: 0,
            tenths: -5,
        },
        false,
        b"0 files, 0 used, -1 free (-1 frags, 0 blocks, -0.5% fragmentation)\n",
    ),
    // What is reported of blocks and of groups.
    (
        Line::Block(BlockMessage::PartAlloc { inode: 3 }),
        true,
        b"PARTIALLY ALLOCATED INODE I=3\nCLEAR? no\n\n",
    ),
    (
        Line::Block(BlockMessage::UnknownType { inode: 4 }),
        true,
        b"UNKNOWN FILE TYPE I=4\nCLEAR? no\n\n",
    ),
    (
        Line::Block(BlockMessage::Bad {
            fragment: 4294967295,
            inode: 4,
        }),
        true,
        b"4294967295 BAD I=4\n",
    ),
    (
        Line::Block(BlockMessage::Dup {
            fragment: 40,
            inode: 3,
        }),
        true,
        b"40 DUP I=3\n",
    ),
    (
        Line::Block(BlockMessage::Dup {
            fragment: 1,
            inode: 4294967295,
        }),
        true,
        b"1 DUP I=4294967295\n",
    ),
    (
        Line::Block(BlockMessage::Dup {
            fragment: 123,
            inode: 12345678,
        }),
        true,
        b"123 DUP I=12345678\n",
    ),
    (
        Line::Block(BlockMessage::ManyBad { inode: 3 }),
        true,
        b"EXCESSIVE BAD BLKS I=3\nCONTINUE? yes\n\n",
    ),
    (
        Line::Block(BlockMessage::ManyDup { inode: 3 }),
        true,
        b"EXCESSIVE DUP BLKS I=3\nCONTINUE? yes\n\n",
    ),
    (
        Line::Block(BlockMessage::PartTrunc { inode: 3 }),
        true,
        b"PARTIALLY TRUNCATED INODE I=3\nSALVAGE? no\n\n",
    ),
    (
        Line::Block(BlockMessage::BlockCount {
            inode: 3,
            found: 2,
            right: 8,
        }),
        true,
        b"INCORRECT BLOCK COUNT I=3 (2 should be 8)\nCORRECT? no\n\n",
    ),
    (
        Line::Block(BlockMessage::GroupMagic { group: 1 }),
        true,
        b"CG 1: BAD MAGIC NUMBER\n",
    ),
    (
        Line::Block(BlockMessage::FreeCounts),
        true,
        b"FREE BLK COUNT(S) WRONG IN SUPERBLK\nSALVAGE? no\n\n",
    ),
    (
        Line::Block(BlockMessage::MapsWrong),
        true,
        b"BLK(S) MISSING IN BIT MAPS\nSALVAGE? no\n\n",
    ),
    (
        Line::Block(BlockMessage::GroupSums),
        true,
        b"SUMMARY INFORMATION BAD\nSALVAGE? no\n\n",
    ),
    // What is reported of a directory as a whole.
    (
        Line::Directory(DirectoryLine::RootNone),
        true,
        b"ROOT INODE UNALLOCATED\nALLOCATE? no\n\n",
    ),
    (
        Line::Directory(DirectoryLine::RootNotDir),
        true,
        b"ROOT INODE NOT DIRECTORY\nREALLOCATE? no\n\nFIX? no\n\n",
    ),
    (
        Line::Directory(DirectoryLine::RootSuspect),
        true,
        b"DUPS/BAD IN ROOT INODE\nREALLOCATE? no\n\nCONTINUE? yes\n\n",
    ),
    (
        Line::Directory(DirectoryLine::DirShort {
            attr: ATTR,
            path: b"/d\n",
        }),
        true,
        b"DIRECTORY TOO SHORT I=7 OWNER=1001 MODE=40755\nSIZE=512 MTIME=86400\nDIR=/d?\nFIX? no\n\n",
    ),
    (
        Line::Directory(DirectoryLine::DirLength {
            path: b"/d\n",
            size: 513,
        }),
        true,
        b"DIRECTORY /d?: LENGTH 513 NOT MULTIPLE OF 512\nADJUST? no\n\n",
    ),
    (
        Line::Directory(DirectoryLine::DirHoles { path: b"/d\n" }),
        true,
        b"DIRECTORY /d?: CONTAINS EMPTY BLOCKS\nADJUST LENGTH? no\n\n",
    ),
    (
        Line::Directory(DirectoryLine::DirCorrupt {
            attr: ATTR,
            path: b"/d\n",
        }),
        true,
        b"DIRECTORY CORRUPTED I=7 OWNER=1001 MODE=40755\nSIZE=512 MTIME=86400\nDIR=/d?\nSALVAGE? no\n\n",
    ),
    // What is reported of the first two entries of a directory.
    (
        Line::Dot(DotLine::MissingDot {
            attr: ATTR,
            path: b"/d",
        }),
        true,
        b"MISSING '.' I=7 OWNER=1001 MODE=40755\nSIZE=512 MTIME=86400\nDIR=/d\nFIX? no\n\n",
    ),
    (
        Line::Dot(DotLine::MissingDotFirst {
            attr: ATTR,
            path: b"/d",
            name: b"x\x00",
        }),
        true,
        b"MISSING '.' I=7 OWNER=1001 MODE=40755\nSIZE=512 MTIME=86400\nDIR=/d\nCANNOT FIX, FIRST ENTRY IN DIRECTORY CONTAINS x?\n",
    ),
    (
        Line::Dot(DotLine::NumberDot {
            attr: ATTR,
            path: b"/d",
        }),
        true,
        b"BAD INODE NUMBER FOR '.' I=7 OWNER=1001 MODE=40755\nSIZE=512 MTIME=86400\nDIR=/d\nFIX? no\n\n",
    ),
    (
        Line::Dot(DotLine::TypeDot {
            attr: ATTR,
            path: b"/d",
        }),
        true,
        b"BAD TYPE VALUE FOR '.' I=7 OWNER=1001 MODE=40755\nSIZE=512 MTIME=86400\nDIR=/d\nFIX? no\n\n",
    ),
    (
        Line::Dot(DotLine::MissingDotdot {
            attr: ATTR,
            path: b"/d",
        }),
        true,
        b"MISSING '..' I=7 OWNER=1001 MODE=40755\nSIZE=512 MTIME=86400\nDIR=/d\nFIX? no\n\n",
    ),
    (
        Line::Dot(DotLine::MissingDotdotSecond {
            attr: ATTR,
            path: b"/d",
            name: b"x\x00",
        }),
        true,
        b"MISSING '..' I=7 OWNER=1001 MODE=40755\nSIZE=512 MTIME=86400\nDIR=/d\nCANNOT FIX, SECOND ENTRY IN DIRECTORY CONTAINS x?\n",
    ),
    (
        Line::Dot(DotLine::NumberDotdot {
            attr: ATTR,
            path: b"/d",
        }),
        true,
        b"BAD INODE NUMBER FOR '..' I=7 OWNER=1001 MODE=40755\nSIZE=512 MTIME=86400\nDIR=/d\nFIX? no\n\n",
    ),
    (
        Line::Dot(DotLine::TypeDotdot {
            attr: ATTR,
            path: b"/d",
        }),
        true,
        b"BAD TYPE VALUE FOR '..' I=7 OWNER=1001 MODE=40755\nSIZE=512 MTIME=86400\nDIR=/d\nFIX? no\n\n",
    ),
    (
        Line::Dot(DotLine::ExtraDot {
            attr: ATTR,
            path: b"/d",
        }),
        true,
        b"EXTRA '.' ENTRY I=7 OWNER=1001 MODE=40755\nSIZE=512 MTIME=86400\nDIR=/d\nFIX? no\n\n",
    ),
    (
        Line::Dot(DotLine::ExtraDotdot {
            attr: ATTR,
            path: b"/d",
        }),
        true,
        b"EXTRA '..' ENTRY I=7 OWNER=1001 MODE=40755\nSIZE=512 MTIME=86400\nDIR=/d\nFIX? no\n\n",
    ),
    // What is reported of another entry.
    (
        Line::Entry(EntryLine::OutOfRange {
            number: 32,
            path: b"/d/\x0b",
        }),
        true,
        b"I OUT OF RANGE I=32\nNAME=/d/?\nREMOVE? no\n\n",
    ),
    (
        Line::Entry(EntryLine::BadWhiteout {
            number: 1,
            path: b"/d/\x0b",
        }),
        true,
        b"BAD WHITEOUT ENTRY I=1\nNAME=/d/?\nFIX? no\n\n",
    ),
    (
        Line::Entry(EntryLine::Unallocated {
            attr: FREE,
            path: b"/d/\x0b",
        }),
        true,
        b"UNALLOCATED I=4294967295 OWNER=0 MODE=0\nSIZE=0 MTIME=0\nNAME=/d/?\nREMOVE? no\n\n",
    ),
    (
        Line::Entry(EntryLine::DupBad {
            label: Label::Dir,
            attr: ATTR,
            path: b"/d/\x0b",
        }),
        true,
        b"DUP/BAD I=7 OWNER=1001 MODE=40755\nSIZE=512 MTIME=86400\nDIR=/d/?\nREMOVE? no\n\n",
    ),
    (
        Line::Entry(EntryLine::DupBad {
            label: Label::File,
            attr: ATTR,
            path: b"/d/\x0b",
        }),
        true,
        b"DUP/BAD I=7 OWNER=1001 MODE=40755\nSIZE=512 MTIME=86400\nFILE=/d/?\nREMOVE? no\n\n",
    ),
    (
        Line::Entry(EntryLine::DupBad {
            label: Label::Name,
            attr: ATTR,
            path: b"/d/\x0b",
        }),
        true,
        b"DUP/BAD I=7 OWNER=1001 MODE=40755\nSIZE=512 MTIME=86400\nNAME=/d/?\nREMOVE? no\n\n",
    ),
    (
        Line::Entry(EntryLine::ZeroDir {
            attr: ATTR,
            path: b"/d/\x0b",
        }),
        true,
        b"ZERO LENGTH DIRECTORY I=7 OWNER=1001 MODE=40755\nSIZE=512 MTIME=86400\nDIR=/d/?\nREMOVE? no\n\n",
    ),
    (
        Line::Entry(EntryLine::Extraneous {
            path: b"/d/\x0b",
            dir_path: b"?\x0c",
        }),
        true,
        b"/d/? IS AN EXTRANEOUS HARD LINK TO DIRECTORY ??\nREMOVE? no\n\n",
    ),
    (
        Line::Entry(EntryLine::TypeEntry {
            label: Label::Name,
            attr: ATTR,
            path: b"/d/\x0b",
        }),
        true,
        b"BAD TYPE VALUE I=7 OWNER=1001 MODE=40755\nSIZE=512 MTIME=86400\nNAME=/d/?\nFIX? no\n\n",
    ),
    // What is reported of the references of an inode.
    (
        Line::Reference(ReferenceLine::UnrefDir { attr: ATTR }),
        true,
        b"UNREF DIR I=7 OWNER=1001 MODE=40755\nSIZE=512 MTIME=86400\nRECONNECT? no\n\n",
    ),
    (
        Line::Reference(ReferenceLine::DeadMarked {
            label: Label::Dir,
            attr: ATTR,
        }),
        true,
        b"BAD/DUP DIR I=7 OWNER=1001 MODE=40755\nSIZE=512 MTIME=86400\nCLEAR? no\n\n",
    ),
    (
        Line::Reference(ReferenceLine::DeadZero { attr: ATTR }),
        true,
        b"ZERO LENGTH DIR I=7 OWNER=1001 MODE=40755\nSIZE=512 MTIME=86400\nCLEAR? no\n\n",
    ),
    (Line::Reference(UNREF), true, UNREF_TEXT),
    (
        Line::Reference(ReferenceLine::UnrefZero {
            label: Label::Name,
            attr: FREE,
        }),
        true,
        b"UNREF FILE I=4294967295 OWNER=0 MODE=0\nSIZE=0 MTIME=0\nCLEAR? no\n\n",
    ),
    (
        Line::Reference(ReferenceLine::LinkCount {
            label: Label::Name,
            attr: ATTR,
            count: -32768,
            right: 18446744073709551615,
        }),
        true,
        b"LINK COUNT FILE I=7 OWNER=1001 MODE=40755\nSIZE=512 MTIME=86400\nCOUNT=-32768 SHOULD BE 18446744073709551615\nADJUST? no\n\n",
    ),
    (
        Line::Reference(ReferenceLine::LinkCount {
            label: Label::Dir,
            attr: ATTR,
            count: 3,
            right: 2,
        }),
        true,
        b"LINK COUNT DIR I=7 OWNER=1001 MODE=40755\nSIZE=512 MTIME=86400\nCOUNT=3 SHOULD BE 2\nADJUST? no\n\n",
    ),
];

#[test]
fn says_every_line(rt: HostRuntime) {
    say_all(&rt, &LINES);
}

/// The duplicates whose lines are those of `DUPLICATES`, before its line of another kind and after
/// it: a fragment, an inode.
static BEFORE: [(u32, u32); 7] = [
    (0, 0),
    (1, 0),
    (12, 4294967295),
    (9, 4294967295),
    (123, 4294967294),
    (4294967295, 2),
    (1234, 2),
];

static AFTER: [(u32, u32); 10] = [
    (1234, 3),
    (12345, 34),
    (123456, 345),
    (1234567, 3456),
    (12345678, 34567),
    (123456789, 345678),
    (1234567890, 3456789),
    (10, 34567890),
    (1000000000, 345678901),
    (4294967294, 34),
];

/// Says duplicates on a report that continues.
fn say_dups<W: Output>(report: &mut Report<'_, W>, dups: &[(u32, u32)]) -> bool {
    let mut is_said = true;
    for &(fragment, inode) in dups {
        let line = Line::Block(BlockMessage::Dup { fragment, inode });
        is_said &= report.say(&line).is_ok();
    }
    is_said
}

/// Whether all lines are said, whether they are defects, and their bytes.
fn dups_said(alloc: Global) -> ([bool; 3], bool, Vec<u8>) {
    let mut written = Vec::new(alloc);
    let mut out = Counted::new(&mut written);
    let mut report = Report::new(&mut out);
    let many = Line::Block(BlockMessage::ManyDup { inode: 2 });
    let said = [
        say_dups(&mut report, &BEFORE),
        report.say(&many).is_ok(),
        say_dups(&mut report, &AFTER),
    ];
    let is_defect = report.any_defect();
    (said, is_defect, written)
}

#[test]
fn reports_duplicates_of_inodes_in_turn(rt: HostRuntime) {
    let (said, is_defect, written) = dups_said(rt.alloc());
    same(&rt, &(said, is_defect), &([true; 3], true));
    same(&rt, &written.as_slice(), &DUPLICATES);
}

/// Whether each of two calls is refused, and no defect was said.
fn say_twice<W: Output>(line: &Line<'_>, out: &mut W) -> [bool; 3] {
    let mut report = Report::new(out);
    [
        report.say(line).is_err(),
        report.say(line).is_err(),
        !report.any_defect(),
    ]
}

/// The same where a writer takes this many bytes, how many writes failed, and what was written.
fn stopped(bytes: u64, alloc: Global) -> ([bool; 3], u64, Vec<u8>) {
    let mut writer = FuseWriter::new(Vec::new(alloc), bytes);
    let mut out = Counted::new(&mut writer);
    let found = say_twice(&Line::Reference(UNREF), &mut out);
    let failures = out.failures();
    (found, failures, writer.into_inner())
}

#[test]
fn stops_at_each_byte(rt: HostRuntime) {
    for bytes in 0..UNREF_TEXT.len() {
        let (found, failures, text) = stopped(bytes as u64, rt.alloc());
        same(&rt, &(found, failures), &([true; 3], 1));
        same(&rt, &text.as_slice(), &&UNREF_TEXT[..bytes]);
    }
}
