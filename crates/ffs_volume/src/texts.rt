//! The texts of the messages of a report, each written once: the code takes them from here, and so
//! does `Messages/Texts` of the definitions, which says which message has which. A text with a
//! question has its answer too. `Can't open`, the texts for wrong words and those of `ffs_find`
//! aren't here, but where they are printed.

// What is printed of an inode, of a number and at a line's end.

pub const INODE: &[u8] = b"I=";

pub const OWNER: &[u8] = b" OWNER=";

pub const MODE: &[u8] = b" MODE=";

pub const SIZE: &[u8] = b"\nSIZE=";

pub const MTIME: &[u8] = b" MTIME=";

pub const DIR: &[u8] = b"DIR ";

pub const FILE: &[u8] = b"FILE ";

pub const PATH_OF_DIR: &[u8] = b"\nDIR=";

pub const PATH_OF_FILE: &[u8] = b"\nFILE=";

pub const PATH_OF_NAME: &[u8] = b"\nNAME=";

pub const LINE_END: &[u8] = b"\n";

// A line's end, and the question after it with its answer.

pub const ADJUST: &[u8] = b"\nADJUST? no\n\n";

pub const CLEAR: &[u8] = b"\nCLEAR? no\n\n";

pub const CONTINUE: &[u8] = b"\nCONTINUE? yes\n\n";

pub const FIX: &[u8] = b"\nFIX? no\n\n";

pub const RECONNECT: &[u8] = b"\nRECONNECT? no\n\n";

pub const RECONNECT_OR_CLEAR: &[u8] = b"\nRECONNECT? no\n\nCLEAR? no\n\n";

pub const REMOVE: &[u8] = b"\nREMOVE? no\n\n";

pub const SALVAGE: &[u8] = b"\nSALVAGE? no\n\n";

// The opening and the end.

pub const LOCATION: &[u8] = b"Alternate super block location: ";

pub const BEFORE_IMAGE_NAME: &[u8] = b"** ";

pub const NO_WRITE: &[u8] = b" (NO WRITE)\n";

pub const CANNOT_READ: &[u8] = b"CAN NOT READ: BLK ";

pub const CANNOT_ALLOC: &[u8] = b"cannot alloc maps\n";

pub const OPTIMIZATION: &[u8] = b"UNDEFINED OPTIMIZATION IN SUPERBLOCK\nSET TO DEFAULT? no\n\n";

pub const MINFREE: &[u8] = b"IMPOSSIBLE MINFREE=";

pub const SET_MINFREE: &[u8] = b" IN SUPERBLOCK\nSET TO DEFAULT? no\n\n";

pub const MOUNTED: &[u8] = b"** Last Mounted on ";

pub const PHASE1: &[u8] = b"** Phase 1 - Check Blocks and Sizes\n";

pub const PHASE1B: &[u8] = b"** Phase 1b - Rescan For More DUPS\n";

pub const PHASE2: &[u8] = b"** Phase 2 - Check Pathnames\n";

pub const PHASE3: &[u8] = b"** Phase 3 - Check Connectivity\n";

pub const PHASE4: &[u8] = b"** Phase 4 - Check Reference Counts\n";

pub const PHASE5: &[u8] = b"** Phase 5 - Check Cyl groups\n";

pub const FILES: &[u8] = b" files, ";

pub const USED: &[u8] = b" used, ";

pub const FREE: &[u8] = b" free (";

pub const FRAGS: &[u8] = b" frags, ";

pub const BLOCKS: &[u8] = b" blocks, ";

pub const POINT: &[u8] = b".";

pub const FRAGMENTATION: &[u8] = b"% fragmentation)\n";

// A superblock that is refused.

pub const MAGIC: &[u8] = b"BAD SUPER BLOCK: MAGIC NUMBER WRONG\n";

pub const INODE_FORMAT: &[u8] = b"BAD SUPER BLOCK: INODE FORMAT NOT SUPPORTED\n";

pub const NCG: &[u8] = b"BAD SUPER BLOCK: NCG OUT OF RANGE\n";

pub const CPG: &[u8] = b"BAD SUPER BLOCK: CPG OUT OF RANGE\n";

pub const NCYL: &[u8] = b"BAD SUPER BLOCK: NCYL DOES NOT JIVE WITH NCG*CPG\n";

pub const TOO_LARGE: &[u8] = b"BAD SUPER BLOCK: SIZE PREPOSTEROUSLY LARGE\n";

pub const SHAPE: &[u8] = b"BAD SUPER BLOCK: GEOMETRY OUT OF RANGE\n";

pub const SHORT: &[u8] = b"BAD SUPER BLOCK: SIZE LARGER THAN IMAGE\n";

pub const DISAGREE: &[u8] = b"BAD SUPER BLOCK: VALUES DISAGREE WITH LAST ALTERNATE\n";

// The block check and the check of cylinder groups.

pub const PART_ALLOC: &[u8] = b"PARTIALLY ALLOCATED INODE I=";

pub const UNKNOWN_TYPE: &[u8] = b"UNKNOWN FILE TYPE I=";

pub const BAD: &[u8] = b" BAD I=";

pub const DUP: &[u8] = b" DUP I=";

pub const MANY_BAD: &[u8] = b"EXCESSIVE BAD BLKS I=";

pub const MANY_DUP: &[u8] = b"EXCESSIVE DUP BLKS I=";

pub const PART_TRUNC: &[u8] = b"PARTIALLY TRUNCATED INODE I=";

pub const BLOCK_COUNT: &[u8] = b"INCORRECT BLOCK COUNT I=";

pub const FOUND: &[u8] = b" (";

pub const RIGHT: &[u8] = b" should be ";

pub const CORRECT: &[u8] = b")\nCORRECT? no\n\n";

pub const GROUP: &[u8] = b"CG ";

pub const GROUP_MAGIC: &[u8] = b": BAD MAGIC NUMBER\n";

pub const FREE_COUNTS: &[u8] = b"FREE BLK COUNT(S) WRONG IN SUPERBLK\nSALVAGE? no\n\n";

pub const MAPS_WRONG: &[u8] = b"BLK(S) MISSING IN BIT MAPS\nSALVAGE? no\n\n";

pub const GROUP_SUMS: &[u8] = b"SUMMARY INFORMATION BAD\nSALVAGE? no\n\n";

// A directory, with the questions of the root.

pub const ROOT_NONE: &[u8] = b"ROOT INODE UNALLOCATED\nALLOCATE? no\n\n";

pub const ROOT_NOT_DIR: &[u8] = b"ROOT INODE NOT DIRECTORY\nREALLOCATE? no\n\nFIX? no\n\n";

pub const ROOT_SUSPECT: &[u8] = b"DUPS/BAD IN ROOT INODE\nREALLOCATE? no\n\nCONTINUE? yes\n\n";

pub const DIR_SHORT: &[u8] = b"DIRECTORY TOO SHORT ";

pub const DIRECTORY: &[u8] = b"DIRECTORY ";

pub const DIR_LENGTH: &[u8] = b": LENGTH ";

pub const NOT_MULTIPLE: &[u8] = b" NOT MULTIPLE OF 512\nADJUST? no\n\n";

pub const CONTAINS_EMPTY_BLOCKS: &[u8] = b": CONTAINS EMPTY BLOCKS\nADJUST LENGTH? no\n\n";

pub const DIR_CORRUPT: &[u8] = b"DIRECTORY CORRUPTED ";

// The entries `.` and `..`.

pub const MISSING_DOT: &[u8] = b"MISSING '.' ";

pub const FIRST_ENTRY: &[u8] = b"\nCANNOT FIX, FIRST ENTRY IN DIRECTORY CONTAINS ";

pub const NUMBER_DOT: &[u8] = b"BAD INODE NUMBER FOR '.' ";

pub const TYPE_DOT: &[u8] = b"BAD TYPE VALUE FOR '.' ";

pub const MISSING_DOTDOT: &[u8] = b"MISSING '..' ";

pub const SECOND_ENTRY: &[u8] = b"\nCANNOT FIX, SECOND ENTRY IN DIRECTORY CONTAINS ";

pub const NUMBER_DOTDOT: &[u8] = b"BAD INODE NUMBER FOR '..' ";

pub const TYPE_DOTDOT: &[u8] = b"BAD TYPE VALUE FOR '..' ";

pub const EXTRA_DOT: &[u8] = b"EXTRA '.' ENTRY ";

pub const EXTRA_DOTDOT: &[u8] = b"EXTRA '..' ENTRY ";

// Further entries.

pub const OUT_OF_RANGE: &[u8] = b"I OUT OF RANGE I=";

pub const BAD_WHITEOUT: &[u8] = b"BAD WHITEOUT ENTRY I=";

pub const UNALLOCATED: &[u8] = b"UNALLOCATED ";

pub const DUP_BAD: &[u8] = b"DUP/BAD ";

pub const ZERO_DIR: &[u8] = b"ZERO LENGTH DIRECTORY ";

pub const EXTRANEOUS: &[u8] = b" IS AN EXTRANEOUS HARD LINK TO DIRECTORY ";

pub const TYPE_ENTRY: &[u8] = b"BAD TYPE VALUE ";

// Inodes by the entries that name them.

pub const UNREF_DIR: &[u8] = b"UNREF DIR ";

pub const UNREF: &[u8] = b"UNREF ";

pub const DEAD_MARKED: &[u8] = b"BAD/DUP ";

pub const DEAD_ZERO: &[u8] = b"ZERO LENGTH DIR ";

pub const LINK_COUNT: &[u8] = b"LINK COUNT ";

pub const COUNT: &[u8] = b"\nCOUNT=";

pub const SHOULD_BE: &[u8] = b" SHOULD BE ";
