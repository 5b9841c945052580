//! The numbers of an accepted layout, each under its name in fs(5).

ghost use Rattle.std.specs.Prelude.{◌≡◌};

use crate::geometry::Geometry;

/// Each reader's documentation gives the place in the superblock, in bytes, and the width of the
/// field that it reads.
impl Geometry {
    /// How many fragments after `cgstart` a group's copy of the superblock is (place 8, i32).
    pub fn sblkno(&self) -> u32
        ensures { result ≡ self.now.layout.sblkno }
    {
        self.layout.sblkno
    }

    /// How many fragments after `cgstart` a group's group block is (place 12, i32).
    pub fn cblkno(&self) -> u32
        ensures { result ≡ self.now.layout.cblkno }
    {
        self.layout.cblkno
    }

    /// How many fragments after `cgstart` a group's inodes are (place 16, i32).
    pub fn iblkno(&self) -> u32
        ensures { result ≡ self.now.layout.iblkno }
    {
        self.layout.iblkno
    }

    /// How many fragments after `cgstart` a group's data begins (place 20, i32).
    pub fn dblkno(&self) -> u32
        ensures { result ≡ self.now.layout.dblkno }
    {
        self.layout.dblkno
    }

    /// By how many fragments the parts of group c are moved, for each 1 of the number `c & !cgmask`
    /// (place 24, i32).
    pub fn cgoffset(&self) -> i32
        ensures { result ≡ self.now.layout.cgoffset }
    {
        self.layout.cgoffset
    }

    /// Which bits of a group's number do not move its parts (place 28, u32).
    pub fn cgmask(&self) -> u32
        ensures { result ≡ self.now.layout.cgmask }
    {
        self.layout.cgmask
    }

    /// How many fragments the volume has (place 36, i32).
    pub fn size(&self) -> u32
        ensures { result ≡ self.now.layout.size }
    {
        self.layout.size
    }

    /// How many fragments can hold data (place 40, i32).
    pub fn dsize(&self) -> u32
        ensures { result ≡ self.now.layout.dsize }
    {
        self.layout.dsize
    }

    /// How many groups there are (place 44, i32).
    pub fn ncg(&self) -> u32
        ensures { result ≡ self.now.layout.ncg }
    {
        self.layout.ncg
    }

    /// The size of a block, in bytes (place 48, i32).
    pub fn bsize(&self) -> u32
        ensures { result ≡ self.now.layout.bsize }
    {
        self.layout.bsize
    }

    /// The size of a fragment, in bytes (place 52, i32).
    pub fn fsize(&self) -> u32
        ensures { result ≡ self.now.layout.fsize }
    {
        self.layout.fsize
    }

    /// How many fragments a block has (place 56, i32).
    pub fn frag(&self) -> u32
        ensures { result ≡ self.now.layout.frag }
    {
        self.layout.frag
    }

    /// The size of a superblock, in bytes (place 104, i32).
    pub fn sbsize(&self) -> u32
        ensures { result ≡ self.now.layout.sbsize }
    {
        self.layout.sbsize
    }

    /// How many addresses an indirect block holds (place 116, i32).
    pub fn nindir(&self) -> u32
        ensures { result ≡ self.now.layout.nindir }
    {
        self.layout.nindir
    }

    /// How many inodes a block of the inode table holds (place 120, i32).
    pub fn inopb(&self) -> u32
        ensures { result ≡ self.now.layout.inopb }
    {
        self.layout.inopb
    }

    /// The first fragment of the summary area (place 152, i32).
    pub fn csaddr(&self) -> u32
        ensures { result ≡ self.now.layout.csaddr }
    {
        self.layout.csaddr
    }

    /// The size of the summary area, in bytes (place 156, i32).
    pub fn cssize(&self) -> u32
        ensures { result ≡ self.now.layout.cssize }
    {
        self.layout.cssize
    }

    /// The size of a group block, in bytes (place 160, i32).
    pub fn cgsize(&self) -> u32
        ensures { result ≡ self.now.layout.cgsize }
    {
        self.layout.cgsize
    }

    /// How many cylinders the volume has (place 176, i32).
    pub fn ncyl(&self) -> u32
        ensures { result ≡ self.now.layout.ncyl }
    {
        self.layout.ncyl
    }

    /// How many cylinders a group has (place 180, i32).
    pub fn cpg(&self) -> u32
        ensures { result ≡ self.now.layout.cpg }
    {
        self.layout.cpg
    }

    /// How many inodes a group has (place 184, i32).
    pub fn ipg(&self) -> u32
        ensures { result ≡ self.now.layout.ipg }
    {
        self.layout.ipg
    }

    /// How many fragments a group has (place 188, i32).
    pub fn fpg(&self) -> u32
        ensures { result ≡ self.now.layout.fpg }
    {
        self.layout.fpg
    }

    /// Below which length, in bytes, the text of a symlink is in its inode (place 1320, i32).
    pub fn maxsymlinklen(&self) -> u32
        ensures { result ≡ self.now.layout.maxsymlinklen }
    {
        self.layout.maxsymlinklen
    }

    /// The format of inodes, which must be 2: that of 4.4BSD (place 1324, i32).
    pub fn inodefmt(&self) -> u32
        ensures { result ≡ self.now.layout.inodefmt }
    {
        self.layout.inodefmt
    }

    /// The format of the tables of rotational positions, which must be 1 (place 1356, i32).
    pub fn postblformat(&self) -> u32
        ensures { result ≡ self.now.layout.postblformat }
    {
        self.layout.postblformat
    }
}
