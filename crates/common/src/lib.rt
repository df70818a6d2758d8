// The refusals of every call. Beside them, in specs/: outcomes, lists, bytes and bits that the definitions of every format share.
// Inner: no entry point.
#![tactic(auto)]

ghost use Rattle.std.specs.Prelude.{◌≡◌, Some};
ghost use Rattle.common.specs.Refusal.{number, refusal_text};

use std::fmt;

// Why a call does not do its work, each by its number.
#[derive(Clone, Copy, Debug, PartialEq, Eq)]
pub enum Refusal {
    // a bitmap: under 6 bytes
    BitmapShort = 1,
    // its version is not 1
    BitmapVersion = 2,
    // over 8,192 containers
    BitmapContainers = 3,
    // a chunk of descriptors is cut short
    ChunkCut = 4,
    // b1, b2, e break the width rules
    ChunkWidths = 5,
    // exception offsets that do not rise, or are not below n
    ChunkOffsets = 6,
    // spare bits of a chunk are set
    ChunkSpare = 7,
    // a descriptor over 63
    ChunkDescriptor = 8,
    // the bytes after the descriptors are not exactly the containers
    BitmapRest = 9,
    // a sparse container that does not rise, or a dense one with under 32 members
    Container = 10,
    // the cardinality is not the number of members
    Cardinality = 11,
    // a list of positions that does not strictly rise, or one that is too large
    Positions = 12,
    // what is to be written is longer than its room
    Room = 13,
    // a bad schema
    Schema = 20,
    // a row block: under 4 bytes, or too long
    BlockLength = 21,
    // a row count that is negative or over 65,536, or offsets that do not fit
    BlockCount = 22,
    // rows and offsets do not touch
    BlockOffsets = 23,
    // a row's bytes are bad
    BlockRow = 24,
    // no such row or column, of a block, bucket or schema
    Absent = 25,
    // a bucket: the number of columns or of children is wrong or ill-formed
    BucketHeader = 30,
    // cut short
    BucketCut = 31,
    // a bad value, or an ill-formed length or number of entries
    BucketValue = 32,
    // a number of entries that is not 2 to 255, or an index past them
    BucketEntries = 33,
    // spare bits are set
    BucketSpare = 34,
    // a null in a NOT NULL column
    BucketNull = 35,
    // bytes are left over
    BucketRest = 36,
    // too long, or over 65,536 rows
    BucketLimit = 37,
    // a store: a slot number over 63
    StoreSlot = 40,
    // fetch or drop of an empty slot
    StoreEmpty = 41,
    // not forms lying apart, or saved bytes that are bad or do not fit
    StoreBad = 42,
    // a slot that is not the owner's
    StoreOwner = 44,
}

// A refusal's number.
impl From<Refusal> for u32 {
    ghost from_gives = { λ r n. n ≡ number r };

    fn from(r: Refusal) -> u32 {
        r as u32
    }
}

// The word refused and the number.
impl fmt::Display for Refusal {
    ghost output = { λ r. Some (refusal_text r) };

    fn fmt<W: fmt::Write>(&self, f: &mut fmt::Formatter<W>) -> fmt::Result {
        write!(f, "refused {}", u32::from(*self))
    }
}
