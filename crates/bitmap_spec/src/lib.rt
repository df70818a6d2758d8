// The bitmap format: the types that its definitions and its code share. The definitions are in specs/, their first laws in proofs/.
// Inner: no entry point.
#![tactic(auto)]

// A chunk's three header bytes, and where its three arrays start in the bitmap.
#[derive(Clone, Copy)]
pub struct ChunkHead {
    // the bits of a primary value
    pub b1: u32,
    // the bits of an exception part
    pub b2: u32,
    // how many exceptions there are
    pub e: usize,
    // what is added to every value
    pub m: u32,
    // the primary array
    pub primary: usize,
    // the exceptions' offsets
    pub offsets: usize,
    // the exceptions' parts
    pub parts: usize,
}

// The four ways to combine two sets. 01 calls the last one either-but-not-both.
#[derive(Clone, Copy)]
pub enum Operation {
    Union,
    Intersection,
    Difference,
    SymmetricDifference,
}

// Where a page listing stands between two calls: 01's place (the next position to look at) and finished mark.
#[derive(Clone, Copy, Default)]
pub struct Listing {
    pub place: u32,
    pub finished: bool,
}
