// The types of the bucket readers. Inner: types and definitions (specs/), no entry point.
#![tactic(auto)]

ghost use Rattle.std.specs.Prelude.{◌≤◌};

// How a column's rows are stored, in the order of the tags 0 to 3.
#[derive(Clone, Copy, Debug, PartialEq, Eq)]
pub enum Encoding {
    Plain,
    Const,
    Dict,
    AllNull,
}

// Where a bucket's tags and has-nulls bits start, and its number of rows.
#[derive(Clone, Copy)]
pub struct Frame {
    pub tags: usize,
    pub has: usize,
    pub rows: usize,
    ghost few: { rows ≤ 65536 },
}

// The pieces of one column: how its rows are stored, and where its CONST value, its DICT table, its bitmap, if it has one, and its
// data start.
#[derive(Clone, Copy)]
pub struct Pieces {
    pub encoding: Encoding,
    pub start: usize,
    pub table: usize,
    pub nulls: Option<usize>,
    pub cells: usize,
}

// One part of a bucket: where each column's piece starts and the place of the byte after them.
#[derive(Drop)]
pub struct Part {
    pub next: usize,
    pub starts: [usize; 64],
}

// A judged bucket: its frame and where each column's pieces start. Four arrays, since each part of the layout fills one; an array of
// the four places would be filled by a pass of its own.
#[derive(Drop)]
pub struct Bucket {
    pub frame: Frame,
    pub consts: [usize; 64],
    pub tables: [usize; 64],
    pub nulls: [usize; 64],
    pub cells: [usize; 64],
}
