// The types of schemas, fields and values that row blocks and buckets share. Inner: types and definitions (specs/), no
// entry point.
#![tactic(auto)]

// Why a number or a value is not read: its bytes run out, or it breaks a rule.
#[derive(Clone, Copy, Debug, PartialEq, Eq)]
pub enum ReadFault {
    CutShort,
    IllFormed,
}

// A number that was read in groups of seven bits, the place of the next byte, and whether the form is the shortest.
#[derive(Clone, Copy)]
pub struct Varint {
    pub number: u32,
    pub next: usize,
    pub shortest: bool,
}

// What was read, and the place of the next byte.
#[derive(Clone, Copy)]
pub struct Read<T> {
    pub value: T,
    pub next: usize,
}

// A number that was read, as plain numbers: found 0 a number, 1 cut short, 2 ill-formed; the number, the bytes used,
// and 1 for the shortest form. What a case does not use is 0. The C interface hands on these numbers.
#[derive(Clone, Copy)]
pub struct NumberShown {
    pub found: u8,
    pub value: u32,
    pub used: u32,
    pub shortest: u8,
}

// A column's type, in the order of the ids 0 to 16.
#[derive(Clone, Copy)]
pub enum ColumnType {
    Boolean,
    TinyInt,
    SmallInt,
    Int,
    BigInt,
    Float,
    Double,
    Date,
    Char { length: u32 },
    Varchar { length: u32 },
    String,
    Binary { length: u32 },
    Varbinary { length: u32 },
    Bytes,
    Decimal { precision: u32, scale: u32 },
    Time { precision: u32 },
    Timestamp { precision: u32 },
}

// A column's type and whether it may be null.
#[derive(Clone, Copy)]
pub struct Column {
    pub ty: ColumnType,
    pub nullable: bool,
}

// The first count columns are the schema's; the others are blank. That count is at most 64 is asked where it is needed:
// as a ghost field it would ask for a proof in every definition that makes a schema.
#[derive(Clone, Copy)]
pub struct Schema {
    pub columns: [Column; 64],
    pub count: usize,
}

// A field's answer. A NaN cannot pass through f32 and f64: its stored bits are handed over as they are.
#[derive(Clone, Copy)]
pub enum Field {
    Null,
    Bool(bool),
    Whole(i64),
    F32(f32),
    F64(f64),
    NanF32(u32),
    NanF64(u64),
    Time { count: i64, nanos: u32 },
    Place { start: usize, len: usize },
}

// A field as plain numbers: kind 0 null, 1 yes or no (in whole), 2 whole number, 3 float and 4 double (their stored
// bits), 5 time (whole and nanos), 6 place (start and length). What a kind does not use is 0. The C interface hands on
// these numbers.
#[derive(Clone, Copy)]
pub struct Shown {
    pub kind: u8,
    pub whole: i64,
    pub bits: u64,
    pub nanos: u32,
    pub start: usize,
    pub length: usize,
}

// A type as plain numbers: its id, its length or precision, its scale; 0 where it has none. The C interface hands on
// these numbers.
#[derive(Clone, Copy)]
pub struct TypeShown {
    pub id: u8,
    pub size: u32,
    pub scale: u32,
}

// How a value is stored: whole numbers of 1, 2, 4 and 8 bytes; bytes after their length, at least so many; an 8-byte
// time with no nanoseconds, with a varint of them, or with 4 bytes of them.
#[derive(Clone, Copy)]
pub enum Storage {
    Boolean,
    Int8,
    Int16,
    Int32,
    Int64,
    Float32,
    Float64,
    Sized { least: u32 },
    Time,
    TimeVarint,
    TimeFixed,
}

// Of a page of a table: how many rows it gives, and how many there are.
#[derive(Clone, Copy)]
pub struct PageCounts {
    pub given: u32,
    pub rows: u32,
}
