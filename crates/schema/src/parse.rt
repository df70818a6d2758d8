// A schema's bytes, descriptor by descriptor.
ghost use Rattle.std.specs.Prelude.{◌≡◌, ◌≤◌, [], Some};
ghost use Rattle.row_spec.specs.Read.{read};
ghost use Rattle.common.specs.Refusal.{outcome};
ghost use Rattle.row_spec.specs.Varint.{varint_at};
ghost use Rattle.row_spec.specs.Schema.{with_number, numbered, decimal, type_at, column_at, columns_from, schema};
ghost use Rattle.row_spec.specs.Schema.{held, blanks};

use common::Refusal;
use numbers::{has, varint};
use row_spec::{Column, ColumnType, Read, Schema};

// The type t with the number n for its own.
fn with_number(t: ColumnType, n: u32) -> ColumnType
    ensures { result ≡ with_number t n }
{
    match t {
        ColumnType::Char { .. } => ColumnType::Char { length: n },
        ColumnType::Varchar { .. } => ColumnType::Varchar { length: n },
        ColumnType::Binary { .. } => ColumnType::Binary { length: n },
        ColumnType::Varbinary { .. } => ColumnType::Varbinary { length: n },
        ColumnType::Time { .. } => ColumnType::Time { precision: n },
        ColumnType::Timestamp { .. } => ColumnType::Timestamp { precision: n },
        ColumnType::Decimal { precision, .. } => ColumnType::Decimal {
            precision,
            scale: n,
        },
        _ => t,
    }
}

// The type t with the number that stands at `at`, if that is at most `most`.
fn numbered_type(s: &[u8], at: usize, t: ColumnType, most: u32) -> Option<Read<ColumnType>>
    ensures { result ≡ numbered (with_number t) most (varint_at s.now at) }
{
    let n = varint(s, at).ok()?;
    if most < n.number {
        return None;
    }
    Some(Read {
        value: with_number(t, n.number),
        next: n.next,
    })
}

// DECIMAL, whose precision stands at `at`.
fn decimal_type(s: &[u8], at: usize) -> Option<Read<ColumnType>>
    ensures { result ≡ decimal s.now (varint_at s.now at) }
{
    let n = varint(s, at).ok()?;
    let precision = n.number;
    if precision < 1 {
        return None;
    }
    if 38 < precision {
        return None;
    }
    let t = ColumnType::Decimal {
        precision,
        scale: 0,
    };
    numbered_type(s, n.next, t, precision)
}

// The type t, which carries nothing.
fn plain_type(t: ColumnType, next: usize) -> Option<Read<ColumnType>>
    ensures { result ≡ Some (read t next) }
{
    Some(Read { value: t, next })
}

// The type of an id; what it carries stands at `at`. A match and no TryFrom: an id is no type without what it carries.
fn type_at(s: &[u8], id: u8, at: usize) -> Option<Read<ColumnType>>
    ensures { result ≡ type_at s.now id at }
{
    match id {
        0 => plain_type(ColumnType::Boolean, at),
        1 => plain_type(ColumnType::TinyInt, at),
        2 => plain_type(ColumnType::SmallInt, at),
        3 => plain_type(ColumnType::Int, at),
        4 => plain_type(ColumnType::BigInt, at),
        5 => plain_type(ColumnType::Float, at),
        6 => plain_type(ColumnType::Double, at),
        7 => plain_type(ColumnType::Date, at),
        8 => numbered_type(s, at, ColumnType::Char { length: 0 }, u32::MAX),
        9 => numbered_type(s, at, ColumnType::Varchar { length: 0 }, u32::MAX),
        10 => plain_type(ColumnType::String, at),
        11 => numbered_type(s, at, ColumnType::Binary { length: 0 }, u32::MAX),
        12 => numbered_type(s, at, ColumnType::Varbinary { length: 0 }, u32::MAX),
        13 => plain_type(ColumnType::Bytes, at),
        14 => decimal_type(s, at),
        15 => numbered_type(s, at, ColumnType::Time { precision: 0 }, 9),
        16 => numbered_type(s, at, ColumnType::Timestamp { precision: 0 }, 9),
        _ => None,
    }
}

// The column at `at`.
fn column_at(s: &[u8], at: usize) -> Option<Read<Column>>
    ensures { result ≡ column_at s.now at }
{
    if !has(s, at, 2) {
        return None;
    }
    let b = s[at + 1];
    if 1 < b {
        return None;
    }
    let ty = type_at(s, s[at], at + 2)?;
    Some(Read {
        value: Column {
            ty: ty.value,
            nullable: b == 1,
        },
        next: ty.next,
    })
}

// A schema with no column.
fn empty() -> Schema
    ensures { (result.columns ≡ blanks) × (result.count ≡ 0) }
{
    let c = Column {
        ty: ColumnType::Boolean,
        nullable: false,
    };
    Schema {
        columns: [c; 64],
        count: 0,
    }
}

// n columns from `from` on, then nothing.
fn columns(s: &[u8], n: usize, from: usize) -> Result<Schema, Refusal>
    requires { n ≤ 64 }
    ensures { outcome result ≡ held (columns_from s.now n from []) }
{
    let mut out = empty();
    let mut at = from;
    for i in 0..n {
        let column = column_at(s, at).ok_or(Refusal::Schema)?;
        out.columns[i] = column.value;
        at = column.next;
    }
    if at != s.len() {
        return Err(Refusal::Schema);
    }
    out.count = n;
    Ok(out)
}

// The schema of these bytes: its columns, or the refusal 20.
pub fn read(bytes: &[u8]) -> Result<Schema, Refusal>
    ensures { outcome result ≡ held (schema bytes.now) }
{
    let Ok(n) = varint(bytes, 0) else {
        return Err(Refusal::Schema);
    };
    if n.number < 1 {
        return Err(Refusal::Schema);
    }
    if 64 < n.number {
        return Err(Refusal::Schema);
    }
    columns(bytes, n.number as usize, n.next)
}
