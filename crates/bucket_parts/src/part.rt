// One part of a bucket: each column's piece in column order.
ghost use Rattle.std.specs.Prelude.{◌≡◌, ℕ, not, [], ◌≤◌, ◌<◌, ◌*◌, length, get_or, take, eqb};
ghost use Rattle.common.specs.Outcome.{Outcome, both};
ghost use Rattle.common.specs.Bytes.{low_bit, low_bits};
ghost use Rattle.common.specs.Refusal.{outcome};
ghost use Rattle.bucket_spec.specs.Bucket.{along};
ghost use Rattle.bucket_spec.specs.Read.{tag, bitmap_of, part_outcome};
ghost use Rattle.bucket_parts.specs.Told.{Columns, Steps, step_of, PiecesAt};

use bucket_spec::{Bucket, Encoding, Frame, Part, Pieces};
use common::Refusal;
use row_spec::Schema;

// The encoding of column i: each tag of 2 bits is one.
pub(crate) fn encoding_of(s: &[u8], tags: usize, i: usize) -> Encoding
    requires { i ≤ 64 }
    ensures { tag result ≡ low_bits s.now tags (2 * i) 2 }
{
    match bucket_piece::bits_at(s, tags, 2 * i, 2) {
        0 => Encoding::Plain,
        1 => Encoding::Const,
        2 => Encoding::Dict,
        _ => Encoding::AllNull,
    }
}

// Whether column i, of this encoding, has a bitmap.
fn has_bitmap(s: &[u8], has: usize, i: usize, encoding: Encoding) -> bool
    ensures { result ≡ both (eqb (low_bit s.now has i) 1) (not (eqb (tag encoding) 3)) }
{
    match encoding {
        Encoding::AllNull => false,
        _ => numbers::bit_at(s, has, i) == 1,
    }
}

// Where the bitmap of column i, of this encoding, is, if the column has one.
fn bitmap_of(s: &[u8], f: Frame, i: usize, encoding: Encoding, nulls: &[usize; 64]) -> Option<usize>
    requires { i < 64 }
    ensures { result ≡ bitmap_of (both (eqb (low_bit s.now f.has i) 1) (not (eqb (tag encoding) 3))) (get_or nulls.now i 0) }
{
    has_bitmap(s, f.has, i, encoding).then_some(nulls[i])
}

// The pieces of column i of a judged bucket.
pub fn pieces_of(s: &[u8], b: &Bucket, i: usize) -> Pieces
    requires { i < 64 }
    ensures { PiecesAt s.now b.now i result }
{
    let encoding = encoding_of(s, b.frame.tags, i);
    Pieces {
        encoding,
        start: b.consts[i],
        table: b.tables[i],
        nulls: bitmap_of(s, b.frame, i, encoding, &b.nulls),
        cells: b.cells[i],
    }
}

// The place after column i's CONST value.
pub(crate) fn const_end(
    s: &[u8],
    sc: &Schema,
    f: Frame,
    i: usize,
    at: usize,
) -> Result<usize, Refusal>
    requires { Columns sc.now × (i < sc.now.count) }
    ensures { outcome result ≡ step_of sc.now f s.now 0 [] [] i at }
{
    bucket_piece::const_piece(s, sc.columns[i].ty, encoding_of(s, f.tags, i), at)
}

// The place after column i's DICT table.
pub(crate) fn table_end(
    s: &[u8],
    sc: &Schema,
    f: Frame,
    i: usize,
    at: usize,
) -> Result<usize, Refusal>
    requires { Columns sc.now × (i < sc.now.count) }
    ensures { outcome result ≡ step_of sc.now f s.now 1 [] [] i at }
{
    bucket_piece::table_piece(s, sc.columns[i].ty, encoding_of(s, f.tags, i), at)
}

// The place after column i's null bitmap.
pub(crate) fn nulls_end(
    s: &[u8],
    sc: &Schema,
    f: Frame,
    i: usize,
    at: usize,
) -> Result<usize, Refusal>
    requires { Columns sc.now × (i < sc.now.count) }
    ensures { outcome result ≡ step_of sc.now f s.now 2 [] [] i at }
{
    let mapped = has_bitmap(s, f.has, i, encoding_of(s, f.tags, i));
    bucket_piece::nulls_piece(s, sc.columns[i].nullable, mapped, f.rows, at)
}

// The place after column i's data; its table and its bitmap start where the arrays say.
pub(crate) fn data_end(
    s: &[u8],
    sc: &Schema,
    f: Frame,
    tables: &[usize; 64],
    nulls: &[usize; 64],
    i: usize,
    at: usize,
) -> Result<usize, Refusal>
    requires { Columns sc.now × (i < sc.now.count) }
    ensures { outcome result ≡ step_of sc.now f s.now 3 (take sc.now.count tables.now) (take sc.now.count nulls.now) i at }
{
    let encoding = encoding_of(s, f.tags, i);
    let bitmap = bitmap_of(s, f, i, encoding, nulls);
    let values = bucket_piece::live_rows(s, bitmap, f.rows);
    bucket_piece::data_piece(s, sc.columns[i].ty, encoding, values, tables[i], at)
}

// One part of n columns, from `from` on; `end` says where the piece of a column ends.
pub(crate) fn part<F: Fn(usize, usize) -> Result<usize, Refusal>>(
    n: usize,
    from: usize,
    end: F,
) -> Result<Part, Refusal>
    requires { (n ≤ 64) × ((i at : ℕ) → i < n → F.pre end i at) }
    ensures { (step : ℕ → ℕ → Outcome ℕ) → Steps n step (F.post end) → part_outcome n result ≡ along step 0 n from [] }
{
    let mut starts = [0usize; 64];
    let mut at = from;
    for i in 0..n {
        starts[i] = at;
        at = end(i, at)?;
    }
    Ok(Part { next: at, starts })
}
