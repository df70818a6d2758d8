// The answer to a row and a column of a judged bucket.
ghost use Rattle.std.specs.Prelude.{◌≡◌, ◌+◌, ◌*◌, eqb};
ghost use Rattle.common.specs.Outcome.{either};
ghost use Rattle.common.specs.Bytes.{ceil8};
ghost use Rattle.common.specs.Refusal.{outcome};
ghost use Rattle.row_spec.specs.Schema.{columns_of};
ghost use Rattle.value_list.specs.Cell.{null_bit};
ghost use Rattle.bucket_spec.specs.Bucket.{answer};
ghost use Rattle.bucket_spec.specs.Read.{tag, layout_read};
ghost use Rattle.bucket_parts.specs.Told.{Columns, Framed};

use bucket_spec::{Bucket, Encoding, Pieces};
use common::Refusal;
use row_spec::{Field, Schema};

// Whether row r is null.
fn is_null(s: &[u8], p: Pieces, r: usize) -> bool
    ensures { result ≡ either (eqb (tag p.encoding) 3) (null_bit s.now p.nulls r) }
{
    p.encoding == Encoding::AllNull || value_list::is_null(s, p.nulls, r)
}

// The field of row r and column i.
pub(crate) fn answer_of(
    s: &[u8],
    sc: &Schema,
    b: &Bucket,
    r: usize,
    i: usize,
) -> Result<Field, Refusal>
    requires { Columns sc.now × Framed sc.now b.now.frame.rows b.now }
    ensures { outcome result ≡ answer (columns_of sc.now) b.now.frame.rows s.now b.now.frame.tags (b.now.frame.tags + ceil8 (2 * sc.now.count)) r i (layout_read sc.now.count b.now) }
{
    if b.frame.rows <= r || sc.count <= i {
        return Err(Refusal::Absent);
    }
    let p = bucket_parts::pieces_of(s, b, i);
    if is_null(s, p, r) {
        return Ok(Field::Null);
    }
    bucket_piece::value_of(s, sc.columns[i].ty, p, r)
}
