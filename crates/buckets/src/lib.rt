#![tactic(auto)]

// Buckets: the whole bucket is judged, then a question is answered from the asked column's pieces.
ghost use Rattle.std.specs.Prelude.{◌≡◌};
ghost use Rattle.common.specs.Outcome.{status};
ghost use Rattle.common.specs.Refusal.{outcome};
ghost use Rattle.row_spec.specs.Answer.{VeryPart};
ghost use Rattle.bucket_spec.specs.Bucket.{bucket_refusal, bucket_field};

use common::Refusal;
use row_spec::Field;

mod ask;

// Whether a bucket of so many rows is sound, or its refusal.
pub fn check(schema_bytes: &[u8], rows: u32, bucket: &[u8]) -> Result<(), Refusal>
    ensures { status (outcome result) ≡ status (bucket_refusal schema_bytes.now rows bucket.now) }
{
    let schema = schema::read(schema_bytes)?;
    bucket_parts::judge(bucket, &schema, rows as usize)?;
    Ok(())
}

// The field of a row and a column; 25 if the bucket has none.
pub fn field(
    schema_bytes: &[u8],
    rows: u32,
    bucket: &[u8],
    row: u32,
    column: u32,
) -> Result<Field, Refusal>
    ensures { outcome result ≡ bucket_field schema_bytes.now rows bucket.now row column }
{
    let schema = schema::read(schema_bytes)?;
    let judged = bucket_parts::judge(bucket, &schema, rows as usize)?;
    ask::answer_of(bucket, &schema, &judged, row as usize, column as usize)
}

// The bytes of text, bytes or a large DECIMAL as they lie in the bucket; empty for any other answer or a refusal.
pub fn part<'a>(schema_bytes: &[u8], rows: u32, bucket: &'a [u8], row: u32, column: u32) -> &'a [u8]
    ensures { VeryPart (bucket_field schema_bytes.now rows bucket.now row column) bucket.now result.now bucket.entry.ref_ptr result.ref_ptr }
{
    values::part(bucket, field(schema_bytes, rows, bucket, row, column))
}
