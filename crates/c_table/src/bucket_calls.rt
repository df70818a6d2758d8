// Buckets.
ghost use Rattle.std.specs.Prelude.{◌≡◌};
ghost use Rattle.common.specs.Outcome.{status};
ghost use Rattle.bucket_spec.specs.Bucket.{bucket_refusal, bucket_field};
ghost use Rattle.c_table.specs.Outputs.{FieldCall};

use crate::fields::set_field;

// Whether the bucket is sound.
pub fn bucket_check(schema: &[u8], rows: u32, bucket: &[u8]) -> u32
    ensures { result ≡ status (bucket_refusal schema.now rows bucket.now) }
{
    match buckets::check(schema, rows, bucket) {
        Err(refusal) => refusal.into(),
        Ok(()) => 0,
    }
}

// One field, as its kind and plain numbers.
pub fn bucket_field(
    schema: &[u8],
    rows: u32,
    bucket: &[u8],
    row: u32,
    column: u32,
    kind: &mut u8,
    whole: &mut i64,
    bits: &mut u64,
    nanos: &mut u32,
    start: &mut usize,
    length: &mut usize,
) -> u32
    ensures { FieldCall (bucket_field schema.now rows bucket.now row column) result
        (record { kind = kind.entry.now; whole = whole.old; bits = bits.old; nanos = nanos.old; start = start.old; length = length.old })
        (record { kind = kind.exit.now; whole = whole.new; bits = bits.new; nanos = nanos.new; start = start.new; length = length.new }) }
{
    let answer = buckets::field(schema, rows, bucket, row, column);
    set_field(answer, kind, whole, bits, nanos, start, length)
}
