// Buckets.
ghost use Rattle.std.specs.Prelude.{◌≡◌, length};
ghost use Rattle.common.specs.Outcome.{status};
ghost use Rattle.bucket_spec.specs.Bucket.{bucket_refusal, bucket_field};
ghost use Rattle.bucket_spec.specs.Page.{bucket_page};
ghost use Rattle.c_list.specs.Outputs.{PageCall};
ghost use Rattle.c_table.specs.Outputs.{FieldCall};

// Whether the bucket is sound.
#[unsafe(no_mangle)]
pub extern "C" fn bv_bucket_check(schema: &[u8], rows: u32, bucket: &[u8]) -> u32
    ensures { result ≡ status (bucket_refusal schema.now rows bucket.now) }
{
    c_table::bucket_check(schema, rows, bucket)
}

// One field, as its kind and plain numbers.
#[unsafe(no_mangle)]
pub extern "C" fn bv_bucket_field(
    schema: &[u8],
    rows: u32,
    bucket: &[u8],
    row: u32,
    column: u32,
    kind: &mut u8,
    whole: &mut i64,
    bits: &mut u64,
    nanos: &mut u32,
    start: &mut usize,
    length: &mut usize,
) -> u32
    ensures { FieldCall (bucket_field schema.now rows bucket.now row column) result
        (record { kind = kind.entry.now; whole = whole.old; bits = bits.old; nanos = nanos.old; start = start.old; length = length.old })
        (record { kind = kind.exit.now; whole = whole.new; bits = bits.new; nanos = nanos.new; start = start.new; length = length.new }) }
{
    c_table::bucket_field(
        schema, rows, bucket, row, column, kind, whole, bits, nanos, start, length,
    )
}

// The fields of a column in the rows from place on, as many as the list takes: three numbers for each.
#[unsafe(no_mangle)]
pub extern "C" fn bv_bucket_page(
    schema: &[u8],
    rows: u32,
    bucket: &[u8],
    column: u32,
    place: &mut u32,
    list: &mut [u64],
    given: &mut u32,
) -> u32
    ensures { PageCall (bucket_page schema.now rows bucket.now column place.old (length list.entry.now)) result
        (record { list = list.entry.now; place = place.old; given = given.old; rows = rows })
        (record { list = list.exit.now; place = place.new; given = given.new; rows = rows }) }
{
    c_list::bucket_page(schema, rows, bucket, column, place, list, given)
}
