#![tactic(auto)]

// The page calls of row blocks and buckets in the C interface as plain functions, which c_api hands on. Every call returns 0 and sets
// its outputs, or returns the refusal's number and leaves every output untouched.
ghost use Rattle.std.specs.Prelude.{length};
ghost use Rattle.row_spec.specs.Page.{block_page};
ghost use Rattle.bucket_spec.specs.Page.{bucket_page};
ghost use Rattle.c_list.specs.Outputs.{PageCall};

// The fields of a block's rows from place on, as many whole rows as the list takes.
pub fn block_page(
    schema: &[u8],
    block: &[u8],
    place: &mut u32,
    list: &mut [u64],
    given: &mut u32,
    rows: &mut u32,
) -> u32
    ensures { PageCall (block_page schema.now block.now place.old (length list.entry.now)) result
        (record { list = list.entry.now; place = place.old; given = given.old; rows = rows.old })
        (record { list = list.exit.now; place = place.new; given = given.new; rows = rows.new }) }
{
    let at = *place;
    match row_list::page(schema, block, at, list) {
        Err(refusal) => refusal.into(),
        Ok(page) => {
            *place = at + page.given;
            *given = page.given;
            *rows = page.rows;
            0
        }
    }
}

// The fields of a bucket's column in the rows from place on, as many as the list takes.
pub fn bucket_page(
    schema: &[u8],
    rows: u32,
    bucket: &[u8],
    column: u32,
    place: &mut u32,
    list: &mut [u64],
    given: &mut u32,
) -> u32
    ensures { PageCall (bucket_page schema.now rows bucket.now column place.old (length list.entry.now)) result
        (record { list = list.entry.now; place = place.old; given = given.old; rows = rows })
        (record { list = list.exit.now; place = place.new; given = given.new; rows = rows }) }
{
    let at = *place;
    match bucket_list::page(schema, rows, bucket, column, at, list) {
        Err(refusal) => refusal.into(),
        Ok(counts) => {
            *place = at + counts.given;
            *given = counts.given;
            0
        }
    }
}
