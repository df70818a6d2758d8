#![tactic(auto)]

// Buckets by pages: the schema and the bucket are judged once, then a column's rows from a place on are listed.
ghost use Rattle.std.specs.Prelude.{length};
ghost use Rattle.row_spec.specs.Page.{Paged};
ghost use Rattle.bucket_spec.specs.Page.{bucket_page};
ghost use Rattle.bucket_list.specs.Listed.{ColumnThere, PageListed};

use bucket_spec::Bucket;
use common::Refusal;
use row_spec::{PageCounts, Schema};

mod column;
mod entries;

// Rows of a column: at which byte its null bits start, if it has any, which row is the first, and how many there are.
#[derive(Clone, Copy)]
pub struct Rows {
    pub nulls: Option<usize>,
    pub place: usize,
    pub given: usize,
}

// A table: where its entries start and how many there are, how many bits an index has, and where the indexes start.
#[derive(Clone, Copy)]
pub struct Table {
    pub from: usize,
    pub entries: usize,
    pub width: usize,
    pub cells: usize,
}

// The rows of column i of a judged bucket, from place on: how many were listed.
fn list_page(s: &[u8], sc: &Schema, b: &Bucket, i: usize, place: usize, list: &mut [u64]) -> usize
    requires { ColumnThere sc.now b.now i }
    ensures { PageListed sc.now b.now.frame.rows s.now b.now i place (length list.old) result
        list.old list.new }
{
    let given = value_list::rows_given(b.frame.rows, place, list.len() / 3);
    if given == 0 {
        return 0;
    }
    column::list_rows(s, sc, b, i, place, given, list);
    given
}

// The fields of a column from place on, as many rows as the list takes; 25 if the bucket has no such column.
pub fn page(
    schema_bytes: &[u8],
    rows: u32,
    bucket: &[u8],
    column: u32,
    place: u32,
    list: &mut [u64],
) -> Result<PageCounts, Refusal>
    ensures { Paged
        (bucket_page schema_bytes.now rows bucket.now column place (length list.old))
        result list.old list.new }
{
    let schema = schema::read(schema_bytes)?;
    let judged = bucket_parts::judge(bucket, &schema, rows as usize)?;
    if schema.count <= column as usize {
        return Err(Refusal::Absent);
    }
    let given = list_page(
        bucket,
        &schema,
        &judged,
        column as usize,
        place as usize,
        list,
    );
    Ok(PageCounts {
        given: given as u32,
        rows,
    })
}
