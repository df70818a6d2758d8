// The header, the tags and bits, then the parts.
ghost use Rattle.std.specs.Prelude.{◌≡◌, Ok, not, eqb, ◌≤◌, ◌*◌};
ghost use Rattle.common.specs.Outcome.{either};
ghost use Rattle.common.specs.Refusal.{outcome};
ghost use Rattle.bucket_parts.specs.Told.{Columns, BodyRead, Judgement};
ghost use Rattle.common.specs.Lists.{from, every};
ghost use Rattle.common.specs.Bytes.{low_bits};
ghost use Rattle.row_spec.specs.Schema.{columns_of};
ghost use Rattle.row_spec.specs.Varint.{varint_at};
ghost use Rattle.bucket_spec.specs.Bucket.{parts, tag_allowed, head_number, tags_at};
ghost use Rattle.bucket_spec.specs.Read.{layout_outcome};

use crate::part::{const_end, data_end, encoding_of, nulls_end, part, table_end};
use bucket_spec::{Bucket, Encoding, Frame, Part};
use common::Refusal;
use row_spec::{ReadFault, Schema};

// The four parts from `at` on, then nothing.
fn all_parts(s: &[u8], sc: &Schema, f: Frame, at: usize) -> Result<Bucket, Refusal>
    requires { Columns sc.now }
    ensures says { layout_outcome sc.now.count result ≡ parts (columns_of sc.now) f.rows s.now f.tags f.has at }
    ensures framed { (b : Bucket) → result ≡ Ok b → b.frame ≡ f }
{
    let n = sc.count;
    let Part {
        next,
        starts: consts,
    } = part(n, at, |i, at| const_end(s, sc, f, i, at))?;
    let Part {
        next,
        starts: tables,
    } = part(n, next, |i, at| table_end(s, sc, f, i, at))?;
    let Part {
        next,
        starts: nulls,
    } = part(n, next, |i, at| nulls_end(s, sc, f, i, at))?;
    let Part {
        next,
        starts: cells,
    } = part(n, next, |i, at| data_end(s, sc, f, &tables, &nulls, i, at))?;
    if next != s.len() {
        return Err(Refusal::BucketRest);
    }
    Ok(Bucket {
        frame: f,
        consts,
        tables,
        nulls,
        cells,
    })
}

// Whether column j may have its tag.
fn allowed(s: &[u8], f: Frame, nullable: bool, j: usize) -> bool
    requires { j ≤ 64 }
    ensures { result ≡ either nullable (either (eqb f.rows 0) (not (eqb (low_bits s.now f.tags (2 * j) 2) 3))) }
{
    if nullable || f.rows == 0 {
        return true;
    }
    encoding_of(s, f.tags, j) != Encoding::AllNull
}

// Whether each column may have its tag.
fn all_allowed(s: &[u8], sc: &Schema, f: Frame) -> bool
    requires { Columns sc.now }
    ensures { result ≡ every (tag_allowed (columns_of sc.now) f.rows s.now f.tags f.has) (from 0 sc.now.count) }
{
    for j in 0..sc.count {
        if !allowed(s, f, sc.columns[j].nullable, j) {
            return false;
        }
    }
    true
}

// What follows the header: the tags start at `tags`.
fn judge_body(s: &[u8], sc: &Schema, rows: usize, tags: usize) -> Result<Bucket, Refusal>
    requires { Columns sc.now × (rows ≤ 65536) }
    ensures { BodyRead sc.now rows s.now tags result }
{
    let n = sc.count;
    let w = (2 * n + 7) / 8;
    if !numbers::has(s, tags, w) {
        return Err(Refusal::BucketCut);
    }
    if !numbers::spare_zero(s, tags, 2 * n) {
        return Err(Refusal::BucketSpare);
    }
    let f = Frame {
        tags,
        has: tags + w,
        rows,
    };
    if !all_allowed(s, sc, f) {
        return Err(Refusal::BucketNull);
    }
    let b = (n + 7) / 8;
    if !numbers::has(s, f.has, b) {
        return Err(Refusal::BucketCut);
    }
    if !numbers::spare_zero(s, f.has, n) {
        return Err(Refusal::BucketSpare);
    }
    all_parts(s, sc, f, f.has + b)
}

// A number of the header that has to be k: the place after it.
fn head_number(s: &[u8], at: usize, k: u32) -> Result<usize, Refusal>
    ensures { outcome result ≡ head_number k (varint_at s.now at) }
{
    match numbers::varint(s, at) {
        Ok(read) if read.number == k => Ok(read.next),
        Ok(_) => Err(Refusal::BucketHeader),
        Err(ReadFault::IllFormed) => Err(Refusal::BucketHeader),
        Err(ReadFault::CutShort) => Err(Refusal::BucketCut),
    }
}

// Where the tags of a bucket of so many columns start.
fn tags_at(s: &[u8], width: u32) -> Result<usize, Refusal>
    ensures { outcome result ≡ tags_at width s.now }
{
    let at = head_number(s, 0, width)?;
    head_number(s, at, 0)
}

// The whole bucket of so many rows.
pub fn judge(s: &[u8], sc: &Schema, rows: usize) -> Result<Bucket, Refusal>
    requires { Columns sc.now }
    ensures { Judgement sc.now rows s.now result }
{
    if 16777216 < s.len() || 65536 < rows {
        return Err(Refusal::BucketLimit);
    }
    let tags = tags_at(s, sc.count as u32)?;
    judge_body(s, sc, rows, tags)
}
