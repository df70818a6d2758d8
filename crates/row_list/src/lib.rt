#![tactic(auto)]

// Row blocks by pages: the schema and the block are judged once, then the rows from a place on are listed.
ghost use Rattle.std.specs.Prelude.{◌≡◌, map, ◌≤◌, ◌+◌, ◌*◌, length, take};
ghost use Rattle.row_spec.specs.Schema.{columns_of};
ghost use Rattle.row_spec.specs.Page.{block_page, Paged};
ghost use Rattle.row_list.specs.Rows.{row_storage, RowListed, RowsListed, BlockListed};

use common::Refusal;
use row_spec::{PageCounts, Schema, Storage};
use value_list::Run;

// How the values of each column are stored, in the order of the columns.
fn storages_of(sc: Schema) -> [Storage; 64]
    requires { (sc.count ≤ 64) × (length sc.columns ≡ 64) }
    ensures { (take sc.count result ≡ map row_storage (columns_of sc)) × (sc.count ≤ length result) }
{
    let n = sc.count;
    let mut storages = [Storage::Boolean; 64];
    for i in 0..n {
        storages[i] = values::storage_of(false, sc.columns[i].ty);
    }
    storages
}

// The row at `at`, of n columns, into the list from number k on: where the next row starts.
fn list_row(
    s: &[u8],
    storages: [Storage; 64],
    n: usize,
    at: usize,
    list: &mut [u64],
    k: usize,
) -> usize
    requires { (n ≤ 64) × (n ≤ length storages) × (k + 3 * n ≤ length list.old) }
    ensures { RowListed s.now (take n storages) at k list.old list.new result }
{
    let w = (n + 7) / 8;
    if !numbers::has(s, at, w) {
        return at;
    }
    let run = Run {
        big: false,
        same: false,
        nulls: Some(at),
        bit: 0,
    };
    value_list::list_run(s, storages, run, n, at + w, list, k)
}

// So many rows, the first of them at `from`, into the list.
fn list_rows(s: &[u8], sc: Schema, from: usize, given: usize, list: &mut [u64])
    requires { (sc.count ≤ 64) × (length sc.columns ≡ 64) × (given * (3 * sc.count) ≤ length list.old) }
    ensures { RowsListed s.now (columns_of sc) from given list.old list.new }
{
    let n = sc.count;
    let storages = storages_of(sc);
    let mut at = from;
    let mut k = 0;
    for r in 0..given {
        at = list_row(s, storages, n, at, list, k);
        k += 3 * n;
    }
}

// The rows of an accepted block of so many rows, from place on: how many were listed.
fn list_block(s: &[u8], sc: Schema, rows: usize, place: usize, list: &mut [u64]) -> usize
    requires { (1 ≤ sc.count) × (sc.count ≤ 64) × (length sc.columns ≡ 64) × (rows ≤ 65536) × (4 * rows + 4 ≤ length s.now) }
    ensures { BlockListed s.now (columns_of sc) rows place (length list.old) result list.old list.new × (result ≤ rows) }
{
    let given = value_list::rows_given(rows, place, list.len() / (3 * sc.count));
    if given == 0 {
        return 0;
    }
    let end = s.len() - 4 - 4 * rows;
    let from = numbers::little_endian(s, end + place * 4, 4) as usize;
    list_rows(&s[..end], sc, from, given, list);
    given
}

// The fields of the rows from place on, as many whole rows as the list takes.
pub fn page(
    schema_bytes: &[u8],
    block: &[u8],
    place: u32,
    list: &mut [u64],
) -> Result<PageCounts, Refusal>
    ensures { Paged (block_page schema_bytes.now block.now place (length list.old)) result list.old list.new }
{
    let schema = schema::read(schema_bytes)?;
    let judged = row_judge::judge(block, schema, 0, 0)?;
    let given = list_block(block, schema, judged.rows as usize, place as usize, list);
    Ok(PageCounts {
        given: given as u32,
        rows: judged.rows,
    })
}
