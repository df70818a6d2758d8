// The rows of one column, by its encoding.
ghost use Rattle.std.specs.Prelude.{◌≡◌, ℕ, ◌≤◌, ◌+◌, ◌*◌, length};
ghost use Rattle.row_spec.specs.Schema.{columns_of};
ghost use Rattle.bucket_laws.specs.Shown.{Entry, Shows};
ghost use Rattle.bucket_list.specs.Listed.{Lists, Fit, RowsListed, ValueIs, EntryIs};
ghost use Rattle.bucket_list.specs.Listed.{ColumnListed, ColumnThere, judged_of};

use crate::entries::list_entries;
use crate::{Rows, Table};
use bucket_spec::{Bucket, Encoding, Pieces};
use row_spec::{ColumnType, Field, Schema};
use value_list::Run;

// Null for each of n rows: its three numbers are 0.
fn list_nulls(n: usize, list: &mut [u64])
    requires { 3 * n ≤ length list.old }
    ensures { Lists (λ m f. f ≡ Field.Null) n list.old list.new }
{
    list[..3 * n].fill(0);
}

// Values one after the other from `at` on, one for each row of the column that is not null.
fn list_values(s: &[u8], t: ColumnType, at: usize, x: Rows, list: &mut [u64])
    requires { Fit x list.old }
    ensures { RowsListed (ValueIs s.now t at) s.now x
        list.old list.new }
{
    let j = bucket_piece::live_rows(s, x.nulls, x.place);
    let from = bucket_piece::values_end(s, t, j, at).unwrap_or(0);
    let run = Run {
        big: true,
        same: true,
        nulls: x.nulls,
        bit: x.place,
    };
    let st = values::storage_of(true, t);
    value_list::list_run(s, [st; 64], run, x.given, from, list, 0);
}

// For each row the entry of the table that its index names.
fn list_table(s: &[u8], t: ColumnType, e: Table, x: Rows, list: &mut [u64])
    requires { (e.entries ≤ 255) × (e.width ≤ 8) × Fit x list.old }
    ensures { RowsListed (EntryIs s.now t e) s.now x
        list.old list.new }
{
    let each = Rows {
        nulls: None,
        place: 0,
        given: e.entries,
    };
    let mut table = [0u64; 768];
    list_values(s, t, e.from, each, &mut table);
    list_entries(s, &table, e.width, e.cells, x, list);
}

// DICT: the table, then the indexes of its entries' width. No table has more than 255 entries.
fn list_dict(s: &[u8], t: ColumnType, table: usize, cells: usize, x: Rows, list: &mut [u64])
    requires { Fit x list.old }
    ensures { (m : ℕ) → RowsListed (Entry s.now t table cells m) s.now x
        list.old list.new }
{
    let head = bucket_piece::table_head(s, table);
    let e = Table {
        from: head.next,
        entries: (head.number as usize).min(255),
        width: bucket_piece::index_width(head.number),
        cells,
    };
    list_table(s, t, e, x, list);
}

// The rows by the column's encoding. A CONST value is a table of one entry, with indexes of no bits.
fn list_column(s: &[u8], t: ColumnType, p: Pieces, x: Rows, list: &mut [u64])
    requires { Fit x list.old }
    ensures { ColumnListed s.now t p x list.old list.new }
{
    match p.encoding {
        Encoding::Plain => list_values(s, t, p.cells, x, list),
        Encoding::Const => {
            let one = Table {
                from: p.start,
                entries: 1,
                width: 0,
                cells: 0,
            };
            list_table(s, t, one, x, list);
        }
        Encoding::Dict => list_dict(s, t, p.table, p.cells, x, list),
        Encoding::AllNull => list_nulls(x.given, list),
    }
}

// The rows of column i of a judged bucket, from place on.
pub(crate) fn list_rows(
    s: &[u8],
    sc: &Schema,
    b: &Bucket,
    i: usize,
    place: usize,
    given: usize,
    list: &mut [u64],
)
    requires { ColumnThere sc.now b.now i × (place + given ≤ 65536) × (3 * given ≤ length list.old) }
    ensures { (n : ℕ) → Lists (λ m f. Shows (columns_of sc.now) n s.now (judged_of sc.now b.now) (place + m) i f)
        given list.old list.new }
{
    let p = bucket_parts::pieces_of(s, b, i);
    let x = Rows {
        nulls: p.nulls,
        place,
        given,
    };
    list_column(s, sc.columns[i].ty, p, x, list);
}
