// Rows whose values are entries of a table.
ghost use Rattle.std.specs.Prelude.{◌≡◌, ◌≤◌, ◌<◌, ◌+◌, ◌*◌};
ghost use Rattle.common.specs.Outcome.{pick};
ghost use Rattle.common.specs.Bytes.{low_bits};
ghost use Rattle.row_spec.specs.Page.{listed};
ghost use Rattle.value_list.specs.Cell.{numbers_in};
ghost use Rattle.bucket_list.specs.Listed.{Fit, RowsListed, entry_in, ListedIn};

use crate::Rows;
use bucket_piece::past_bits;
use row_spec::Field;
use value_list::{Cell, cell_of, put_cell};

// The w bits from bit i on: by a word where its eight bytes are there.
fn index_at(s: &[u8], at: usize, i: usize, w: usize) -> usize
    requires { (w ≤ 8) × (i ≤ 1048576) }
    ensures { (result ≡ low_bits s.now at i w) × (result < 256) }
{
    if numbers::has(s, at, i / 8 + 8) {
        let word = words::low_word(s, at + i / 8);
        return ((word >> (i % 8)) & (past_bits(w) - 1)) as usize;
    }
    bucket_piece::bits_at(s, at, i, w) as usize
}

// A row that is null, or entry k.
fn entry_cell(null: bool, table: &[u64; 768], k: usize) -> Cell
    requires { k < 256 }
    ensures { numbers_in result ≡ pick null (listed Field.Null) (entry_in table.now k) }
{
    if null {
        return cell_of(0, 0, 0, 0);
    }
    cell_of(table[3 * k], table[3 * k + 1], table[3 * k + 2], 0)
}

// For each row the entry that its index names; the indexes, of w bits, start at `cells`.
pub(crate) fn list_entries(
    s: &[u8],
    table: &[u64; 768],
    w: usize,
    cells: usize,
    x: Rows,
    list: &mut [u64],
)
    requires { (w ≤ 8) × Fit x list.old }
    ensures { RowsListed (ListedIn s.now table.now w cells) s.now x
        list.old list.new }
{
    let mut j = bucket_piece::live_rows(s, x.nulls, x.place);
    for m in 0..x.given {
        let null = value_list::is_null(s, x.nulls, x.place + m);
        let k = index_at(s, cells, j * w, w);
        put_cell(list, 3 * m, entry_cell(null, table, k));
        j += !null as usize;
    }
}
