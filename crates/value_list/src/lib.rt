#![tactic(auto)]

// Stored values as the numbers of a page: three for each field, one field after the other. Inner: no entry point.
ghost use Rattle.std.specs.Prelude.{◌≡◌, true, false, ℕ, min, ◌≤◌, ◌<◌, ◌+◌, ◌-◌, ◌*◌, ◌^◌, leb, eqb, length, Ok};
ghost use Rattle.common.specs.Outcome.{pick};
ghost use Rattle.common.specs.Bytes.{signed_of, low_bit};
ghost use Rattle.row_spec.specs.Read.{read};
ghost use Rattle.row_spec.specs.Varint.{varint, varint_at};
ghost use Rattle.row_spec.specs.Value.{word_at, sized_of, nanos_of, count_at, stored_at};
ghost use Rattle.row_spec.specs.Page.{unsigned};
ghost use Rattle.value_list.specs.Cell.{cell_of, null_bit, Holds, Puts, Ran};

use numbers::{bit_at, has, varint, wide, word};
use row_spec::{Field, Storage};

// The three numbers of a field, and the place of the byte after it.
#[derive(Clone, Copy)]
pub struct Cell {
    pub kind: u64,
    pub value: u64,
    pub more: u64,
    pub next: usize,
}

// How a run of fields lies: in a bucket or a row; all stored as the first or each as its own; at which byte the null
// bits start, if there are any, and which of them is the first field's.
#[derive(Clone, Copy)]
pub struct Run {
    pub big: bool,
    pub same: bool,
    pub nulls: Option<usize>,
    pub bit: usize,
}

// The cell of these numbers.
pub fn cell_of(kind: u64, value: u64, more: u64, next: usize) -> Cell
    ensures { result ≡ cell_of kind value more next }
{
    Cell {
        kind,
        value,
        more,
        next,
    }
}

// The number of w bytes as it is stored.
fn word_cell(big: bool, s: &[u8], at: usize, w: usize, kind: u64) -> Cell
    requires { w ≤ 8 }
    ensures { leb (at + w) (length s.now) ≡ true → (result ≡ cell_of kind (word_at big s.now at w) 0 (at + w)) × (word_at big s.now at w < 256 ^ w) }
{
    if has(s, at, w) {
        return cell_of(kind, word(big, s, at, w), 0, at + w);
    }
    cell_of(0, 0, 0, at)
}

// A number whose highest bit is worth half, in 64 bits.
fn extended(n: u64, half: u64) -> u64
    requires { (1 ≤ half) × (half ≤ 2147483648) × (n < 2 * half) }
    ensures { result ≡ unsigned (signed_of half n) }
{
    if n < half {
        return n;
    }
    n + (18446744073709551615 - (2 * half - 1))
}

// A whole number of w bytes, fewer than 8.
fn whole_cell(big: bool, s: &[u8], at: usize, w: usize, half: u64) -> Cell
    requires { (w ≤ 8) × (256 ^ w ≡ 2 * half) × (1 ≤ half) × (half ≤ 2147483648) }
    ensures { leb (at + w) (length s.now) ≡ true → result ≡ cell_of 2 (unsigned (signed_of half (word_at big s.now at w))) 0 (at + w) }
{
    if has(s, at, w) {
        return cell_of(2, extended(word(big, s, at, w), half), 0, at + w);
    }
    cell_of(0, 0, 0, at)
}

// The place of n bytes from next on.
fn place_cell(s: &[u8], n: u32, next: usize) -> Cell
    ensures { (least : ℕ) → Holds (sized_of s.now least (Ok (varint n next true))) result }
{
    let len = n as usize;
    if has(s, next, len) {
        return cell_of(6, next as u64, n as u64, next + len);
    }
    cell_of(0, 0, 0, 0)
}

// The place of bytes after their length. A length of one byte is the common case, and read without a call.
fn sized_cell(s: &[u8], at: usize) -> Cell
    ensures { (least : ℕ) → Holds (sized_of s.now least (varint_at s.now at)) result }
{
    if at < s.len() {
        let b = wide(s[at]);
        if b < 128 {
            return place_cell(s, b as u32, at + 1);
        }
    }
    match varint(s, at) {
        Ok(length) => place_cell(s, length.number, length.next),
        Err(_) => cell_of(0, 0, 0, 0),
    }
}

// A TIMESTAMP with a varint of nanoseconds.
fn time_varint_cell(big: bool, s: &[u8], at: usize) -> Cell
    ensures { Holds (stored_at big s.now at Storage.TimeVarint) result }
{
    if !has(s, at, 8) {
        return cell_of(0, 0, 0, 0);
    }
    match varint(s, at + 8) {
        Ok(nanos) => cell_of(5, word(big, s, at, 8), nanos.number as u64, nanos.next),
        Err(_) => cell_of(0, 0, 0, 0),
    }
}

// A TIMESTAMP with 4 bytes of nanoseconds.
fn time_fixed_cell(big: bool, s: &[u8], at: usize) -> Cell
    ensures { Holds (stored_at big s.now at Storage.TimeFixed) result }
{
    if has(s, at, 12) {
        let count = word(big, s, at, 8);
        return cell_of(5, count, word(big, s, at + 8, 4), at + 12);
    }
    cell_of(0, 0, 0, 0)
}

// The value at `at` that is stored so.
fn cell_at(big: bool, s: &[u8], at: usize, st: Storage) -> Cell
    ensures { Holds (stored_at big s.now at st) result }
{
    match st {
        Storage::Boolean => word_cell(big, s, at, 1, 1),
        Storage::Int8 => whole_cell(big, s, at, 1, 128),
        Storage::Int16 => whole_cell(big, s, at, 2, 32768),
        Storage::Int32 => whole_cell(big, s, at, 4, 2147483648),
        Storage::Int64 => word_cell(big, s, at, 8, 2),
        Storage::Float32 => word_cell(big, s, at, 4, 3),
        Storage::Float64 => word_cell(big, s, at, 8, 4),
        Storage::Sized { least: _ } => sized_cell(s, at),
        Storage::Time => word_cell(big, s, at, 8, 5),
        Storage::TimeVarint => time_varint_cell(big, s, at),
        Storage::TimeFixed => time_fixed_cell(big, s, at),
    }
}

// Whether bit i of the null bits is set, if there are any.
pub fn is_null(s: &[u8], nulls: Option<usize>, i: usize) -> bool
    ensures { result ≡ null_bit s.now nulls i }
{
    match nulls {
        Some(at) => bit_at(s, at, i) == 1,
        None => false,
    }
}

// A field that is null, or the value at `at`.
fn field_cell(big: bool, s: &[u8], null: bool, at: usize, st: Storage) -> Cell
    ensures { Holds (pick null (Ok (read Field.Null at)) (stored_at big s.now at st)) result }
{
    if null {
        return cell_of(0, 0, 0, at);
    }
    cell_at(big, s, at, st)
}

// Three numbers of a list from number k on.
pub fn put_cell(list: &mut [u64], k: usize, c: Cell)
    requires { k + 3 ≤ length list.old }
    ensures { Puts k c list.old list.new }
{
    list[k] = c.kind;
    list[k + 1] = c.value;
    list[k + 2] = c.more;
}

// Which of the storages is that of field m.
fn which(same: bool, m: usize) -> usize
    ensures { result ≡ pick same 0 m }
{
    if same {
        return 0;
    }
    m
}

// n fields one after the other, the first of them at `from`, into the list from number k on: where the last ends.
// The one loop that calls the reader of a value, so that the back end inlines it.
pub fn list_run(
    s: &[u8],
    storages: [Storage; 64],
    run: Run,
    n: usize,
    from: usize,
    list: &mut [u64],
    k: usize,
) -> usize
    requires { (run.same ≡ false → n ≤ 64) × (run.bit + n ≤ 131072) × (k + 3 * n ≤ length list.old) }
    ensures { Ran s.now storages run n from k list.old list.new result }
{
    let mut at = from;
    for m in 0..n {
        let st = storages[which(run.same, m)];
        let null = is_null(s, run.nulls, run.bit + m);
        let c = field_cell(run.big, s, null, at, st);
        put_cell(list, k + 3 * m, c);
        at = c.next;
    }
    at
}

// How many rows a page gives: those from place on, but not more than fit.
pub fn rows_given(rows: usize, place: usize, fit: usize) -> usize
    ensures { result ≡ min fit (rows - place) }
{
    fit.min(rows.saturating_sub(place))
}
