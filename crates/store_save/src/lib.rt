#![tactic(auto)]

// The entries of a sound share as saved bytes. Inner: no entry point.
ghost use Rattle.std.specs.Prelude.{◌≡◌, ◌++◌, ℕ, ◌+◌, ◌*◌, ◌≤◌, ◌<◌, length};
ghost use Rattle.bitmap_spec.specs.Output.{written};
ghost use Rattle.bitmap_spec.proofs.Tally.{tally};
ghost use Rattle.row_spec.specs.Varint.{shortest};
ghost use Rattle.store_spec.specs.Store.{length_at, end_at, entry_at, entries_of};
ghost use Rattle.store_spec.specs.Saved.{saved};
ghost use Rattle.store_laws.proofs.Slots.{Lies};
ghost use Rattle.store_save.specs.Size.{entry_size};

// How many bytes a length takes.
fn groups_size(n: usize) -> usize
    requires { n < 2097152 }
    ensures { (result ≡ length (shortest n)) × (result ≤ 3) }
{
    if n < 128 {
        return 1;
    }
    if n < 16384 {
        return 2;
    }
    3
}

// Writes a length from out[at] on.
fn put_groups(n: usize, out: &mut [u8], at: usize) -> usize
    requires { (n < 2097152) × (at + length (shortest n) ≤ length out.old) }
    ensures { (result ≡ length (shortest n)) × (out.new ≡ written out.old at (shortest n)) }
{
    if n < 128 {
        out[at] = n as u8;
        return 1;
    }
    if n < 16384 {
        out[at] = (n % 128 + 128) as u8;
        out[at + 1] = (n / 128) as u8;
        return 2;
    }
    chunk_write::put3(
        out,
        at,
        (n % 128 + 128) as u8,
        (n / 128 % 128 + 128) as u8,
        (n / 128 / 128) as u8,
    )
}

// How many bytes the saved entries of a sound share take.
pub fn entries_size(dir: &[u32], n: usize) -> usize
    requires { (n ≤ 64) × (length dir.now ≡ 2 * n) × ((k : ℕ) → k < n → length_at dir.now k < 2097152) }
    ensures { (result ≡ tally (entry_size dir.now) 0 n) × (result ≤ n * 2097155) }
{
    let mut t: usize = 0;
    for k in 0..n {
        let m = store_slots::length_of(dir, k);
        t += groups_size(m) + m;
    }
    t
}

// Writes the entry of slot k, its length and then its bytes, from out[at] on.
fn put_entry(dir: &[u32], buf: &[u8], k: usize, out: &mut [u8], at: usize) -> usize
    requires { (k < 64) × (2 * k + 1 < length dir.now) × (length_at dir.now k < 2097152) × (0 < length_at dir.now k → end_at dir.now k ≤ length buf.now) × (at + length (shortest (length_at dir.now k) ++ entry_at dir.now buf.now k) ≤ length out.old) }
    ensures { (result ≡ length (shortest (length_at dir.now k) ++ entry_at dir.now buf.now k)) × (out.new ≡ written out.old at (shortest (length_at dir.now k) ++ entry_at dir.now buf.now k)) }
{
    let m = store_slots::length_of(dir, k);
    let x = put_groups(m, out, at);
    if m == 0 {
        return x;
    }
    let a = store_slots::start_of(dir, k);
    byte_move::copy_part(buf, a, m, out, at + x);
    x + m
}

// Writes the entries of a sound share from out[at] on.
pub fn put_entries(dir: &[u32], buf: &[u8], n: usize, out: &mut [u8], at: usize) -> usize
    requires { (n ≤ 64) × (length dir.now ≡ 2 * n) × Lies n dir.now buf.now × (at + length (saved (entries_of n dir.now buf.now)) ≤ length out.old) }
    ensures { (result ≡ length (saved (entries_of n dir.now buf.now))) × (out.new ≡ written out.old at (saved (entries_of n dir.now buf.now))) }
{
    let mut t: usize = 0;
    for k in 0..n {
        t += put_entry(dir, buf, k, out, at + t);
    }
    t
}
