#![tactic(auto)]

// The calls on one share of a store: n slots with their directory and their part of the buffer. An owner's slots and half are one. Inner:
// no entry point.
ghost use Rattle.std.specs.Prelude.{◌≡◌, ◌+◌, ◌*◌, ◌≤◌, ◌<◌, length, set};
ghost use Rattle.common.specs.Outcome.{then};
ghost use Rattle.bitmap_spec.specs.Output.{Gives};
ghost use Rattle.bitmap_spec.proofs.Tally.{tally};
ghost use Rattle.bitmap_rewrite.specs.Settled.{laid};
ghost use Rattle.store_spec.specs.Store.{length_at, entries_of, entries, put_in, fetch_in, drop_in, Changes, Drops};
ghost use Rattle.store_laws.proofs.Slots.{Lies};
ghost use Rattle.store_share.specs.Formed.{Formed, stored};

use bitmap_rewrite::Prepared;
use common::Refusal;

// Copies the form of slot k to the start of out: 42, 41, 13.
pub fn fetch(dir: &[u32], buf: &[u8], n: usize, k: usize, out: &mut [u8]) -> Result<usize, Refusal>
    requires { (n ≤ 64) × (k < n) × (length dir.now ≡ 2 * n) }
    ensures { Gives (then (entries n dir.now buf.now) (fetch_in (length out.old) k)) out.old out.new result }
{
    if !store_slots::is_sound(dir, buf, n) {
        return Err(Refusal::StoreBad);
    }
    let m = store_slots::length_of(dir, k);
    if m == 0 {
        return Err(Refusal::StoreEmpty);
    }
    if out.len() < m {
        return Err(Refusal::Room);
    }
    let a = store_slots::start_of(dir, k);
    byte_move::copy_part(buf, a, m, out, 0);
    Ok(m)
}

// Empties slot k: 42, 41. Its length becomes 0, all else stays.
pub fn clear(dir: &mut [u32], buf: &[u8], n: usize, k: usize) -> Result<(), Refusal>
    requires { (n ≤ 64) × (k < n) × (length dir.old ≡ 2 * n) }
    ensures { Drops (then (entries n dir.old buf.now) (drop_in k)) n k dir.old buf.now dir.new result }
{
    if !store_slots::is_sound(dir, buf, n) {
        return Err(Refusal::StoreBad);
    }
    if store_slots::length_of(dir, k) == 0 {
        return Err(Refusal::StoreEmpty);
    }
    dir[2 * k + 1] = 0;
    Ok(())
}

// Lays a judged bitmap's form behind all others, which are moved together first, and gives it to the empty slot k.
fn lay(
    dir: &mut [u32],
    buf: &mut [u8],
    n: usize,
    k: usize,
    bitmap: &[u8],
    ds: &[u8],
    form: Prepared,
)
    requires { (n ≤ 64) × (k < n) × (length dir.old ≡ 2 * n) × Lies n dir.old buf.old × (length_at dir.old k ≡ 0) × Formed bitmap.now form.start ds.now form.cardinality form.size × (tally (length_at dir.old) 0 n + form.size ≤ length buf.old) }
    ensures { Lies n dir.new buf.new × (entries_of n dir.new buf.new ≡ set (entries_of n dir.old buf.old) k (laid bitmap.now form.start ds.now form.cardinality)) }
{
    let end = store_pack::pack(dir, buf, n);
    bitmap_rewrite::put_laid(bitmap, form.start, ds, form.cardinality, &mut buf[end..]);
    dir[2 * k] = end as u32;
    dir[2 * k + 1] = form.size as u32;
}

// Puts a judged bitmap's form into slot k, or refuses for room.
fn replace(
    dir: &mut [u32],
    buf: &mut [u8],
    n: usize,
    k: usize,
    bitmap: &[u8],
    ds: &[u8],
    form: Prepared,
) -> Result<(), Refusal>
    requires { (n ≤ 64) × (k < n) × (length dir.old ≡ 2 * n) × Lies n dir.old buf.old × Formed bitmap.now form.start ds.now form.cardinality form.size }
    ensures { Changes (stored n dir.old buf.old k (laid bitmap.now form.start ds.now form.cardinality)) n dir.old buf.old dir.new buf.new result }
{
    let rest = store_pack::used(dir, n) - store_slots::length_of(dir, k);
    if buf.len() < rest + form.size {
        return Err(Refusal::Room);
    }
    dir[2 * k + 1] = 0;
    lay(dir, buf, n, k, bitmap, ds, form);
    Ok(())
}

// Puts the written form of a bitmap into slot k: 42, the bitmap's own 1 to 11, 13.
pub fn put(
    dir: &mut [u32],
    buf: &mut [u8],
    n: usize,
    k: usize,
    bitmap: &[u8],
) -> Result<(), Refusal>
    requires { (n ≤ 64) × (k < n) × (length dir.old ≡ 2 * n) }
    ensures { Changes (then (entries n dir.old buf.old) (put_in (length buf.old) k bitmap.now)) n dir.old buf.old dir.new buf.new result }
{
    if !store_slots::is_sound(dir, buf, n) {
        return Err(Refusal::StoreBad);
    }
    let mut d = [0u8; 8192];
    let form = bitmap_rewrite::prepare(bitmap, &mut d)?;
    replace(dir, buf, n, k, bitmap, &d[..form.count], form)
}
