#![tactic(auto)]

// The forms of a share moved together at the start of its buffer. Inner: no entry point.
ghost use Rattle.std.specs.Prelude.{◌≡◌, ◌+◌, ◌*◌, ◌≤◌, ◌<◌, length};
ghost use Rattle.bitmap_spec.proofs.Tally.{tally};
ghost use Rattle.store_spec.specs.Store.{length_at};
ghost use Rattle.store_laws.proofs.Slots.{Lies};
ghost use Rattle.store_laws.proofs.Packing.{Packed, Best};

// How long the forms of the first n slots are together.
pub fn used(dir: &[u32], n: usize) -> usize
    requires { (n ≤ 64) × (length dir.now ≡ 2 * n) }
    ensures { result ≡ tally (length_at dir.now) 0 n }
{
    let mut t: usize = 0;
    for k in 0..n {
        t += store_slots::length_of(dir, k);
    }
    t
}

// The better of slot j and the best so far: of those that start at or after `to`, the one that starts first.
fn better(dir: &[u32], n: usize, to: usize, j: usize, best: usize) -> usize
    requires { (n ≤ 64) × (j < n) × (length dir.now ≡ 2 * n) × Best n dir.now to j best }
    ensures { Best n dir.now to (j + 1) result }
{
    if store_slots::length_of(dir, j) == 0 {
        return best;
    }
    let a = store_slots::start_of(dir, j);
    if a < to {
        return best;
    }
    if best == n {
        return j;
    }
    if store_slots::start_of(dir, best) <= a {
        return best;
    }
    j
}

// Of the slots whose forms start at or after `to` the one whose form starts first; n if there is none.
fn next_slot(dir: &[u32], n: usize, to: usize) -> usize
    requires { (n ≤ 64) × (length dir.now ≡ 2 * n) }
    ensures { Best n dir.now to n result }
{
    let mut best = n;
    for j in 0..n {
        best = better(dir, n, to, j, best);
    }
    best
}

// Moves all forms together at the start of the buffer, in their order there, and says where they end.
pub fn pack(dir: &mut [u32], buf: &mut [u8], n: usize) -> usize
    requires { (n ≤ 64) × (length dir.old ≡ 2 * n) × Lies n dir.old buf.old }
    ensures { Packed n dir.old buf.old dir.new buf.new result }
{
    let mut to: usize = 0;
    let mut k = next_slot(dir, n, to);
    while k < n {
        let at = store_slots::start_of(dir, k);
        let m = store_slots::length_of(dir, k);
        byte_move::move_down(buf, at, to, m);
        dir[2 * k] = to as u32;
        to += m;
        k = next_slot(dir, n, to);
    }
    to
}
