#![tactic(auto)]

// Saved bytes judged entry by entry, and each slot of a share given its entry. Inner: no entry point.
ghost use Rattle.std.specs.Prelude.{◌≡◌, List, [], ◌∷◌, ◌++◌, ℕ, ◌+◌, ◌*◌, ◌≤◌, ◌<◌, length, get_or, take, drop};
ghost use Rattle.common.specs.Outcome.{found};
ghost use Rattle.store_spec.specs.Store.{length_at, entry_at, total};
ghost use Rattle.store_spec.specs.Saved.{Scan, scan};
ghost use Rattle.store_laws.proofs.Slots.{Lies};
ghost use Rattle.store_load.specs.Loading.{Frames, Takes, Scans, Loading, Given};

// An entry of saved bytes: where its bytes start and how many there are.
#[derive(Clone, Copy)]
pub struct Entry {
    pub start: usize,
    pub length: usize,
}

// The entries of saved bytes: where they end and how long their forms are together.
#[derive(Clone, Copy)]
pub struct Scanned {
    pub end: usize,
    pub total: usize,
}

// The entry at `at`, by its length alone, if that is good.
fn entry_at(s: &[u8], at: usize) -> Option<Entry>
    ensures { Frames s.now at result }
{
    let Ok(v) = numbers::varint(s, at) else {
        return None;
    };
    if !v.shortest {
        return None;
    }
    let length = v.number as usize;
    if s.len() - v.next < length {
        return None;
    }
    Some(Entry {
        start: v.next,
        length,
    })
}

// The entry at `at`, if it is good: no bytes, or a written form.
fn take_entry(s: &[u8], at: usize) -> Option<Entry>
    ensures { Takes s.now at result }
{
    let entry = entry_at(s, at)?;
    if entry.length == 0 {
        return Some(entry);
    }
    let end = entry.start + entry.length;
    if !form_check::is_form(&s[entry.start..end]) {
        return None;
    }
    Some(entry)
}

// Judges n entries of s from `first` on.
pub fn scan_entries(s: &[u8], first: usize, n: usize) -> Option<Scanned>
    requires { n ≤ 64 }
    ensures { Scans s.now first n result }
{
    let mut end: usize = first;
    let mut total: usize = 0;
    for k in 0..n {
        let entry = take_entry(s, end)?;
        end = entry.start + entry.length;
        total += entry.length;
    }
    Some(Scanned { end, total })
}

// Empties all slots.
fn empty_all(dir: &mut [u32], n: usize)
    requires { (n ≤ 64) × (length dir.old ≡ 2 * n) }
    ensures { (j : ℕ) → j < n → length_at dir.new j ≡ 0 }
{
    for k in 0..n {
        dir[2 * k + 1] = 0;
    }
}

// Gives slot k the m bytes of s from a on, laid at `to`, and says where the next go.
fn give(
    dir: &mut [u32],
    buf: &mut [u8],
    n: usize,
    k: usize,
    s: &[u8],
    a: usize,
    m: usize,
    to: usize,
) -> usize
    requires { (n ≤ 64) × (k < n) × (length dir.old ≡ 2 * n) × Given s.now a m × (to + m ≤ length buf.old) × (to < 4294967296) }
    ensures { (result ≡ to + m) × ((acc : List (List ℕ)) → Loading n dir.old buf.old k to acc → Loading n dir.new buf.new (k + 1) (to + m) (acc ++ (take m (drop a s.now) ∷ []))) }
{
    if m == 0 {
        return to;
    }
    byte_move::copy_part(s, a, m, buf, to);
    dir[2 * k] = to as u32;
    dir[2 * k + 1] = m as u32;
    to + m
}

// Gives each of n slots its entry of the judged bytes s from `first` on.
pub fn give_all(dir: &mut [u32], buf: &mut [u8], n: usize, s: &[u8], first: usize)
    requires { (n ≤ 64) × (length dir.old ≡ 2 * n) × ((r : Scan) × (scan s.now first [] n ≡ found r) × (total r.held ≤ length buf.old)) }
    ensures { (x : Scan) → scan s.now first [] n ≡ found x → Lies n dir.new buf.new × ((j : ℕ) → j < n → entry_at dir.new buf.new j ≡ get_or x.held j []) }
{
    empty_all(dir, n);
    let mut at: usize = first;
    let mut to: usize = 0;
    for k in 0..n {
        let Some(entry) = entry_at(s, at) else {
            return;
        };
        to = give(dir, buf, n, k, s, entry.start, entry.length, to);
        at = entry.start + entry.length;
    }
}
