#![tactic(auto)]

// Judging a whole bitmap: its refusal, or its descriptors and where its containers start. Inner: no entry point.
ghost use Rattle.std.specs.Prelude.{◌≡◌, true, [], ◌+◌, ◌*◌, ◌≤◌, ◌<◌, length, take, drop};
ghost use Rattle.common.specs.Lists.{sum, rising};
ghost use Rattle.common.specs.Bytes.{little_at};
ghost use Rattle.bitmap_spec.specs.Judge.{size_of, chunks, judge_body};
ghost use Rattle.bitmap_spec.proofs.Reading.{walk};
ghost use Rattle.bitmap_spec.proofs.Tally.{tally};
ghost use Rattle.common.specs.Refusal.{outcome};
ghost use Rattle.judge.specs.Asking.{Asked, Finds};
ghost use Rattle.judge.specs.Post.{size_of_set, Listed, Held, SliceView, ReadView, JudgesIn, Judges, RoomFor, fall, edge_falls, Sparse, Thin, Passes, size_at};

use common::Refusal;

mod set;

pub use set::Set;

// A judged bitmap: how many descriptors it has, where its containers start, and its cardinality.
#[derive(Clone, Copy)]
pub struct Accepted {
    pub count: usize,
    pub start: usize,
    pub cardinality: u32,
}

// Containers that rise, one after the other: how many they are, and how many bytes they have.
#[derive(Clone, Copy)]
struct Passed {
    count: usize,
    bytes: usize,
}

// The whole chunks of 256, and then the last of fewer.
fn descriptors(s: &[u8], whole: usize, rest: usize, out: &mut [u8]) -> Result<usize, Refusal>
    requires { (6 ≤ length s.now) × (rest < 256) × (whole * 256 + rest ≤ length out.old) }
    ensures { Listed (chunks s.now 6 [] whole rest) out.new (whole * 256 + rest) result }
{
    let mut at: usize = 6;
    for i in 0..whole {
        at = chunk_read::chunk_at(s, at, 256, out, i * 256)?;
    }
    if rest == 0 {
        return Ok(at);
    }
    chunk_read::chunk_at(s, at, rest, out, whole * 256)
}

// How many bytes a container takes.
pub fn size_of(d: u8) -> usize
    ensures { result ≡ size_of d }
{
    if d < 32 {
        return d as usize;
    }
    32
}

// How many of the n bytes at i, at most 240, do not rise above the byte before them. Counted in a byte and with no
// return on the way: of that the back end compares sixteen at a time.
fn falls(s: &[u8], i: usize, n: usize) -> u8
    requires { (1 ≤ i) × (n ≤ 240) × (i + n ≤ length s.now) }
    ensures { (result ≡ tally (fall s.now) i n) × (result ≤ n) }
{
    let mut f: u8 = 0;
    for t in 0..n {
        f += (s[i + t] <= s[i + t - 1]) as u8;
    }
    f
}

// The same of any number of bytes.
fn all_falls(s: &[u8], from: usize, n: usize) -> usize
    requires { (1 ≤ from) × (from + n ≤ length s.now) }
    ensures { result ≡ tally (fall s.now) from n }
{
    let blocks = n / 240;
    let mut f: usize = 0;
    for b in 0..blocks {
        f += falls(s, from + b * 240, 240) as usize;
    }
    f + falls(s, from + blocks * 240, n % 240) as usize
}

// The same of the first byte of each container that has one. With no branch: an empty container is compared too, and
// taken off at the end.
fn edges(s: &[u8], from: usize, d: &[u8], n: usize) -> usize
    requires { (1 ≤ from) × (n ≤ length d.now) × Sparse d.now n × (from + sum size_of (take n d.now) ≡ length s.now) }
    ensures { result ≡ edge_falls s.now from (take n d.now) }
{
    let mut at = from;
    let mut f: usize = 0;
    let mut empty: usize = 0;
    for i in 0..n {
        let t = d[i];
        let z = (t == 0) as usize;
        f += (s[at - z] <= s[at - 1]) as usize;
        empty += z;
        at += t as usize;
    }
    f - empty
}

// Whether every container is sparse. Gathered and tested once: of that the back end takes sixteen at a time, which a
// return on the way forbids.
fn all_sparse(d: &[u8], n: usize) -> bool
    requires { n ≤ length d.now }
    ensures { result ≡ true → Sparse d.now n }
{
    let mut any: u8 = 0;
    for i in 0..n {
        any = any | d[i];
    }
    any < 32
}

// Whether the n bytes at `at`, at most 32, rise strictly.
fn rises(s: &[u8], at: usize, n: usize) -> bool
    requires { (n ≤ 32) × (at + n ≤ length s.now) }
    ensures { result ≡ rising 256 0 (take n (drop at s.now)) }
{
    if n < 2 {
        return true;
    }
    falls(s, at + 1, n - 1) == 0
}

// How many members the container of descriptor d at `at` has, if it is well formed.
pub fn container_at(s: &[u8], at: usize, d: u8) -> Option<u32>
    requires { at + size_of d ≤ length s.now }
    ensures { Held s.now at d result }
{
    if d < 32 {
        return rises(s, at, d as usize).then_some(d as u32);
    }
    let n = bits::dense_count(s, at);
    (32 <= n).then_some(n)
}

// The bytes that the n descriptors from i on, at most 256, ask for. Counted in 16 bits: of that the back end adds eight
// at a time.
fn sizes_in(d: &[u8], i: usize, n: usize) -> u16
    requires { (n ≤ 256) × (i + n ≤ length d.now) }
    ensures { (result ≡ tally (size_at d.now) i n) × (result ≤ n * 32) }
{
    let mut t: u16 = 0;
    for k in 0..n {
        t += size_of(d[i + k]) as u16;
    }
    t
}

// The bytes that the first n descriptors ask for.
pub fn sizes(d: &[u8], n: usize) -> usize
    requires { (n ≤ 8192) × (n ≤ length d.now) }
    ensures { (result ≡ sum size_of (take n d.now)) × (result ≤ 262144) }
{
    let blocks = n / 256;
    let mut t: usize = 0;
    for b in 0..blocks {
        t += sizes_in(d, b * 256, 256) as usize;
    }
    t + sizes_in(d, blocks * 256, n % 256) as usize
}

// The containers, one after the other, with their members counted.
fn walk_each(s: &[u8], from: usize, d: &[u8], n: usize) -> Result<u32, Refusal>
    requires { (n ≤ 8192) × (n ≤ length d.now) × (from + sum size_of (take n d.now) ≡ length s.now) }
    ensures { outcome result ≡ walk s.now from 0 (take n d.now) }
{
    let mut at = from;
    let mut card: u32 = 0;
    for i in 0..n {
        let t = d[i];
        card += container_at(s, at, t).ok_or(Refusal::Container)?;
        at += size_of(t);
    }
    Ok(card)
}

// Sparse containers alone, all at once: they rise if no bytes fall but first bytes of containers, and their members are
// their bytes.
fn walk_sparse(s: &[u8], from: usize, d: &[u8], n: usize) -> Result<u32, Refusal>
    requires { (1 ≤ from) × (n ≤ 8192) × (n ≤ length d.now) × Sparse d.now n × (from + sum size_of (take n d.now) ≡ length s.now) }
    ensures { outcome result ≡ walk s.now from 0 (take n d.now) }
{
    let m = s.len() - from;
    if m < n / 2 {
        return walk_thin(s, from, d, n);
    }
    let all = all_falls(s, from, m);
    if all == edges(s, from, d, n) {
        return Ok(m as u32);
    }
    Err(Refusal::Container)
}

// Whether the eight descriptors from i on are there and none is over 1. As one word: a thin bitmap has thousands.
fn eight_thin(d: &[u8], i: usize, n: usize) -> bool
    requires { (i ≤ n) × (n ≤ length d.now) }
    ensures { result ≡ true → (i + 8 ≤ n) × Thin d.now i 8 }
{
    if n - i < 8 {
        return false;
    }
    words::low_word(d, i) & 18374403900871474942 == 0
}

// The next containers: eight of no or one member, which always rise, or one.
fn pass(s: &[u8], at: usize, d: &[u8], i: usize, n: usize) -> Option<Passed>
    requires { (i < n) × (n ≤ length d.now) × Sparse d.now n × (at + sum size_of (drop i (take n d.now)) ≡ length s.now) }
    ensures { Passes s.now d.now n at i result }
{
    if eight_thin(d, i, n) {
        let bytes = u64::count_ones(words::low_word(d, i)) as usize;
        return Some(Passed { count: 8, bytes });
    }
    let bytes = d[i] as usize;
    rises(s, at, bytes).then_some(Passed { count: 1, bytes })
}

// Sparse containers, most of them of no or one member: their members are their bytes. A while, since a step passes one
// container or eight.
fn walk_thin(s: &[u8], from: usize, d: &[u8], n: usize) -> Result<u32, Refusal>
    requires { (n ≤ 8192) × (n ≤ length d.now) × Sparse d.now n × (from + sum size_of (take n d.now) ≡ length s.now) }
    ensures { outcome result ≡ walk s.now from 0 (take n d.now) }
{
    let mut at = from;
    let mut i: usize = 0;
    while i < n {
        let p = pass(s, at, d, i, n).ok_or(Refusal::Container)?;
        at += p.bytes;
        i += p.count;
    }
    Ok((at - from) as u32)
}

// Whether the containers can be judged all at once: a byte stands before them, and all are sparse.
fn at_once(from: usize, d: &[u8], n: usize) -> bool
    requires { n ≤ length d.now }
    ensures { result ≡ true → (1 ≤ from) × Sparse d.now n }
{
    if from == 0 {
        return false;
    }
    all_sparse(d, n)
}

// The containers, with their members counted. walk_each is called here alone, so that the back end inlines it.
fn walk_containers(s: &[u8], from: usize, d: &[u8], n: usize) -> Result<u32, Refusal>
    requires { (n ≤ 8192) × (n ≤ length d.now) × (from + sum size_of (take n d.now) ≡ length s.now) }
    ensures { outcome result ≡ walk s.now from 0 (take n d.now) }
{
    if at_once(from, d, n) {
        return walk_sparse(s, from, d, n);
    }
    walk_each(s, from, d, n)
}

// What follows the descriptors: refusals 9, 10, 11.
fn judge_body(s: &[u8], at: usize, d: &[u8], n: usize) -> Result<u32, Refusal>
    requires { (4 ≤ length s.now) × (at ≤ length s.now) × (n ≤ 8192) × (n ≤ length d.now) }
    ensures { outcome result ≡ size_of_set (judge_body s.now (record { descs = take n d.now; next = at })) }
{
    let total = sizes(d, n);
    if at + total != s.len() {
        return Err(Refusal::BitmapRest);
    }
    let card = walk_containers(s, at, d, n)?;
    let stored = (s[1] as u32) + 256 * ((s[2] as u32) + 256 * (s[3] as u32));
    if stored != card {
        return Err(Refusal::Cardinality);
    }
    Ok(card)
}

// Whether the header says at most 256 containers, so that 256 descriptors are enough; without a header none is read.
pub fn is_small(s: &[u8]) -> bool
    ensures { result ≡ true → 6 ≤ length s.now → little_at s.now 4 2 ≤ 256 }
{
    if s.len() < 6 {
        return true;
    }
    (s[4] as usize) + 256 * (s[5] as usize) <= 256
}

// Judges s. Where it is accepted, the first `count` bytes of d are its descriptors and its containers start at `start`.
// The rest of d is free, and all of it after a refusal.
pub fn judge_read(s: &[u8], d: &mut [u8]) -> Result<Accepted, Refusal>
    requires { RoomFor s.now (length d.old) }
    ensures { JudgesIn ReadView s.now d.new result }
{
    if s.len() < 6 {
        return Err(Refusal::BitmapShort);
    }
    if s[0] != 1 {
        return Err(Refusal::BitmapVersion);
    }
    let count = (s[4] as usize) + 256 * (s[5] as usize);
    if 8192 < count {
        return Err(Refusal::BitmapContainers);
    }
    let start = descriptors(s, count / 256, count % 256, d)?;
    let cardinality = judge_body(s, start, d, count)?;
    Ok(Accepted {
        count,
        start,
        cardinality,
    })
}

// The same, for those who ask for the containers alone.
pub fn judge_slice(s: &[u8], d: &mut [u8]) -> Result<Accepted, Refusal>
    requires { RoomFor s.now (length d.old) }
    ensures { JudgesIn SliceView s.now d.new result }
{
    judge_read(s, d)
}

// The same with room for every bitmap's descriptors.
pub fn judge_into(s: &[u8], d: &mut [u8; 8192]) -> Result<Accepted, Refusal>
    ensures { Judges s.now d.new result }
{
    judge_slice(s, d)
}

// Judges s with room for its descriptors: its set.
pub fn set_in<'a>(s: &'a [u8], d: &'a mut [u8]) -> Result<Set<'a>, Refusal>
    requires { RoomFor s.now (length d.old) }
    ensures { Finds s.now result }
{
    let a = judge_slice(s, d)?;
    Ok(Set {
        bytes: s,
        descriptors: &d[..a.count],
        start: a.start,
        cardinality: a.cardinality,
    })
}

// Judges s, then asks its set. Where 256 descriptors are enough, no more are cleared: to clear 8,192 bytes takes longer
// than to judge a small bitmap.
pub fn ask<A, F: FnOnce(Set<'_>) -> A>(s: &[u8], question: F) -> Result<A, Refusal>
    requires { F.IsAlwaysCallable question }
    ensures { Asked (F.post question) s.now result }
{
    if is_small(s) {
        return Ok(question(set_in(s, &mut [0u8; 256])?));
    }
    Ok(question(set_in(s, &mut [0u8; 8192])?))
}
