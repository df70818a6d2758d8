#![tactic(auto)]

// Two judged bitmaps combined, each pair of containers once: descriptors, members and bytes in one pass, or descriptors
// alone. Inner: no entry point. put_alone and put_filtered are called from two places, so that they stay out of the
// loop.
ghost use Rattle.std.specs.Prelude.{◌≡◌, true, false, ◌++◌, ℕ, ◌+◌, ◌-◌, ◌≤◌, ◌<◌, max, min, eqb, length, get_or, take, drop, replicate};
ghost use Rattle.common.specs.Lists.{keep, from};
ghost use Rattle.bitmap_spec.specs.Judge.{size_of, container, container_ok};
ghost use Rattle.bitmap_spec.specs.Form.{write_container};
ghost use Rattle.bitmap_spec.specs.Output.{written};
ghost use Rattle.bitmap_spec.specs.Sets.{holds};
ghost use Rattle.blocks.specs.Block.{block};
ghost use Rattle.form_write.specs.Described.{descs_to};
ghost use Rattle.pair_write.specs.Sides.{desc_at, half_holds, pair_holds, pair_members, want_of, kept, joined_count, is_union, Marks, Fresh, Reaches, Roomy, Gathers, result_of};

use bitmap_spec::Operation;
use judge::Set;

// Where the pass over the pairs stands: the members and bytes of the containers passed, and where the next two lie.
#[derive(Clone, Copy)]
pub struct Reached {
    pub card: u32,
    pub size: usize,
    pub at: usize,
    pub bt: usize,
}

// Descriptor k; past the last a container is empty.
fn descriptor_at(d: &[u8], k: usize) -> u8
    ensures { result ≡ desc_at d.now k }
{
    d.get(k).copied().unwrap_or(0)
}

// Joins the block of a at `at` with a container of b, as a block at out[to], and says how many members it has.
fn join_second(
    o: Operation,
    a: &[u8],
    at: usize,
    b: &[u8],
    bt: usize,
    e: u8,
    out: &mut [u8],
    to: usize,
) -> u32
    requires { (at + 32 ≤ length a.now) × (bt + size_of e ≤ length b.now) × (to + 32 ≤ length out.old) }
    ensures { (result ≡ length (keep (half_holds o a.now at b.now bt e) (from 0 256))) × (out.new ≡ written out.old to (block (half_holds o a.now at b.now bt e))) }
{
    if e < 32 {
        let y = blocks::load_sparse(b, bt, e as usize);
        return blocks::join(o, a, at, &y, 0, out, to);
    }
    blocks::join(o, a, at, b, bt, out, to)
}

// Joins two containers, as a block at out[to], and says how many members it has.
fn join_pair(
    o: Operation,
    a: &[u8],
    at: usize,
    d: u8,
    b: &[u8],
    bt: usize,
    e: u8,
    out: &mut [u8],
    to: usize,
) -> u32
    requires { (at + size_of d ≤ length a.now) × (bt + size_of e ≤ length b.now) × (to + 32 ≤ length out.old) }
    ensures { (result ≡ length (pair_members o a.now at d b.now bt e)) × (out.new ≡ written out.old to (block (pair_holds o a.now at d b.now bt e))) }
{
    if d < 32 {
        let x = blocks::load_sparse(a, at, d as usize);
        return join_second(o, &x, 0, b, bt, e, out, to);
    }
    join_second(o, a, at, b, bt, e, out, to)
}

// Whether the operation keeps what is in the first bitmap alone.
fn keeps_first(o: Operation) -> bool
    ensures { result ≡ holds o true false }
{
    match o {
        Operation::Union => true,
        Operation::Intersection => false,
        Operation::Difference => true,
        Operation::SymmetricDifference => true,
    }
}

// Whether the operation keeps what is in the second bitmap alone.
fn keeps_second(o: Operation) -> bool
    ensures { result ≡ holds o false true }
{
    match o {
        Operation::Union => true,
        Operation::Intersection => false,
        Operation::Difference => false,
        Operation::SymmetricDifference => true,
    }
}

// How many members a container has.
fn members(s: &[u8], at: usize, d: u8) -> u32
    requires { at + size_of d ≤ length s.now }
    ensures { (result ≡ length (container s.now at d)) × (result ≤ 256) }
{
    if d < 32 {
        return d as u32;
    }
    bits::dense_count(s, at)
}

// Copies an accepted container to out[to] and on, and says how many members it has.
fn put_copy(s: &[u8], at: usize, d: u8, out: &mut [u8], to: usize) -> u32
    requires { (at + size_of d ≤ length s.now) × (container_ok s.now at d ≡ true) × (to + 32 ≤ length out.old) }
    ensures { (result ≡ length (container s.now at d)) × (result ≤ 256) × (take (to + length (write_container (container s.now at d))) out.new ≡ take to out.old ++ write_container (container s.now at d)) }
{
    byte_move::copy_part(s, at, judge::size_of(d), out, to);
    members(s, at, d)
}

// Writes two containers combined, of which at least one is empty, from out[to] on, and says how many members they have.
fn put_alone(
    o: Operation,
    a: &[u8],
    at: usize,
    d: u8,
    b: &[u8],
    bt: usize,
    e: u8,
    out: &mut [u8],
    to: usize,
) -> u32
    requires { (min d e ≡ 0) × (at + size_of d ≤ length a.now) × (bt + size_of e ≤ length b.now) × (to + 32 ≤ length out.old) × (container_ok a.now at d ≡ true) × (container_ok b.now bt e ≡ true) }
    ensures { (result ≡ length (pair_members o a.now at d b.now bt e)) × (result ≤ 256)
        × (take (to + length (write_container (pair_members o a.now at d b.now bt e))) out.new ≡ take to out.old ++ write_container (pair_members o a.now at d b.now bt e)) }
{
    if e == 0 {
        if keeps_first(o) {
            return put_copy(a, at, d, out, to);
        }
        return 0;
    }
    if keeps_second(o) {
        return put_copy(b, bt, e, out, to);
    }
    0
}

// The bit in the second that a member of the first must have, where an operation keeps no other members.
fn wanted(o: Operation) -> u8
    ensures { result ≡ want_of o }
{
    match o {
        Operation::Union => 1,
        Operation::Intersection => 1,
        Operation::Difference => 0,
        Operation::SymmetricDifference => 0,
    }
}

// Copies those of the n bytes of s at `at` whose bit in the block of t at `start` is want to out[to] and on; says how
// many.
// Each is written, and the next one over it if it is not kept: no branch depends on a member.
fn filter(
    s: &[u8],
    at: usize,
    n: usize,
    t: &[u8],
    start: usize,
    want: u8,
    out: &mut [u8],
    to: usize,
) -> usize
    requires { (at + n ≤ length s.now) × (start + 32 ≤ length t.now) × (to + n ≤ length out.old) }
    ensures { (result ≡ length (kept s.now at n t.now start want)) × (result ≤ n) × (take (to + result) out.new ≡ take to out.old ++ kept s.now at n t.now start want) }
{
    let mut m: usize = 0;
    for i in 0..n {
        let x = s[at + i];
        out[to + m] = x;
        let z = bits::bit_of(t[start + (x / 8) as usize], (x % 8) as usize);
        m += (z == want) as usize;
    }
    m
}

// Writes two containers combined, of which the first is sparse, by an operation that keeps members of the first alone.
fn put_filtered(
    o: Operation,
    a: &[u8],
    at: usize,
    d: u8,
    b: &[u8],
    bt: usize,
    e: u8,
    out: &mut [u8],
    to: usize,
) -> u32
    requires { (d < 32) × (holds o false true ≡ false) × (at + size_of d ≤ length a.now) × (bt + size_of e ≤ length b.now) × (to + 32 ≤ length out.old) × (container_ok a.now at d ≡ true) }
    ensures { (result ≡ length (pair_members o a.now at d b.now bt e)) × (result ≤ 256)
        × (take (to + length (write_container (pair_members o a.now at d b.now bt e))) out.new ≡ take to out.old ++ write_container (pair_members o a.now at d b.now bt e)) }
{
    let w = wanted(o);
    if e < 32 {
        let y = blocks::load_sparse(b, bt, e as usize);
        return filter(a, at, d as usize, &y, 0, w, out, to) as u32;
    }
    filter(a, at, d as usize, b, bt, w, out, to) as u32
}

// Writes two containers combined from out[to] on, and says how many members they have; the rest of the 32 bytes there
// is left over.
fn put_pair(
    o: Operation,
    a: &[u8],
    at: usize,
    d: u8,
    b: &[u8],
    bt: usize,
    e: u8,
    out: &mut [u8],
    to: usize,
) -> u32
    requires { (at + size_of d ≤ length a.now) × (bt + size_of e ≤ length b.now) × (to + 32 ≤ length out.old) × (container_ok a.now at d ≡ true) × (container_ok b.now bt e ≡ true) }
    ensures { (result ≡ length (pair_members o a.now at d b.now bt e)) × (result ≤ 256)
        × (take (to + length (write_container (pair_members o a.now at d b.now bt e))) out.new ≡ take to out.old ++ write_container (pair_members o a.now at d b.now bt e)) }
{
    if d == 0 {
        if e == 0 {
            return 0;
        }
        return put_alone(o, a, at, d, b, bt, e, out, to);
    }
    if e == 0 {
        return put_alone(o, a, at, d, b, bt, e, out, to);
    }
    if d < 32 {
        if !keeps_second(o) {
            return put_filtered(o, a, at, d, b, bt, e, out, to);
        }
    }
    if e < 32 {
        if !keeps_first(o) {
            return put_filtered(o, b, bt, e, a, at, d, out, to);
        }
    }
    let c = join_pair(o, a, at, d, b, bt, e, out, to);
    if c < 32 {
        blocks::spread(out, to);
        return c;
    }
    c
}

// The descriptor of a container with n members.
fn descriptor(n: u32) -> u8
    ensures { result ≡ min n 32 }
{
    u32::min(n, 32) as u8
}

// How many of the eight containers from i on are seen to be empty, in order: all where there are no more descriptors.
fn empty_run(d: &[u8], i: usize) -> usize
    requires { i ≤ 8192 }
    ensures { (result ≤ 8) × ((j : ℕ) → j < result → desc_at d.now (i + j) ≡ 0) }
{
    if i + 8 <= d.len() {
        return words::empty_bytes(d, i);
    }
    if d.len() <= i {
        return 8;
    }
    0
}

// Goes on from container k, up to n, past containers that are empty in both bitmaps, eight at a time: most containers of
// a thin bitmap are empty.
fn pass_empty(d: &[u8], e: &[u8], k: usize, n: usize) -> usize
    requires { (k ≤ n) × (n ≤ 8192) }
    ensures { (k ≤ result) × (result ≤ n) × ((j : ℕ) → k ≤ j → j < result → (desc_at d.now j ≡ 0) × (desc_at e.now j ≡ 0)) }
{
    let mut i = k;
    // a step of 8
    while 8 <= n - i {
        let t = usize::min(empty_run(d, i), empty_run(e, i));
        if t < 8 {
            return i + t;
        }
        i += 8;
    }
    i
}

// Whether two containers are both empty.
fn both_empty(d: u8, e: u8) -> bool
    ensures { (result ≡ true → (d ≡ 0) × (e ≡ 0)) }
{
    d == 0 && e == 0
}

// Zeros from ds[k] up to ds[n].
fn clear(ds: &mut [u8], k: usize, n: usize)
    requires { (k ≤ n) × (n ≤ length ds.old) }
    ensures { ds.new ≡ written ds.old k (replicate (n - k) 0) }
{
    ds[k..n].fill(0);
}

// Goes on from container `start` to container n: fills in their descriptors, and puts their bytes from body[0] on.
pub fn gather(
    o: Operation,
    x: Set<'_>,
    y: Set<'_>,
    p: Reached,
    start: usize,
    n: usize,
    ds: &mut [u8],
    body: &mut [u8],
) -> Reached
    requires { Reaches (result_of o x y) x y start p × (start ≤ n) × (n ≤ 8192) × (n ≤ length ds.old) × Roomy (result_of o x y) start n p.size (length body.old) }
    ensures { Gathers (result_of o x.entry y.entry) x.entry y.entry start n p ds.old ds.new body.new result }
{
    let mut at = p.at;
    let mut bt = p.bt;
    let mut card = p.card;
    let mut t: usize = 0;
    clear(ds, start, n);
    let mut k = start;
    // a step of 1, or past empty containers
    while k < n {
        let d = descriptor_at(x.descriptors, k);
        let e = descriptor_at(y.descriptors, k);
        if both_empty(d, e) {
            k = pass_empty(x.descriptors, y.descriptors, k + 1, n);
        } else {
            let c = put_pair(o, x.bytes, at, d, y.bytes, bt, e, body, t);
            let m = descriptor(c);
            ds[k] = m;
            card += c;
            t += m as usize;
            at += judge::size_of(d);
            bt += judge::size_of(e);
            k += 1;
        }
    }
    let size = p.size + t;
    Reached { card, size, at, bt }
}

// How many members two sets of p and q members, c of them in both, have combined.
fn joined_count(o: Operation, p: u32, q: u32, c: u32) -> u32
    requires { (c ≤ p) × (c ≤ q) × (p ≤ 256) × (q ≤ 256) }
    ensures { result ≡ joined_count o p q c }
{
    match o {
        Operation::Union => p + q - c,
        Operation::Intersection => c,
        Operation::Difference => p - c,
        Operation::SymmetricDifference => p + q - 2 * c,
    }
}

// Whether the operation is the union: it alone keeps what is in the second alone, and what is in both.
fn is_union(o: Operation) -> bool
    ensures { result ≡ is_union o }
{
    if keeps_second(o) {
        return wanted(o) == 1;
    }
    false
}

// Gives the n bytes of s at `at` the stamp as their mark.
fn mark(s: &[u8], at: usize, n: usize, stamp: u16, marks: &mut [u16])
    requires { (at + n ≤ length s.now) × (256 ≤ length marks.old) }
    ensures { Marks (take n (drop at s.now)) stamp marks.old marks.new }
{
    for i in 0..n {
        marks[s[at + i] as usize] = stamp;
    }
}

// How many of the n bytes of s at `at` have the stamp as their mark.
fn marked(s: &[u8], at: usize, n: usize, stamp: u16, marks: &[u16]) -> u32
    requires { (at + n ≤ length s.now) × (256 ≤ length marks.now) × (n < 32) }
    ensures { result ≡ length (keep (λ x. eqb (get_or marks.now x 0) stamp) (take n (drop at s.now))) }
{
    let mut m: u32 = 0;
    for i in 0..n {
        m += (marks[s[at + i] as usize] == stamp) as u32;
    }
    m
}

// How many of the n bytes of s at `at` have their bit set in the block of t at `start`.
fn common(s: &[u8], at: usize, n: usize, t: &[u8], start: usize) -> u32
    requires { (at + n ≤ length s.now) × (start + 32 ≤ length t.now) × (n < 32) }
    ensures { result ≡ length (kept s.now at n t.now start 1) }
{
    let mut m: u32 = 0;
    for i in 0..n {
        let x = s[at + i];
        m += bits::bit_of(t[start + (x / 8) as usize], (x % 8) as usize) as u32;
    }
    m
}

// How many members two sparse containers have combined. The members of the second get a stamp that no mark had before,
// so that nothing is cleared.
fn sparse_count(
    o: Operation,
    a: &[u8],
    at: usize,
    d: u8,
    b: &[u8],
    bt: usize,
    e: u8,
    stamp: u16,
    marks: &mut [u16],
) -> u32
    requires { (d < 32) × (e < 32) × (at + size_of d ≤ length a.now) × (bt + size_of e ≤ length b.now) × (container_ok a.now at d ≡ true) × (container_ok b.now bt e ≡ true) × Fresh marks.old stamp }
    ensures { (result ≡ length (pair_members o a.now at d b.now bt e)) × Fresh marks.new (stamp + 1) }
{
    mark(b, bt, e as usize, stamp, marks);
    let c = marked(a, at, d as usize, stamp, marks);
    joined_count(o, d as u32, e as u32, c)
}

// How many members a dense container and a sparse one have combined.
fn dense_sparse(o: Operation, a: &[u8], at: usize, d: u8, b: &[u8], bt: usize, e: u8) -> u32
    requires { (32 ≤ d) × (e < 32) × (at + size_of d ≤ length a.now) × (bt + size_of e ≤ length b.now) × (container_ok a.now at d ≡ true) × (container_ok b.now bt e ≡ true) }
    ensures { result ≡ length (pair_members o a.now at d b.now bt e) }
{
    let c = common(b, bt, e as usize, a, at);
    if !keeps_first(o) {
        return c;
    }
    joined_count(o, members(a, at, d), e as u32, c)
}

// How many members a sparse container and a dense one have combined.
fn sparse_dense(o: Operation, a: &[u8], at: usize, d: u8, b: &[u8], bt: usize, e: u8) -> u32
    requires { (d < 32) × (32 ≤ e) × (at + size_of d ≤ length a.now) × (bt + size_of e ≤ length b.now) × (container_ok a.now at d ≡ true) × (container_ok b.now bt e ≡ true) }
    ensures { result ≡ length (pair_members o a.now at d b.now bt e) }
{
    let c = common(a, at, d as usize, b, bt);
    if !keeps_second(o) {
        return joined_count(o, d as u32, c, c);
    }
    joined_count(o, d as u32, members(b, bt, e), c)
}

// How many members two dense containers have combined; of a union, which has 32 or more, it says 32.
fn dense_dense(o: Operation, a: &[u8], at: usize, d: u8, b: &[u8], bt: usize, e: u8) -> u32
    requires { (32 ≤ d) × (32 ≤ e) × (at + size_of d ≤ length a.now) × (bt + size_of e ≤ length b.now) × (container_ok a.now at d ≡ true) × (container_ok b.now bt e ≡ true) }
    ensures { min result 32 ≡ min (length (pair_members o a.now at d b.now bt e)) 32 }
{
    match o {
        Operation::Union => 32,
        Operation::Intersection => blocks::and_count(a, at, b, bt),
        Operation::Difference => blocks::without_count(a, at, b, bt),
        Operation::SymmetricDifference => blocks::xor_count(a, at, b, bt),
    }
}

// How many members two containers, of which one is dense, have combined; of a union, which has 32 or more, it says 32.
fn mixed_count(o: Operation, a: &[u8], at: usize, d: u8, b: &[u8], bt: usize, e: u8) -> u32
    requires { (32 ≤ max d e) × (at + size_of d ≤ length a.now) × (bt + size_of e ≤ length b.now) × (container_ok a.now at d ≡ true) × (container_ok b.now bt e ≡ true) }
    ensures { min result 32 ≡ min (length (pair_members o a.now at d b.now bt e)) 32 }
{
    if is_union(o) {
        return 32;
    }
    if e < 32 {
        return dense_sparse(o, a, at, d, b, bt, e);
    }
    if d < 32 {
        return sparse_dense(o, a, at, d, b, bt, e);
    }
    dense_dense(o, a, at, d, b, bt, e)
}

// How many members two containers have combined; where there are 32 or more, a number of 32 or more, since a descriptor
// asks for nothing else. Every mark is below the stamp before, and at most the stamp after.
fn pair_count(
    o: Operation,
    a: &[u8],
    at: usize,
    d: u8,
    b: &[u8],
    bt: usize,
    e: u8,
    stamp: u16,
    marks: &mut [u16],
) -> u32
    requires { (at + size_of d ≤ length a.now) × (bt + size_of e ≤ length b.now) × (container_ok a.now at d ≡ true) × (container_ok b.now bt e ≡ true) × Fresh marks.old stamp }
    ensures { (min result 32 ≡ min (length (pair_members o a.now at d b.now bt e)) 32) × Fresh marks.new (stamp + 1) }
{
    if d == 0 {
        return joined_count(o, 0, e as u32, 0);
    }
    if e == 0 {
        return joined_count(o, d as u32, 0, 0);
    }
    if d < 32 {
        if e < 32 {
            return sparse_count(o, a, at, d, b, bt, e, stamp, marks);
        }
    }
    mixed_count(o, a, at, d, b, bt, e)
}

// Fills in the descriptors of the first n containers of the result, whose bytes nobody keeps.
pub fn describe(o: Operation, x: Set<'_>, y: Set<'_>, n: usize, ds: &mut [u8])
    requires { (n ≤ 8192) × (n ≤ length ds.old) }
    ensures { ds.new ≡ written ds.old 0 (descs_to (result_of o x.entry y.entry) n) }
{
    let mut marks = [0u16; 256];
    let mut at = x.start;
    let mut bt = y.start;
    clear(ds, 0, n);
    let mut k: usize = 0;
    // a step of 1, or past empty containers
    while k < n {
        let d = descriptor_at(x.descriptors, k);
        let e = descriptor_at(y.descriptors, k);
        if both_empty(d, e) {
            k = pass_empty(x.descriptors, y.descriptors, k + 1, n);
        } else {
            let c = pair_count(
                o,
                x.bytes,
                at,
                d,
                y.bytes,
                bt,
                e,
                (k + 1) as u16,
                &mut marks,
            );
            ds[k] = descriptor(c);
            at += judge::size_of(d);
            bt += judge::size_of(e);
            k += 1;
        }
    }
}
