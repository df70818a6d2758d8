#![tactic(auto)]

// The fault of one chunk that was refused. Inner: no entry point.
ghost use Rattle.std.specs.Prelude.{◌≡◌, true, ◌+◌, ◌*◌, ◌≤◌, ◌<◌, length, take, drop};
ghost use Rattle.common.specs.Lists.{rising};
ghost use Rattle.bitmap_spec.specs.Judge.{descriptor, chunk_end};
ghost use Rattle.chunk_read.specs.Post.{Laid};
ghost use Rattle.bitmap_explain_spec.specs.Explain.{fault, risen, first_over, explained_with, explained_chunk};
ghost use Rattle.bitmap_explain_spec.specs.Told.{numbers};
ghost use Rattle.common.specs.Refusal.{number};
ghost use Rattle.bitmap_explain_chunk.specs.Post.{Tells, Reached, Owns};

use bitmap_explain_spec::Fault;
use bitmap_spec::ChunkHead;
use common::Refusal;

// A fault of a chunk or container that tells its place alone.
pub fn fault_of_part(refusal: Refusal, index: usize, byte: usize) -> Fault
    ensures { numbers result ≡ fault (number refusal) index byte 0 0 }
{
    Fault {
        refusal,
        index,
        byte,
        found: 0,
        wanted: 0,
    }
}

// How many of the offsets, from the first on, rise strictly and are below n.
fn risen_at(offsets: &[u8], n: usize) -> usize
    ensures { (result ≡ risen n 0 offsets.now) × (result ≤ length offsets.now) }
{
    let mut low: usize = 0;
    for (i, &x) in offsets.iter().enumerate() {
        let offset = x as usize;
        if offset < low {
            return i;
        }
        if n <= offset {
            return i;
        }
        low = offset + 1;
    }
    offsets.len()
}

// Whether there is an exception j, and it is descriptor i's.
fn owns(s: &[u8], h: ChunkHead, i: usize, j: usize) -> bool
    requires { h.offsets + h.e ≤ length s.now }
    ensures { Owns s.now h i j result }
{
    if h.e <= j {
        return false;
    }
    s[h.offsets + j] as usize == i
}

// Descriptor i, where exception j is the first that does not lie before it.
fn descriptor_at(s: &[u8], h: ChunkHead, i: usize, j: usize) -> u32
    requires { (h.m < 256) × (i < 256) × (h.b1 + h.b2 ≤ 8) × (h.e < 256) × (h.primary * 8 + i * h.b1 + h.b1 ≤ length s.now * 8) × (h.offsets + h.e ≤ length s.now) × (h.parts * 8 + h.e * h.b2 ≤ length s.now * 8) × Reached s.now h i j }
    ensures { result ≡ descriptor s.now h i }
{
    let v = h.m + bits::packed_value(s, h.primary, h.b1, i);
    if owns(s, h, i, j) {
        return v + (bits::packed_value(s, h.parts, h.b2, j) << h.b1);
    }
    v
}

// The first of the n descriptors that is over 63; 0 if there is none.
fn first_over(s: &[u8], h: ChunkHead, n: usize) -> u32
    requires { (h.m < 256) × Laid (length s.now) n h × (chunk_end h ≤ length s.now) × (rising n 0 (take h.e (drop h.offsets s.now)) ≡ true) }
    ensures { result ≡ first_over (descriptor s.now h) 0 n }
{
    let mut j: usize = 0;
    for i in 0..n {
        let v = descriptor_at(s, h, i, j);
        if 63 < v {
            return v;
        }
        j += owns(s, h, i, j) as usize;
    }
    0
}

// The fault of chunk `index`, of n descriptors, at `at`, after its three bytes and the rule on widths: 4, 6, 7, 8.
fn arrays_fault(s: &[u8], index: usize, at: usize, n: usize, h: ChunkHead) -> Fault
    requires { (h.m < 256) × Laid (length s.now) n h }
    ensures { Tells (explained_with s.now index at n h) (numbers result) }
{
    let end = h.parts + (h.e * (h.b2 as usize) + 7) / 8;
    if s.len() < end {
        return fault_of_part(Refusal::ChunkCut, index, at);
    }
    let j = risen_at(&s[h.offsets..h.parts], n);
    if j < h.e {
        return fault_of_part(Refusal::ChunkOffsets, index, h.offsets + j);
    }
    if !chunk_read::spare_zero(s, h.primary, h.b1, n) {
        return fault_of_part(
            Refusal::ChunkSpare,
            index,
            h.primary + n * (h.b1 as usize) / 8,
        );
    }
    if !chunk_read::spare_zero(s, h.parts, h.b2, h.e) {
        return fault_of_part(
            Refusal::ChunkSpare,
            index,
            h.parts + h.e * (h.b2 as usize) / 8,
        );
    }
    let v = first_over(s, h, n);
    Fault {
        refusal: Refusal::ChunkDescriptor,
        index,
        byte: at,
        found: v as usize,
        wanted: 63,
    }
}

// The fault of chunk `index`, of n descriptors, at `at`, where it has one.
pub fn chunk_fault(s: &[u8], index: usize, at: usize, n: usize) -> Fault
    requires { (at ≤ length s.now) × (n ≤ 256) }
    ensures { Tells (explained_chunk s.now index at n) (numbers result) }
{
    if s.len() < at + 3 {
        return fault_of_part(Refusal::ChunkCut, index, at);
    }
    let h = chunk_read::head_at(s, at, n);
    if !chunk_read::widths_ok(h) {
        return fault_of_part(Refusal::ChunkWidths, index, at);
    }
    arrays_fault(s, index, at, n, h)
}
