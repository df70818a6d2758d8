// Source 002's five chunks: their values as plain bytes, their judgement as descriptors, and the chunk that is written of
// these. The lines are compared with the file stdout.
#![tactic(auto)]

ghost use Rattle.std.specs.Prelude.{◌≡◌, false, ◌+◌, ◌*◌, ◌≤◌, ◌<◌, length};
ghost use Rattle.bitmap_spec.specs.Judge.{head_at, part, descriptor};
ghost use Rattle.bitmap_laws.proofs.Values.{AllLe};
ghost use Rattle.chunk_vectors.specs.Within.{Laid, Within};

use bitmap_spec::ChunkHead;
use std::io;
use std::io::Write;

// What the exceptions add to value i, in units of 2^b1.
fn part_of(s: &[u8], h: ChunkHead, i: usize) -> u32
    requires { Within s.now h 0 }
    ensures { (result ≡ part s.now h h.e i) × (result ≤ 255 * 255) }
{
    let mut sum: u32 = 0;
    for k in 0..h.e {
        let o = h.offsets;
        if s[o + k] as usize == i {
            sum += bits::packed_value(s, h.parts, h.b2, k);
        }
    }
    sum
}

// Value i: m + primary value, plus 2^b1 times its exception part.
fn value_of(s: &[u8], h: ChunkHead, n: usize, i: usize) -> u32
    requires { (i < n) × (h.m < 256) × Within s.now h n }
    ensures { result ≡ descriptor s.now h i }
{
    let p = bits::packed_value(s, h.primary, h.b1, i);
    let x = part_of(s, h, i);
    h.m + p + x * (1 << h.b1)
}

// The three bytes of a chunk of n values, and where its arrays start.
fn head_of(s: &[u8], n: usize) -> ChunkHead
    requires { (3 ≤ length s.now) × (n ≤ 256) }
    ensures { (result ≡ head_at s.now 0 n) × Laid n result }
{
    let first = s[0];
    let b1 = (first % 16) as u32;
    let e = s[1] as usize;
    let offsets = 3 + (n * (b1 as usize) + 7) / 8;
    ChunkHead {
        b1,
        b2: (first / 16) as u32,
        e,
        m: s[2] as u32,
        primary: 3,
        offsets,
        parts: offsets + e,
    }
}

// Prints the n values.
fn show<W: Write>(to: &mut W, s: &[u8], h: ChunkHead, n: usize) -> io::Result<()>
    requires { (h.m < 256) × Within s.now h n }
{
    for i in 0..n {
        let value = value_of(s, h, n, i);
        write!(to, " {value}")?;
    }
    Ok(())
}

// Prints the n values of the chunk, if its arrays lie within the bytes.
fn values<W: Write>(to: &mut W, s: &[u8], n: usize) -> io::Result<()> {
    if s.len() < 3 {
        return Ok(());
    }
    if 256 < n {
        return Ok(());
    }
    let h = head_of(s, n);
    if 8 < h.b1 + h.b2 {
        return Ok(());
    }
    if s.len() < h.parts + (h.e * (h.b2 as usize) + 7) / 8 {
        return Ok(());
    }
    show(to, s, h, n)
}

// Whether any is over 63.
fn any_large(ds: &[u8]) -> bool
    ensures { result ≡ false → AllLe 63 ds.now }
{
    for &d in ds {
        if 63 < d {
            return true;
        }
    }
    false
}

// Prints the chunk that is written of descriptors up to 63.
fn written<W: Write>(to: &mut W, ds: &[u8]) -> io::Result<()> {
    let mut out = [0u8; 195];
    if ds.len() == 0 {
        return Ok(());
    }
    if 256 < ds.len() {
        return Ok(());
    }
    if any_large(ds) {
        return Ok(());
    }
    let size = chunk_write::put_chunk(ds, &mut out, 0);
    write!(to, "; written ")?;
    vector_text::print_bytes(to, &out[..size])
}

// Prints how the chunk is judged as n descriptors, and what is written of them.
fn judged<W: Write>(to: &mut W, s: &[u8], n: usize) -> io::Result<()> {
    let mut out = [0u8; 256];
    if 256 < n {
        return Ok(());
    }
    match chunk_read::chunk_at(s, 0, n, &mut out, 0) {
        Err(refusal) => write!(to, "; {refusal}"),
        Ok(at) => {
            write!(to, "; accepted, bytes {at}")?;
            written(to, &out[..n])
        }
    }
}

// One line.
fn line<W: Write>(to: &mut W, s: &[u8], n: usize) -> io::Result<()> {
    write!(to, "{n} values:")?;
    values(to, s, n)?;
    judged(to, s, n)?;
    writeln!(to)
}

fn main(rt: HostRuntime) -> io::Result<()> {
    let mut to = io::writer(&rt);
    line(&mut to, b"\x00\x00\x00", 256)?;
    line(&mut to, b"\x00\x00\x05", 51)?;
    line(&mut to, b"\x80\x02\x00\x04\x07\xff\xfe", 8)?;
    line(&mut to, b"\x02\x00\x06\x18", 3)?;
    line(&mut to, b"\x32\x01\x06\x09\x01\xe0", 4)?;
    to.flush()
}
