#![tactic(auto)]

// The written form of a judged bitmap: its descriptors settled, its header and descriptor chunks written anew, its containers' bytes as
// they are. Inner: no entry point.
ghost use Rattle.std.specs.Prelude.{◌≡◌, ℕ, ◌+◌, ◌≤◌, ◌<◌, min, length, get_or, take};
ghost use Rattle.bitmap_spec.specs.Output.{written};
ghost use Rattle.bitmap_laws.proofs.Values.{AllLe};
ghost use Rattle.bitmap_rewrite.specs.Settled.{Settled, laid, Prepares};

use common::Refusal;

// A judged bitmap made ready for its form: how many descriptors the form has, where its containers start, its cardinality, and the
// form's length.
#[derive(Clone, Copy)]
pub struct Prepared {
    pub count: usize,
    pub start: usize,
    pub cardinality: u32,
    pub size: usize,
}

// Makes each of the first n descriptors at most 32.
fn level(d: &mut [u8], n: usize)
    requires { n ≤ length d.old }
    ensures { (k : ℕ) → k < n → get_or d.new k 0 ≡ min (get_or d.old k 0) 32 }
{
    for i in 0..n {
        if 32 < d[i] {
            d[i] = 32;
        }
    }
}

// Turns the n descriptors of a judged bitmap into those of its written form, and says how many these are.
fn settle(d: &mut [u8], n: usize) -> usize
    requires { n ≤ length d.old }
    ensures { Settled d.old d.new n result }
{
    level(d, n);
    form_write::trim(d, n)
}

// How many bytes the form of the judged bitmap s takes, whose settled descriptors are the first n of d.
fn laid_size(s: &[u8], start: usize, d: &[u8], n: usize) -> usize
    requires { (start ≤ length s.now) × (length s.now ≤ start + 262144) × (n ≤ 8192) × (n ≤ length d.now) × AllLe 63 (take n d.now) }
    ensures { result ≡ length (laid s.now start (take n d.now) 0) }
{
    6 + chunks_write::chunks_size(&d[..n]) + (s.len() - start)
}

// Judges s and settles its descriptors, the first `count` bytes of d; the form has them, and the bytes of s from `start` on.
pub fn prepare(s: &[u8], d: &mut [u8; 8192]) -> Result<Prepared, Refusal>
    ensures { Prepares s.now d.new result }
{
    let judged = judge::judge_into(s, d)?;
    let count = settle(d, judged.count);
    let size = laid_size(s, judged.start, d, count);
    Ok(Prepared {
        count,
        start: judged.start,
        cardinality: judged.cardinality,
        size,
    })
}

// Writes the form of the judged bitmap s, whose settled descriptors are ds, from the start of out on.
pub fn put_laid(s: &[u8], start: usize, ds: &[u8], card: u32, out: &mut [u8])
    requires { (start ≤ length s.now) × (length ds.now ≤ 8192) × AllLe 63 ds.now × (length (laid s.now start ds.now card) ≤ length out.old) }
    ensures { out.new ≡ written out.old 0 (laid s.now start ds.now card) }
{
    let to = form_write::put_head(ds, card, out);
    byte_move::copy_part(s, start, s.len() - start, out, to);
}
