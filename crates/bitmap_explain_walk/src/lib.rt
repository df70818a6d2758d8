#![tactic(auto)]

// The first fault of all chunks, and of what follows them. Inner: no entry point.
ghost use Rattle.std.specs.Prelude.{◌≡◌, [], ◌+◌, ◌*◌, ◌≤◌, ◌<◌, length, take};
ghost use Rattle.common.specs.Lists.{sum};
ghost use Rattle.common.specs.Bytes.{little_at};
ghost use Rattle.bitmap_spec.specs.Judge.{size_of};
ghost use Rattle.bitmap_explain_spec.specs.Explain.{fault, explained_chunks, explained_body};
ghost use Rattle.bitmap_explain_spec.specs.Told.{numbers, Finds};
ghost use Rattle.common.specs.Refusal.{number};
ghost use Rattle.bitmap_explain_walk.specs.Post.{Walks, Counts};

use bitmap_explain_spec::Fault;
use common::Refusal;

// A fault of the whole bitmap, with what was found and what was wanted.
pub fn fault_of_whole(refusal: Refusal, byte: usize, found: usize, wanted: usize) -> Fault
    ensures { numbers result ≡ fault (number refusal) 0 byte found wanted }
{
    Fault {
        refusal,
        index: 0,
        byte,
        found,
        wanted,
    }
}

// The first fault of the whole chunks of 256, and then of the last of fewer; or where they end, with their descriptors
// in out.
pub fn chunks_fault(s: &[u8], whole: usize, rest: usize, out: &mut [u8]) -> Result<usize, Fault>
    requires { (6 ≤ length s.now) × (rest < 256) × (whole * 256 + rest ≤ length out.old) }
    ensures { Walks (explained_chunks s.now 0 6 [] whole rest) (length s.now) out.new (whole * 256 + rest) result }
{
    let mut at: usize = 6;
    for i in 0..whole {
        match chunk_read::chunk_at(s, at, 256, out, i * 256) {
            Ok(a) => {
                at = a;
            }
            Err(_) => {
                return Err(bitmap_explain_chunk::chunk_fault(s, i, at, 256));
            }
        }
    }
    if rest == 0 {
        return Ok(at);
    }
    match chunk_read::chunk_at(s, at, rest, out, whole * 256) {
        Ok(a) => Ok(a),
        Err(_) => Err(bitmap_explain_chunk::chunk_fault(s, whole, at, rest)),
    }
}

// The fault of the first container that is not well formed; or how many members all have.
fn containers_fault(s: &[u8], from: usize, d: &[u8], n: usize) -> Result<u32, Fault>
    requires { (n ≤ 8192) × (n ≤ length d.now) × (from + sum size_of (take n d.now) ≡ length s.now) }
    ensures { Counts s.now from (take n d.now) result }
{
    let mut at = from;
    let mut members: u32 = 0;
    for i in 0..n {
        let t = d[i];
        match judge::container_at(s, at, t) {
            Some(m) => {
                members += m;
            }
            None => {
                return Err(bitmap_explain_chunk::fault_of_part(Refusal::Container, i, at));
            }
        }
        at += judge::size_of(t);
    }
    Ok(members)
}

// The cardinality that the header says.
fn stored(s: &[u8]) -> u32
    requires { 4 ≤ length s.now }
    ensures { result ≡ little_at s.now 1 3 }
{
    (s[1] as u32) + 256 * ((s[2] as u32) + 256 * (s[3] as u32))
}

// What follows the descriptors: faults 9, 10, 11, or none.
pub fn body_fault(s: &[u8], at: usize, d: &[u8], n: usize) -> Result<(), Fault>
    requires { (4 ≤ length s.now) × (at ≤ length s.now) × (n ≤ 8192) × (n ≤ length d.now) }
    ensures { Finds (explained_body s.now (record { descs = take n d.now; next = at })) result }
{
    let total = judge::sizes(d, n);
    if at + total != s.len() {
        return Err(fault_of_whole(Refusal::BitmapRest, at, s.len() - at, total));
    }
    let members = containers_fault(s, at, d, n)?;
    let said = stored(s);
    if said != members {
        return Err(fault_of_whole(Refusal::Cardinality, 1, said as usize, members as usize));
    }
    Ok(())
}
