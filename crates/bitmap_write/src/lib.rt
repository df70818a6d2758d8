#![tactic(auto)]

// Writing a list of positions as a bitmap, in the one written form.
// A first pass finds the descriptors and so the form's length; the second writes, container by container.
ghost use Rattle.std.specs.Prelude.{◌≡◌, true, map, ◌+◌, ◌-◌, ◌*◌, ◌≤◌, ◌<◌, min, length};
ghost use Rattle.common.specs.Lists.{rising, mem, from};
ghost use Rattle.bitmap_spec.specs.Form.{form, cut, count_of, write_container, write_containers};
ghost use Rattle.bitmap_spec.specs.Output.{written, placed, write, Gives};
ghost use Rattle.blocks.specs.Block.{block};
ghost use Rattle.form_write.specs.Described.{descs_to, Describes};
ghost use Rattle.bitmap_write.specs.Run.{Ends, run};

use common::Refusal;

// Whether the positions are strictly rising, and none is too large.
fn rises(ps: &[u32]) -> bool
    ensures { result ≡ rising 2097152 0 ps.now }
{
    let mut lo: u32 = 0;
    for &x in ps {
        if x < lo {
            return false;
        }
        if 2097152 <= x {
            return false;
        }
        lo = x + 1;
    }
    true
}

// The first index from i on whose position is not below b, or the end.
fn run_end(ps: &[u32], i: usize, b: u32) -> usize
    requires { i ≤ length ps.now }
    ensures { Ends ps.now i b result }
{
    let mut j = i;
    // a `for` costs a cycle more for each container
    while j < ps.len() {
        if b <= ps[j] {
            return j;
        }
        j += 1;
    }
    j
}

// How many containers the positions take.
fn count_of(ps: &[u32]) -> usize
    requires { rising 2097152 0 ps.now ≡ true }
    ensures { (result ≡ count_of ps.now) × (result ≤ 8192) }
{
    let n = ps.len();
    if n == 0 {
        return 0;
    }
    (ps[n - 1] / 256) as usize + 1
}

// The descriptor of a container with n members.
fn descriptor(n: usize) -> u8
    ensures { result ≡ min n 32 }
{
    if n < 32 {
        return n as u8;
    }
    32
}

// Fills in the descriptors, and says how many there are.
fn describe(ps: &[u32], ds: &mut [u8]) -> usize
    requires { (rising 2097152 0 ps.now ≡ true) × (length ds.old ≡ 8192) }
    ensures { (result ≡ count_of ps.now) × (result ≤ 8192) × (ds.new ≡ written ds.old 0 (descs_to ps.now result)) }
{
    let n = count_of(ps);
    let mut i: usize = 0;
    for k in 0..n {
        let j = run_end(ps, i, ((k + 1) * 256) as u32);
        ds[k] = descriptor(j - i);
        i = j;
    }
    n
}

// Writes positions i to j - 1 as members of their container, from out[at] on.
fn put_low(ps: &[u32], i: usize, j: usize, out: &mut [u8], at: usize) -> usize
    requires { (i ≤ j) × (j ≤ length ps.now) × (at + (j - i) ≤ length out.old) }
    ensures { (result ≡ j - i) × (out.new ≡ written out.old at (run ps.now i j)) }
{
    let n = j - i;
    for t in 0..n {
        out[at + t] = (ps[i + t] % 256) as u8;
    }
    n
}

// The block of positions i to j - 1.
fn run_block(ps: &[u32], i: usize, j: usize) -> [u8; 32]
    requires { (i ≤ j) × (j ≤ length ps.now) }
    ensures { result ≡ block (λ p. mem p (run ps.now i j)) }
{
    let mut b = [0u8; 32];
    let n = j - i;
    for t in 0..n {
        let x = (ps[i + t] % 256) as u8;
        let q = (x / 8) as usize;
        b[q] = b[q] | (128 >> (x % 8));
    }
    b
}

// Writes the container of positions i to j - 1, from out[at] on.
fn put_run(ps: &[u32], i: usize, j: usize, out: &mut [u8], at: usize) -> usize
    requires { (i ≤ j) × (j ≤ length ps.now) × (rising 256 0 (run ps.now i j) ≡ true) × (at + length (write_container (run ps.now i j)) ≤ length out.old) }
    ensures { (result ≡ length (write_container (run ps.now i j))) × (out.new ≡ written out.old at (write_container (run ps.now i j))) }
{
    if j - i < 32 {
        return put_low(ps, i, j, out, at);
    }
    blocks::put_block(run_block(ps, i, j), 32, out, at)
}

// Writes the first n containers of the positions, from out[at] on.
fn put_runs(ps: &[u32], n: usize, out: &mut [u8], at: usize) -> usize
    requires { (rising 2097152 0 ps.now ≡ true) × (n ≤ 8192) × (at + length (write_containers (map (cut ps.now) (from 0 n))) ≤ length out.old) }
    ensures { out.new ≡ written out.old at (write_containers (map (cut ps.now) (from 0 n))) }
{
    let mut t: usize = 0;
    let mut i: usize = 0;
    for k in 0..n {
        let j = run_end(ps, i, ((k + 1) * 256) as u32);
        t += put_run(ps, i, j, out, at + t);
        i = j;
    }
    t
}

// Writes the form of the positions whose descriptors are ds, or refuses for room.
fn put_form(ps: &[u32], ds: &[u8], out: &mut [u8]) -> Result<usize, Refusal>
    requires { Describes ps.now (length ds.now) (length ps.now) ds.now }
    ensures { Gives (placed (form ps.now) (length out.old)) out.old out.new result }
{
    let len = form_write::form_size(ds);
    if out.len() < len {
        return Err(Refusal::Room);
    }
    let at = form_write::put_head(ds, ps.len() as u32, out);
    put_runs(ps, ds.len(), out, at);
    Ok(len)
}

// Writes the form of the listed positions: its length, with the form first in the output and the rest as it was.
// Refuses a list that is not strictly rising or has a position over 2,097,151, then a form longer than the output; a
// refusal leaves the output as it was.
pub fn write_list(ps: &[u32], out: &mut [u8]) -> Result<usize, Refusal>
    ensures { Gives (write ps.now (length out.old)) out.old out.new result }
{
    if !rises(ps) {
        return Err(Refusal::Positions);
    }
    let mut ds = [0u8; 8192];
    let n = describe(ps, &mut ds);
    put_form(ps, &ds[..n], out)
}
