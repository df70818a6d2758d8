#![tactic(auto)]

// All chunks of descriptors, written. Inner: no entry point.
ghost use Rattle.std.specs.Prelude.{◌≡◌, List, ◌⊎◌, ℕ, ◌+◌, ◌-◌, ◌*◌, ◌/◌, ◌≤◌, ◌<◌, length};
ghost use Rattle.bitmap_spec.specs.Form.{write_chunks};
ghost use Rattle.bitmap_spec.specs.Output.{written};
ghost use Rattle.bitmap_laws.proofs.Values.{AllLe};

// Where the chunk at i ends, of n descriptors.
pub fn chunk_end(i: usize, n: usize) -> usize
    requires { (i < n) × (n ≤ 8192) }
    ensures { (i < result) × (result ≤ n) × (result ≤ i + 256) × ((result ≡ i + 256) ⊎ (result ≡ n)) }
{
    if n - i < 256 {
        return n;
    }
    i + 256
}

// How many bytes all chunks take.
pub fn chunks_size(ds: &[u8]) -> usize
    requires { (length ds.now ≤ 8192) × AllLe 63 ds.now }
    ensures { (result ≡ length (write_chunks (length ds.now / 256) ds.now)) × (result ≤ 6240) }
{
    let mut t: usize = 0;
    for chunk in ds.chunks(256) {
        t += chunk_write::chunk_size(chunk);
    }
    t
}

// All chunks, from out[at] on.
pub fn put_chunks(ds: &[u8], out: &mut [u8], at: usize) -> usize
    requires { (length ds.now ≤ 8192) × AllLe 63 ds.now × (at + length (write_chunks (length ds.now / 256) ds.now) ≤ length out.old) }
    ensures { (result ≡ length (write_chunks (length ds.now / 256) ds.now)) × (out.new ≡ written out.old at (write_chunks (length ds.now / 256) ds.now)) }
{
    let mut t: usize = 0;
    for chunk in ds.chunks(256) {
        t += chunk_write::put_chunk(chunk, out, at + t);
    }
    t
}
