#![tactic(auto)]

// A form's length, header and descriptor chunks, from its descriptors. Inner: no entry point.
ghost use Rattle.std.specs.Prelude.{◌≡◌, ◌++◌, ◌+◌, ◌/◌, ◌≤◌, ◌<◌, length};
ghost use Rattle.common.specs.Lists.{sum};
ghost use Rattle.bitmap_spec.specs.Judge.{size_of};
ghost use Rattle.bitmap_spec.specs.Form.{write_chunks};
ghost use Rattle.bitmap_spec.specs.Output.{written};
ghost use Rattle.bitmap_laws.proofs.Round.{header};
ghost use Rattle.bitmap_laws.proofs.Values.{AllLe};
ghost use Rattle.form_write.specs.Described.{Trimmed};

// How many descriptors are left where the last ones that are 0 are dropped.
pub fn trim(ds: &[u8], n: usize) -> usize
    requires { n ≤ length ds.now }
    ensures { Trimmed ds.now n result }
{
    for i in (0..n).rev() {
        if ds[i] != 0 {
            return i + 1;
        }
    }
    0
}

// The bytes that the containers of these descriptors take.
fn body_size(ds: &[u8]) -> usize
    requires { length ds.now ≤ 8192 }
    ensures { (result ≡ sum size_of ds.now) × (result ≤ 262144) }
{
    let mut t: usize = 0;
    for &d in ds {
        t += if d < 32 { d as usize } else { 32 };
    }
    t
}

// How many bytes a form with these descriptors takes.
pub fn form_size(ds: &[u8]) -> usize
    requires { (length ds.now ≤ 8192) × AllLe 63 ds.now }
    ensures { result ≡ 6 + length (write_chunks (length ds.now / 256) ds.now) + sum size_of ds.now }
{
    let c = chunks_write::chunks_size(ds);
    let b = body_size(ds);
    6 + c + b
}

// The header.
fn put_header(out: &mut [u8], card: u32, n: usize) -> usize
    requires { (6 ≤ length out.old) × (n < 65536) }
    ensures { (result ≡ 6) × (out.new ≡ written out.old 0 (header card n)) }
{
    chunk_write::put3(out, 0, 1, (card % 256) as u8, (card / 256 % 256) as u8);
    chunk_write::put3(
        out,
        3,
        (card / 256 / 256 % 256) as u8,
        (n % 256) as u8,
        (n / 256 % 256) as u8,
    );
    6
}

// The header and the descriptor chunks; says where the containers start.
pub fn put_head(ds: &[u8], card: u32, out: &mut [u8]) -> usize
    requires { (length ds.now ≤ 8192) × AllLe 63 ds.now × (6 + length (write_chunks (length ds.now / 256) ds.now) ≤ length out.old) }
    ensures { (result ≡ 6 + length (write_chunks (length ds.now / 256) ds.now)) × (out.new ≡ written out.old 0 (header card (length ds.now) ++ write_chunks (length ds.now / 256) ds.now)) }
{
    put_header(out, card, ds.len());
    let t = chunks_write::put_chunks(ds, out, 6);
    6 + t
}
