#![tactic(auto)]

// One owner's half of a store: its 32 slots judged, saved, and given their entries of saved bytes. Owner o, 0 or 1, has the numbers from
// 64 · o on and the o-th half of the buffer. Inner: no entry point.
ghost use Rattle.std.specs.Prelude.{◌≡◌, [], ℕ, ◌+◌, ◌*◌, ◌≤◌, ◌<◌, length};
ghost use Rattle.common.specs.Outcome.{found};
ghost use Rattle.bitmap_spec.specs.Output.{written};
ghost use Rattle.bitmap_spec.proofs.Tally.{tally};
ghost use Rattle.store_spec.specs.Store.{length_at, sound, total};
ghost use Rattle.store_spec.specs.Owners.{half, part, OwnLeft};
ghost use Rattle.store_spec.specs.Saved.{saved, Scan, scan};
ghost use Rattle.store_laws.proofs.Slots.{Lies};
ghost use Rattle.store_save.specs.Size.{entry_size};
ghost use Rattle.store_halves.specs.Half.{held, Ends};

// The owner's numbers.
pub fn numbers_of<'a>(dir: &'a [u32], o: usize) -> &'a [u32]
    requires { (o ≤ 1) × (length dir.now ≡ 128) }
    ensures { result.now ≡ part o 64 dir.now }
{
    let a = o * 64;
    &dir[a..a + 64]
}

// The owner's half.
pub fn bytes_of<'a>(buf: &'a [u8], o: usize) -> &'a [u8]
    requires { o ≤ 1 }
    ensures { result.now ≡ part o (half buf.now) buf.now }
{
    let h = buf.len() / 2;
    let s = o * h;
    &buf[s..s + h]
}

// Whether the owner's slots hold forms lying apart in its half.
pub fn is_sound(dir: &[u32], buf: &[u8], o: usize) -> bool
    requires { (o ≤ 1) × (length dir.now ≡ 128) }
    ensures { result ≡ sound 32 (part o 64 dir.now) (part o (half buf.now) buf.now) }
{
    store_slots::is_sound(numbers_of(dir, o), bytes_of(buf, o), 32)
}

// How many bytes the saved entries of a sound half take.
pub fn entries_size(dir: &[u32], o: usize) -> usize
    requires { (o ≤ 1) × (length dir.now ≡ 128) × ((k : ℕ) → k < 32 → length_at (part o 64 dir.now) k < 2097152) }
    ensures { (result ≡ tally (entry_size (part o 64 dir.now)) 0 32) × (result ≤ 32 * 2097155) }
{
    store_save::entries_size(numbers_of(dir, o), 32)
}

// Writes the entries of a sound half from out[at] on.
pub fn put_entries(dir: &[u32], buf: &[u8], o: usize, out: &mut [u8], at: usize) -> usize
    requires { (o ≤ 1) × (length dir.now ≡ 128) × Lies 32 (part o 64 dir.now) (part o (half buf.now) buf.now) × (at + length (saved (held o dir.now buf.now)) ≤ length out.old) }
    ensures { (result ≡ length (saved (held o dir.now buf.now))) × (out.new ≡ written out.old at (saved (held o dir.now buf.now))) }
{
    store_save::put_entries(numbers_of(dir, o), bytes_of(buf, o), 32, out, at)
}

// Judges 32 entries of the saved bytes from `first` on, which must fit a half of h bytes together, and says where they end.
pub fn scan_entries(saved: &[u8], first: usize, h: usize) -> Option<usize>
    ensures { Ends saved.now first h result }
{
    let entries = store_load::scan_entries(saved, first, 32)?;
    if h < entries.total {
        return None;
    }
    Some(entries.end)
}

// Gives each of the owner's slots its entry of the judged bytes from `first` on.
pub fn give_all(dir: &mut [u32], buf: &mut [u8], o: usize, saved: &[u8], first: usize)
    requires { (o ≤ 1) × (length dir.old ≡ 128) × ((x : Scan) × (scan saved.now first [] 32 ≡ found x) × (total x.held ≤ half buf.old)) }
    ensures { (x : Scan) → scan saved.now first [] 32 ≡ found x → OwnLeft o (found x.held) dir.old buf.old dir.new buf.new }
{
    let a = o * 64;
    let h = buf.len() / 2;
    let s = o * h;
    store_load::give_all(&mut dir[a..a + 64], &mut buf[s..s + h], 32, saved, first);
}
