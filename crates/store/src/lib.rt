#![tactic(auto)]

// A store of up to 64 numbered bitmaps in one lent buffer, which two owners share: put, fetch and drop of an owner, save and load of both.
// Owner 0 has slots 0 to 31 and the buffer's first half, owner 1 slots 32 to 63 and the second; half is the length divided by 2, rounded
// down. The directory has 128 numbers: for slot k, number 2k says where its form starts in its owner's half and number 2k + 1 how long it
// is; a length of 0 is an empty slot. A fresh directory is all zeros. An owner's call judges and changes nothing but its own slots and
// half. A refused call leaves directory, buffer and output as they were.
ghost use Rattle.std.specs.Prelude.{◌≡◌, length};
ghost use Rattle.bitmap_spec.specs.Output.{Gives};
ghost use Rattle.store_spec.specs.Owners.{half, put_on, fetch_on, drop_on, OwnChanges, OwnDrops, AllChanges};
ghost use Rattle.store_spec.specs.Saved.{save_on, load_on};
ghost use Rattle.common.specs.Refusal.{outcome};
ghost use Rattle.store.specs.First.{first_refusal};

use common::Refusal;

// The refusal of an owner's call before its slots are judged: 40, 44, 42.
fn first_refusal(owner: u32, slot: u32, numbers: usize) -> Result<(), Refusal>
    ensures { outcome result ≡ first_refusal owner slot numbers }
{
    if 63 < slot {
        return Err(Refusal::StoreSlot);
    }
    if slot / 32 != owner {
        return Err(Refusal::StoreOwner);
    }
    if numbers != 128 {
        return Err(Refusal::StoreBad);
    }
    Ok(())
}

// Stores the written form of a bitmap in a slot of the owner, in place of what the slot held: 40, 44, 42, the bitmap's own 1 to 11, 13 by
// the owner's half. Where forms lie in that half then, and all its other bytes, are free.
pub fn put(
    dir: &mut [u32],
    buf: &mut [u8],
    owner: u32,
    slot: u32,
    bitmap: &[u8],
) -> Result<(), Refusal>
    ensures { OwnChanges owner (put_on owner slot bitmap.now dir.old buf.old) dir.old buf.old dir.new buf.new result }
{
    first_refusal(owner, slot, dir.len())?;
    let o = owner as usize;
    let k = slot as usize % 32;
    let a = o * 64;
    let h = buf.len() / 2;
    let s = o * h;
    store_share::put(&mut dir[a..a + 64], &mut buf[s..s + h], 32, k, bitmap)
}

// Copies the form of a slot of the owner to the start of the output and gives its length: 40, 44, 42, 41, 13.
pub fn fetch(
    dir: &[u32],
    buf: &[u8],
    owner: u32,
    slot: u32,
    out: &mut [u8],
) -> Result<usize, Refusal>
    ensures { Gives (fetch_on owner slot (length out.old) dir.now buf.now) out.old out.new result }
{
    first_refusal(owner, slot, dir.len())?;
    let o = owner as usize;
    let k = slot as usize % 32;
    let numbers = store_halves::numbers_of(dir, o);
    store_share::fetch(numbers, store_halves::bytes_of(buf, o), 32, k, out)
}

// Empties a slot of the owner: 40, 44, 42, 41. Its length becomes 0, all else stays.
pub fn drop_slot(dir: &mut [u32], buf: &[u8], owner: u32, slot: u32) -> Result<(), Refusal>
    ensures { OwnDrops owner (drop_on owner slot dir.old buf.now) slot dir.old buf.now dir.new result }
{
    first_refusal(owner, slot, dir.len())?;
    let o = owner as usize;
    let k = slot as usize % 32;
    let a = o * 64;
    let half = store_halves::bytes_of(buf, o);
    store_share::clear(&mut dir[a..a + 64], half, 32, k)
}

// Saves both owners' slots to the output, in the order of their numbers, and gives the length: 42, 13.
pub fn save(dir: &[u32], buf: &[u8], out: &mut [u8]) -> Result<usize, Refusal>
    ensures { Gives (save_on (length out.old) dir.now buf.now) out.old out.new result }
{
    if dir.len() != 128 {
        return Err(Refusal::StoreBad);
    }
    if !store_halves::is_sound(dir, buf, 0) {
        return Err(Refusal::StoreBad);
    }
    if !store_halves::is_sound(dir, buf, 1) {
        return Err(Refusal::StoreBad);
    }
    let x = store_halves::entries_size(dir, 0);
    let y = store_halves::entries_size(dir, 1);
    if out.len() < x + y {
        return Err(Refusal::Room);
    }
    let t = store_halves::put_entries(dir, buf, 0, out, 0);
    store_halves::put_entries(dir, buf, 1, out, t);
    Ok(x + y)
}

// Loads a saved store in place of what the store held, which is not judged: 42, also where the first 32 forms or the last are together
// longer than a half. Where forms lie in their halves then, and all other bytes of the halves, are free.
pub fn load(dir: &mut [u32], buf: &mut [u8], saved: &[u8]) -> Result<(), Refusal>
    ensures { AllChanges (load_on dir.old (half buf.old) saved.now) dir.old buf.old dir.new buf.new result }
{
    if dir.len() != 128 {
        return Err(Refusal::StoreBad);
    }
    let h = buf.len() / 2;
    let Some(p) = store_halves::scan_entries(saved, 0, h) else {
        return Err(Refusal::StoreBad);
    };
    let Some(q) = store_halves::scan_entries(saved, p, h) else {
        return Err(Refusal::StoreBad);
    };
    if q != saved.len() {
        return Err(Refusal::StoreBad);
    }
    store_halves::give_all(dir, buf, 0, saved, 0);
    store_halves::give_all(dir, buf, 1, saved, p);
    Ok(())
}
