#![tactic(auto)]

// The calls of the C interface on a store as plain functions, which c_api hands on. Every call returns 0 and does its work, or returns
// the refusal's number and leaves buffer, directory and every output untouched.
ghost use Rattle.std.specs.Prelude.{◌≡◌, length};
ghost use Rattle.common.specs.Outcome.{status};
ghost use Rattle.store_spec.specs.Store.{told};
ghost use Rattle.store_spec.specs.Owners.{half, put_on, fetch_on, drop_on};
ghost use Rattle.store_spec.specs.Saved.{save_on, load_on};
ghost use Rattle.c_bitmap.specs.Writing.{WriteCall};
ghost use Rattle.c_store.specs.Storing.{PutCall, DropCall, LoadCall};

use common::Refusal;

// The answer of a call that changes a store, as a status.
fn status_of(s: Result<(), Refusal>) -> u32
    ensures { result ≡ status (told s) }
{
    match s {
        Err(refusal) => u32::from(refusal),
        Ok(()) => 0,
    }
}

// Stores the written form of a bitmap in a slot of the owner.
pub fn store_put(
    buffer: &mut [u8],
    directory: &mut [u32],
    owner: u32,
    slot: u32,
    bitmap: &[u8],
) -> u32
    ensures { PutCall owner (put_on owner slot bitmap.now directory.old buffer.old) result directory.old buffer.old directory.new buffer.new }
{
    status_of(store::put(directory, buffer, owner, slot, bitmap))
}

// Copies the form of a slot of the owner to the output.
pub fn store_fetch(
    buffer: &[u8],
    directory: &[u32],
    owner: u32,
    slot: u32,
    out: &mut [u8],
    size: &mut usize,
) -> u32
    ensures { WriteCall (fetch_on owner slot (length out.old) directory.now buffer.now) result out.old out.new size.old size.new }
{
    c_bitmap::answer(store::fetch(directory, buffer, owner, slot, out), size)
}

// Empties a slot of the owner.
pub fn store_drop(buffer: &[u8], directory: &mut [u32], owner: u32, slot: u32) -> u32
    ensures { DropCall owner (drop_on owner slot directory.old buffer.now) slot result directory.old buffer.now directory.new }
{
    status_of(store::drop_slot(directory, buffer, owner, slot))
}

// Saves both owners' slots to the output.
pub fn store_save(buffer: &[u8], directory: &[u32], out: &mut [u8], size: &mut usize) -> u32
    ensures { WriteCall (save_on (length out.old) directory.now buffer.now) result out.old out.new size.old size.new }
{
    c_bitmap::answer(store::save(directory, buffer, out), size)
}

// Loads a saved store in place of what the store held.
pub fn store_load(buffer: &mut [u8], directory: &mut [u32], saved: &[u8]) -> u32
    ensures { LoadCall (load_on directory.old (half buffer.old) saved.now) result directory.old buffer.old directory.new buffer.new }
{
    status_of(store::load(directory, buffer, saved))
}
