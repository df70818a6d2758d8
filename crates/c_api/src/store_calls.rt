// A store of bitmaps.
ghost use Rattle.std.specs.Prelude.{length};
ghost use Rattle.store_spec.specs.Owners.{half, put_on, fetch_on, drop_on};
ghost use Rattle.store_spec.specs.Saved.{save_on, load_on};
ghost use Rattle.c_bitmap.specs.Writing.{WriteCall};
ghost use Rattle.c_store.specs.Storing.{PutCall, DropCall, LoadCall};

// Stores the written form of a bitmap in a slot of the owner.
#[unsafe(no_mangle)]
pub extern "C" fn bv_store_put(
    buffer: &mut [u8],
    directory: &mut [u32],
    owner: u32,
    slot: u32,
    bitmap: &[u8],
) -> u32
    ensures { PutCall owner (put_on owner slot bitmap.now directory.old buffer.old) result directory.old buffer.old directory.new buffer.new }
{
    c_store::store_put(buffer, directory, owner, slot, bitmap)
}

// Copies the form of a slot of the owner to the output.
#[unsafe(no_mangle)]
pub extern "C" fn bv_store_fetch(
    buffer: &[u8],
    directory: &[u32],
    owner: u32,
    slot: u32,
    out: &mut [u8],
    size: &mut usize,
) -> u32
    ensures { WriteCall (fetch_on owner slot (length out.old) directory.now buffer.now) result out.old out.new size.old size.new }
{
    c_store::store_fetch(buffer, directory, owner, slot, out, size)
}

// Empties a slot of the owner.
#[unsafe(no_mangle)]
pub extern "C" fn bv_store_drop(buffer: &[u8], directory: &mut [u32], owner: u32, slot: u32) -> u32
    ensures { DropCall owner (drop_on owner slot directory.old buffer.now) slot result directory.old buffer.now directory.new }
{
    c_store::store_drop(buffer, directory, owner, slot)
}

// Saves both owners' slots to the output.
#[unsafe(no_mangle)]
pub extern "C" fn bv_store_save(
    buffer: &[u8],
    directory: &[u32],
    out: &mut [u8],
    size: &mut usize,
) -> u32
    ensures { WriteCall (save_on (length out.old) directory.now buffer.now) result out.old out.new size.old size.new }
{
    c_store::store_save(buffer, directory, out, size)
}

// Loads a saved store in place of what the store held.
#[unsafe(no_mangle)]
pub extern "C" fn bv_store_load(buffer: &mut [u8], directory: &mut [u32], saved: &[u8]) -> u32
    ensures { LoadCall (load_on directory.old (half buffer.old) saved.now) result directory.old buffer.old directory.new buffer.new }
{
    c_store::store_load(buffer, directory, saved)
}
