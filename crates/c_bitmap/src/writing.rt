// Writing and combining bitmaps.
ghost use Rattle.std.specs.Prelude.{length};
ghost use Rattle.bitmap_spec.specs.Output.{write, called};
ghost use Rattle.bitmap_spec.specs.declared.Operation.TheVariants.{Union, Intersection, Difference, SymmetricDifference};
ghost use Rattle.c_bitmap.specs.Writing.{WriteCall};

use crate::answer;

// Writes the form of the listed positions.
pub fn bitmap_write(positions: &[u32], out: &mut [u8], size: &mut usize) -> u32
    ensures { WriteCall (write positions.now (length out.old)) result out.old out.new size.old size.new }
{
    answer(bitmap_write::write_list(positions, out), size)
}

// Writes the positions that are in at least one of the two bitmaps.
pub fn bitmap_union(a: &[u8], b: &[u8], out: &mut [u8], size: &mut usize) -> u32
    ensures { WriteCall (called Union a.now b.now (length out.old)) result out.old out.new size.old size.new }
{
    answer(bitmap_combine::union(a, b, out), size)
}

// Writes the positions that are in both bitmaps.
pub fn bitmap_intersection(a: &[u8], b: &[u8], out: &mut [u8], size: &mut usize) -> u32
    ensures { WriteCall (called Intersection a.now b.now (length out.old)) result out.old out.new size.old size.new }
{
    answer(bitmap_combine::intersection(a, b, out), size)
}

// Writes the positions that are in the first bitmap alone.
pub fn bitmap_difference(a: &[u8], b: &[u8], out: &mut [u8], size: &mut usize) -> u32
    ensures { WriteCall (called Difference a.now b.now (length out.old)) result out.old out.new size.old size.new }
{
    answer(bitmap_combine::difference(a, b, out), size)
}

// Writes the positions that are in exactly one of the two bitmaps.
pub fn bitmap_symmetric_difference(a: &[u8], b: &[u8], out: &mut [u8], size: &mut usize) -> u32
    ensures { WriteCall (called SymmetricDifference a.now b.now (length out.old)) result out.old out.new size.old size.new }
{
    answer(bitmap_combine::symmetric_difference(a, b, out), size)
}
