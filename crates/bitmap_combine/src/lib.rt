#![tactic(auto)]

// Combining two bitmaps: union, intersection, difference and symmetric difference, each written in the one form.
// The first bitmap is judged wholly before the second (refusals 1 to 11), then room (13).
// A refusal leaves the output as it was.
ghost use Rattle.std.specs.Prelude.{◌≤◌, length};
ghost use Rattle.bitmap_spec.specs.Output.{called, Gives};
ghost use Rattle.judge.specs.Post.{RoomFor};

use bitmap_spec::Operation;
use common::Refusal;
use judge::Set;

// Judges two bitmaps, the first wholly before the second, and writes the form of both combined, with room for the
// descriptors of each.
fn combine_in(
    o: Operation,
    a: &[u8],
    da: &mut [u8],
    b: &[u8],
    db: &mut [u8],
    out: &mut [u8],
) -> Result<usize, Refusal>
    requires { RoomFor a.now (length da.old) × RoomFor b.now (length db.old) }
    ensures { Gives (called o a.now b.now (length out.old)) out.old out.new result }
{
    let x = judge::judge_slice(a, da)?;
    let y = judge::judge_slice(b, db)?;
    let first = Set {
        bytes: a,
        descriptors: &da[..x.count],
        start: x.start,
        cardinality: x.cardinality,
    };
    let second = Set {
        bytes: b,
        descriptors: &db[..y.count],
        start: y.start,
        cardinality: y.cardinality,
    };
    pair_place::put_combined(o, first, second, out)
}

// The same with room for N descriptors of each: small arrays are cleared faster.
fn combine_by_arrays<const N: usize>(
    o: Operation,
    a: &[u8],
    b: &[u8],
    out: &mut [u8],
) -> Result<usize, Refusal>
    requires { RoomFor a.now N × RoomFor b.now N × (N ≤ 8192) }
    ensures { Gives (called o a.now b.now (length out.old)) out.old out.new result }
{
    let mut da = [0u8; N];
    let mut db = [0u8; N];
    combine_in(o, a, &mut da, b, &mut db, out)
}

// The same without room given: 256 descriptors where both announce no more. The four calls differ in the operation
// alone.
fn combine(o: Operation, a: &[u8], b: &[u8], out: &mut [u8]) -> Result<usize, Refusal>
    ensures { Gives (called o a.now b.now (length out.old)) out.old out.new result }
{
    if judge::is_small(a) {
        if judge::is_small(b) {
            return combine_by_arrays::<256>(o, a, b, out);
        }
    }
    combine_by_arrays::<8192>(o, a, b, out)
}

// Writes the positions that are in at least one of the two bitmaps.
pub fn union(a: &[u8], b: &[u8], out: &mut [u8]) -> Result<usize, Refusal>
    ensures { Gives (called Operation.Union a.now b.now (length out.old)) out.old out.new result }
{
    combine(Operation::Union, a, b, out)
}

// Writes the positions that are in both bitmaps.
pub fn intersection(a: &[u8], b: &[u8], out: &mut [u8]) -> Result<usize, Refusal>
    ensures { Gives (called Operation.Intersection a.now b.now (length out.old)) out.old out.new result }
{
    combine(Operation::Intersection, a, b, out)
}

// Writes the positions that are in the first bitmap alone.
pub fn difference(a: &[u8], b: &[u8], out: &mut [u8]) -> Result<usize, Refusal>
    ensures { Gives (called Operation.Difference a.now b.now (length out.old)) out.old out.new result }
{
    combine(Operation::Difference, a, b, out)
}

// Writes the positions that are in exactly one of the two bitmaps: 01's either-but-not-both.
pub fn symmetric_difference(a: &[u8], b: &[u8], out: &mut [u8]) -> Result<usize, Refusal>
    ensures { Gives (called Operation.SymmetricDifference a.now b.now (length out.old)) out.old out.new result }
{
    combine(Operation::SymmetricDifference, a, b, out)
}
