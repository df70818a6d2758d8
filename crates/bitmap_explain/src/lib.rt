#![tactic(auto)]

// Why a bitmap is refused.
ghost use Rattle.std.specs.Prelude.{◌≡◌, length};
ghost use Rattle.bitmap_explain_spec.specs.Explain.{fault_of, explained};
ghost use Rattle.bitmap_explain_spec.specs.Told.{told, Finds};
ghost use Rattle.judge.specs.Post.{RoomFor};

use bitmap_explain_spec::Fault;
use bitmap_explain_walk::fault_of_whole;
use common::Refusal;

// Walks s rule by rule, in their order, with room for its descriptors: its first fault, or none.
fn walk_again(s: &[u8], d: &mut [u8]) -> Result<(), Fault>
    requires { RoomFor s.now (length d.old) }
    ensures { Finds (explained s.now) result }
{
    if s.len() < 6 {
        return Err(fault_of_whole(Refusal::BitmapShort, 0, s.len(), 6));
    }
    if s[0] != 1 {
        return Err(fault_of_whole(Refusal::BitmapVersion, 0, s[0] as usize, 1));
    }
    let count = (s[4] as usize) + 256 * (s[5] as usize);
    if 8192 < count {
        return Err(fault_of_whole(Refusal::BitmapContainers, 4, count, 8192));
    }
    let start = bitmap_explain_walk::chunks_fault(s, count / 256, count % 256, d)?;
    bitmap_explain_walk::body_fault(s, start, d, count)
}

// Judges s with room for its descriptors; if it is refused, walks it again for the place.
fn explain_in(s: &[u8], d: &mut [u8]) -> Option<Fault>
    requires { RoomFor s.now (length d.old) }
    ensures { told result ≡ fault_of (explained s.now) }
{
    match judge::judge_slice(s, d) {
        Ok(_) => None,
        Err(_) => walk_again(s, d).err(),
    }
}

// The fault of s: the first rule that it breaks, where, what was found and what was wanted. None where s is accepted.
pub fn explain(s: &[u8]) -> Option<Fault>
    ensures { told result ≡ fault_of (explained s.now) }
{
    if judge::is_small(s) {
        return explain_in(s, &mut [0u8; 256]);
    }
    explain_in(s, &mut [0u8; 8192])
}
