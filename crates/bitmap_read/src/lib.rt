#![tactic(auto)]

// Questions to a bitmap: is it accepted and how many members it has, is a position a member, how many members lie below it.
ghost use Rattle.std.specs.Prelude.{◌≡◌, ◌+◌, ◌≤◌, ◌<◌, length, take, drop};
ghost use Rattle.common.specs.Lists.{mem};
ghost use Rattle.bitmap_spec.specs.Judge.{size_of, container};
ghost use Rattle.bitmap_spec.specs.Ask as ask;
ghost use Rattle.judge.specs.Asking.{members};
ghost use Rattle.common.specs.Refusal.{outcome};

use common::Refusal;
use judge::Set;

// Whether j is a member of the container of descriptor d at byte `at`.
fn container_has(s: &[u8], at: usize, d: u8, j: u8) -> bool
    requires { at + size_of d ≤ length s.now }
    ensures { result ≡ mem j (container s.now at d) }
{
    if d < 32 {
        return s[at..at + d as usize].contains(&j);
    }
    let i = j as usize;
    bits::bit_of(s[at + i / 8], i) == 1
}

// Whether the position is a member of the set.
fn set_has(set: &Set<'_>, position: u32) -> bool
    ensures { result ≡ mem position (members set.now) }
{
    let k = (position / 256) as usize;
    if set.descriptors.len() <= k {
        return false;
    }
    let at = set.start + judge::sizes(set.descriptors, k);
    container_has(set.bytes, at, set.descriptors[k], (position % 256) as u8)
}

// How many of the n bytes from `at` on are below j. A loop: of so few bytes `filter` and `count` take longer.
fn listed_below(s: &[u8], at: usize, n: usize, j: u8) -> u32
    requires { (n ≤ 32) × (at + n ≤ length s.now) }
    ensures { result ≡ ask.below j (take n (drop at s.now)) }
{
    let mut below: u32 = 0;
    for i in 0..n {
        if s[at + i] < j {
            below += 1;
        }
    }
    below
}

// How many members of the container of descriptor d at byte `at` lie below j.
fn container_below(s: &[u8], at: usize, d: u8, j: u8) -> u32
    requires { at + size_of d ≤ length s.now }
    ensures { result ≡ ask.below j (container s.now at d) }
{
    if d < 32 {
        return listed_below(s, at, d as usize, j);
    }
    bits::dense_below(s, at, j as usize)
}

// How many members the container of descriptor d at byte `at` has.
fn container_count(s: &[u8], at: usize, d: u8) -> u32
    requires { at + size_of d ≤ length s.now }
    ensures { result ≡ length (container s.now at d) }
{
    if d < 32 {
        return d as u32;
    }
    bits::dense_count(s, at)
}

// How many members of the set lie below the position: those of the containers before its own, and some of its own. Not inlined:
// where it is, the back end clears the room for 8,192 descriptors also where 256 are enough.
#[inline(never)]
fn set_below(set: &Set<'_>, position: u32) -> u32
    ensures { result ≡ ask.below position (members set.now) }
{
    let own = (position / 256) as usize;
    let mut at = set.start;
    let mut below: u32 = 0;
    for (i, &t) in set.descriptors.iter().enumerate() {
        if i == own {
            return below + container_below(set.bytes, at, t, (position % 256) as u8);
        }
        below += container_count(set.bytes, at, t);
        at += judge::size_of(t);
    }
    below
}

// Judges s: its refusal, or its cardinality.
pub fn check(s: &[u8]) -> Result<u32, Refusal>
    ensures { outcome result ≡ ask.check s.now }
{
    judge::ask(s, |set| set.cardinality)
}

// Judges s: its refusal, or whether the position is a member. Any 32-bit number may be asked.
pub fn probe(s: &[u8], position: u32) -> Result<bool, Refusal>
    ensures { outcome result ≡ ask.probe s.now position }
{
    judge::ask(s, |set| set_has(&set, position))
}

// Judges s: its refusal, or how many members lie below the position. Any 32-bit number may be asked.
pub fn rank(s: &[u8], position: u32) -> Result<u32, Refusal>
    ensures { outcome result ≡ ask.rank s.now position }
{
    judge::ask(s, |set| set_below(&set, position))
}
