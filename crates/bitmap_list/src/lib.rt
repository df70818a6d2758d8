#![tactic(auto)]

// Listing a bitmap's members by pages. Place and finished mark go in and out by value.
ghost use Rattle.std.specs.Prelude.{◌≡◌, ◌+◌, ◌*◌, ◌≤◌, ◌<◌, length, get_or, take, drop};
ghost use Rattle.bitmap_spec.specs.Judge.{size_of, dense, container, members_from};
ghost use Rattle.bitmap_spec.specs.Ask as ask;
ghost use Rattle.judge.specs.Post.{RoomFor};
ghost use Rattle.judge.specs.Asking.{members};
ghost use Rattle.bitmap_read.proofs.Held.{Walk};
ghost use Rattle.bitmap_list.specs.Post.{Pages, Filled, Decoded, Spread};

use bitmap_spec::Listing;
use common::Refusal;
use judge::Set;

mod given;

pub use given::Page;

// How many members a page takes, the place after the last of them, and whether none remains.
#[derive(Clone, Copy)]
struct Run {
    given: usize,
    place: u32,
    all: bool,
}

// Writes the members among the eight bits of byte q of the dense container at byte `at`, behind the n that are there.
fn byte_members(s: &[u8], at: usize, q: usize, out: &mut [u8], n: usize) -> usize
    requires { (at + 32 ≤ length s.now) × (q < 32) × Spread s.now at out.old n (q * 8) }
    ensures { Spread s.now at out.new result (q * 8 + 8) }
{
    let b = s[at + q];
    let mut m = n;
    for i in 0..8 {
        out[m] = (q * 8 + i) as u8;
        m += bits::bit_of(b, i) as usize;
    }
    m
}

// Writes the members of the dense container at byte `at` and says how many there are.
fn dense_members(s: &[u8], at: usize, out: &mut [u8]) -> usize
    requires { (at + 32 ≤ length s.now) × (length out.old ≡ 256) }
    ensures { (result ≡ length (dense s.now at)) × (take result out.new ≡ dense s.now at) }
{
    let mut n: usize = 0;
    for q in 0..32 {
        n = byte_members(s, at, q, out, n);
    }
    n
}

// How many members the container of descriptor d at byte `at` has; a dense one's are written to out.
fn decode(s: &[u8], at: usize, d: u8, out: &mut [u8; 256]) -> usize
    requires { at + size_of d ≤ length s.now }
    ensures { (result ≡ length (container s.now at d)) × Decoded s.now at d out.new }
{
    if d < 32 {
        return d as usize;
    }
    dense_members(s, at, out)
}

// Member j of that container.
fn member(s: &[u8], at: usize, d: u8, out: &[u8; 256], j: usize) -> u8
    requires { (at + size_of d ≤ length s.now) × (j < length (container s.now at d)) × Decoded s.now at d out.now }
    ensures { result ≡ get_or (container s.now at d) j 0 }
{
    if d < 32 {
        return s[at + j];
    }
    out[j]
}

// Writes the members at or above the place, from container `first` at byte `from` on, until the list is full.
fn fill_page(set: &Set<'_>, first: usize, from: usize, place: u32, list: &mut [u32]) -> Run
    requires { Walk set.now.bytes.now set.now.descriptors.now (length set.now.descriptors.now) from first }
    ensures { Filled (ask.at_or_above place (members_from set.now.bytes.now first from (drop first set.now.descriptors.now))) place list.old list.new result }
{
    let s = set.bytes;
    let d = set.descriptors;
    let mut dense = [0u8; 256];
    let mut given: usize = 0;
    let mut next = place;
    let mut all = true;
    let mut at = from;
    'containers: for k in first..d.len() {
        let t = d[k];
        let m = decode(s, at, t, &mut dense);
        for j in 0..m {
            let x = (k * 256) as u32 + member(s, at, t, &dense, j) as u32;
            if place <= x {
                if given == list.len() {
                    all = false;
                    break 'containers;
                }
                list[given] = x;
                given += 1;
                next = x + 1;
            }
        }
        at += judge::size_of(t);
    }
    Run {
        given,
        place: next,
        all,
    }
}

// The same of the whole set: the containers wholly below the place are skipped.
fn list_from(set: &Set<'_>, place: u32, list: &mut [u32]) -> Run
    ensures { Filled (ask.at_or_above place (members set.now)) place list.old list.new result }
{
    let first = set.descriptors.len().min((place / 256) as usize);
    let from = set.start + judge::sizes(set.descriptors, first);
    fill_page(set, first, from, place, list)
}

// Judges s with room for its descriptors, then gives the members from the place on, as many as the list takes.
fn page_in(s: &[u8], at: Listing, d: &mut [u8], list: &mut [u32]) -> Result<Page, Refusal>
    requires { RoomFor s.now (length d.old) }
    ensures { Pages (ask.page s.now at (length list.old)) list.old list.new result }
{
    let set = judge::set_in(s, d)?;
    if at.finished {
        return Ok(Page { given: 0, next: at });
    }
    let run = list_from(&set, at.place, list);
    Ok(Page {
        given: run.given,
        next: Listing {
            place: run.place,
            finished: run.all,
        },
    })
}

// Judges s, then gives the first members at or above the place, as many as the list takes. No closure for judge::ask: of
// one that writes to what it borrows, its caller would know nothing.
pub fn page(s: &[u8], at: Listing, list: &mut [u32]) -> Result<Page, Refusal>
    ensures { Pages (ask.page s.now at (length list.old)) list.old list.new result }
{
    if judge::is_small(s) {
        return page_in(s, at, &mut [0u8; 256], list);
    }
    page_in(s, at, &mut [0u8; 8192], list)
}
