// Reading bitmaps.
ghost use Rattle.std.specs.Prelude.{length};
ghost use Rattle.common.specs.Outcome.{Call, CountCall, one};
ghost use Rattle.bitmap_spec.specs.Ask as ask;
ghost use Rattle.c_bitmap.specs.Reading.{listing, PageCall};

use crate::answer;
use bitmap_spec::Listing;

// Judges the bitmap and gives its cardinality.
pub fn bitmap_check(bytes: &[u8], cardinality: &mut u32) -> u32
    ensures { CountCall (ask.check bytes.now) result cardinality.old cardinality.new }
{
    answer(bitmap_read::check(bytes), cardinality)
}

// Whether the position is a member: 0 or 1.
pub fn bitmap_probe(bytes: &[u8], position: u32, member: &mut u8) -> u32
    ensures { Call (ask.probe bytes.now position) one result member.old member.new }
{
    match bitmap_read::probe(bytes, position) {
        Err(refusal) => u32::from(refusal),
        Ok(is_member) => {
            *member = u8::from(is_member);
            0
        }
    }
}

// How many members lie below the position.
pub fn bitmap_rank(bytes: &[u8], position: u32, below: &mut u32) -> u32
    ensures { CountCall (ask.rank bytes.now position) result below.old below.new }
{
    answer(bitmap_read::rank(bytes, position), below)
}

// A page of members into the list; place and mark say where the listing stands.
pub fn bitmap_page(
    bytes: &[u8],
    place: &mut u32,
    finished: &mut u8,
    list: &mut [u32],
    given: &mut u32,
) -> u32
    ensures { PageCall (ask.page bytes.now (listing place.old finished.old) (length list.entry.now)) result
        (record { list = list.entry.now; given = given.old; place = place.old; mark = finished.old })
        (record { list = list.exit.now; given = given.new; place = place.new; mark = finished.new }) }
{
    let was = *finished;
    let at = Listing {
        place: *place,
        finished: was != 0,
    };
    match bitmap_list::page(bytes, at, list) {
        Err(refusal) => u32::from(refusal),
        Ok(page) => {
            *given = page.given as u32;
            *place = page.next.place;
            if was == 0 {
                *finished = u8::from(page.next.finished);
            }
            0
        }
    }
}
