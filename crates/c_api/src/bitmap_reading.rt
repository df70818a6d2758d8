// Reading bitmaps.
ghost use Rattle.std.specs.Prelude.{◌≡◌, length};
ghost use Rattle.common.specs.Outcome.{Call, CountCall, one};
ghost use Rattle.bitmap_spec.specs.Ask as ask;
ghost use Rattle.bitmap_explain_spec.specs.Explain.{fault, fault_of, explained};
ghost use Rattle.c_bitmap.specs.Reading.{listing, PageCall};

// Judges the bitmap and gives its cardinality.
#[unsafe(no_mangle)]
pub extern "C" fn bv_bitmap_check(bytes: &[u8], cardinality: &mut u32) -> u32
    ensures { CountCall (ask.check bytes.now) result cardinality.old cardinality.new }
{
    c_bitmap::bitmap_check(bytes, cardinality)
}

// Why the bitmap is refused: the five numbers of its first fault, all 0 where it is accepted. Never refuses.
#[unsafe(no_mangle)]
pub extern "C" fn bv_bitmap_explain(
    bytes: &[u8],
    number: &mut u32,
    index: &mut usize,
    byte: &mut usize,
    found: &mut usize,
    wanted: &mut usize,
) -> u32
    ensures { (result ≡ 0) × (fault number.new index.new byte.new found.new wanted.new ≡ fault_of (explained bytes.now)) }
{
    c_explain::bitmap_explain(bytes, number, index, byte, found, wanted)
}

// Whether the position is a member: 0 or 1.
#[unsafe(no_mangle)]
pub extern "C" fn bv_bitmap_probe(bytes: &[u8], position: u32, member: &mut u8) -> u32
    ensures { Call (ask.probe bytes.now position) one result member.old member.new }
{
    c_bitmap::bitmap_probe(bytes, position, member)
}

// How many members lie below the position.
#[unsafe(no_mangle)]
pub extern "C" fn bv_bitmap_rank(bytes: &[u8], position: u32, below: &mut u32) -> u32
    ensures { CountCall (ask.rank bytes.now position) result below.old below.new }
{
    c_bitmap::bitmap_rank(bytes, position, below)
}

// A page of members into the list; place and mark say where the listing stands.
#[unsafe(no_mangle)]
pub extern "C" fn bv_bitmap_page(
    bytes: &[u8],
    place: &mut u32,
    finished: &mut u8,
    list: &mut [u32],
    given: &mut u32,
) -> u32
    ensures { PageCall (ask.page bytes.now (listing place.old finished.old) (length list.entry.now)) result
        (record { list = list.entry.now; given = given.old; place = place.old; mark = finished.old })
        (record { list = list.exit.now; given = given.new; place = place.new; mark = finished.new }) }
{
    c_bitmap::bitmap_page(bytes, place, finished, list, given)
}
