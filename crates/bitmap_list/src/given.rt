// What a page gives.
use bitmap_spec::Listing;

// How many members a page gives, and where the listing then stands.
#[derive(Clone, Copy)]
pub struct Page {
    pub given: usize,
    pub next: Listing,
}
