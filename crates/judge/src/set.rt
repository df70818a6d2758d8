// The set of a judged bitmap.
ghost use Rattle.std.specs.Prelude.{◌≡◌, length};
ghost use Rattle.judge.specs.Post.{SliceView, viewed};

// The set of an accepted bitmap: its bytes, its descriptors, where its containers start, and how many members it has.
#[derive(Clone, Copy)]
pub struct Set<'a> {
    pub bytes: &'a [u8],
    pub descriptors: &'a [u8],
    pub start: usize,
    pub cardinality: u32,
    ghost sound: { SliceView bytes.now descriptors.now (length descriptors.now) start (viewed bytes.now descriptors.now (length descriptors.now) start) },
    ghost counts: { cardinality ≡ length (viewed bytes.now descriptors.now (length descriptors.now) start) },
}
