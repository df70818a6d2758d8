#![tactic(auto)]

// The call of the C interface that says why a bitmap is refused, as a plain function, which c_api hands on.
ghost use Rattle.std.specs.Prelude.{◌≡◌};
ghost use Rattle.bitmap_explain_spec.specs.Explain.{fault, fault_of, explained};

// Why the bitmap is refused: the five numbers of its first fault, all 0 where it is accepted. Never refuses.
pub fn bitmap_explain(
    bytes: &[u8],
    number: &mut u32,
    index: &mut usize,
    byte: &mut usize,
    found: &mut usize,
    wanted: &mut usize,
) -> u32
    ensures { (result ≡ 0) × (fault number.new index.new byte.new found.new wanted.new ≡ fault_of (explained bytes.now)) }
{
    match bitmap_explain::explain(bytes) {
        Some(f) => {
            *number = f.refusal.into();
            *index = f.index;
            *byte = f.byte;
            *found = f.found;
            *wanted = f.wanted;
        }
        None => {
            *number = 0;
            *index = 0;
            *byte = 0;
            *found = 0;
            *wanted = 0;
        }
    }
    0
}
