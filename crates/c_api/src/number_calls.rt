// Numbers in groups of seven bits.
ghost use Rattle.std.specs.Prelude.{◌≡◌};
ghost use Rattle.row_spec.specs.Varint.{varint_at};
ghost use Rattle.row_spec.specs.Answer.{as_number, number_shown};

// The number at the front of the bytes: 0 a number, with its value, the bytes used and 1 for the shortest form; 1 cut short; 2
// ill-formed. Never refuses.
#[unsafe(no_mangle)]
pub extern "C" fn bv_number_read(
    bytes: &[u8],
    found: &mut u8,
    value: &mut u32,
    used: &mut u32,
    shortest: &mut u8,
) -> u32
    ensures { (result ≡ 0) × (as_number found.new value.new used.new shortest.new ≡ number_shown (varint_at bytes.now 0)) }
{
    c_number::number_read(bytes, found, value, used, shortest)
}
