// The number in groups of seven bits at the front of any bytes, shortest or padded.
#![tactic(auto)]

ghost use Rattle.std.specs.Prelude.{◌≡◌};
ghost use Rattle.row_spec.specs.Varint.{varint_at};

use row_spec::{ReadFault, Varint};

// The number, the bytes it used and whether its form is the shortest; or cut short; or ill-formed. Refuses nothing.
pub fn read(bytes: &[u8]) -> Result<Varint, ReadFault>
    ensures { result ≡ varint_at bytes.now 0 }
{
    numbers::varint(bytes, 0)
}
