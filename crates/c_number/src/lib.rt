#![tactic(auto)]

// The call of the C interface that reads a number, as a plain function, which c_api hands on.
ghost use Rattle.std.specs.Prelude.{◌≡◌, ◌≤◌};
ghost use Rattle.row_spec.specs.Varint.{varint_at, on_varint};
ghost use Rattle.row_spec.specs.Answer.{as_number, number_shown};

use row_spec::{NumberShown, ReadFault, Varint};

// What was read, as plain numbers; a number has at most five bytes.
fn show(r: Result<Varint, ReadFault>) -> NumberShown
    requires { on_varint r 0 0 (λ n next. next) ≤ 5 }
    ensures { result ≡ number_shown r }
{
    match r {
        Ok(n) => NumberShown {
            found: 0,
            value: n.number,
            used: n.next as u32,
            shortest: n.shortest as u8,
        },
        Err(fault) => match fault {
            ReadFault::CutShort => NumberShown {
                found: 1,
                value: 0,
                used: 0,
                shortest: 0,
            },
            ReadFault::IllFormed => NumberShown {
                found: 2,
                value: 0,
                used: 0,
                shortest: 0,
            },
        },
    }
}

// The number at the front of the bytes: found 0 a number, 1 cut short, 2 ill-formed; its value, the bytes used and 1
// for the shortest form, 0 where they mean nothing. Never refuses.
pub fn number_read(
    bytes: &[u8],
    found: &mut u8,
    value: &mut u32,
    used: &mut u32,
    shortest: &mut u8,
) -> u32
    ensures { (result ≡ 0) × (as_number found.new value.new used.new shortest.new ≡ number_shown (varint_at bytes.now 0)) }
{
    let n = show(number_read::read(bytes));
    *found = n.found;
    *value = n.value;
    *used = n.used;
    *shortest = n.shortest;
    0
}
