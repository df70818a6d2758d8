// Reads up to 65,536 bytes from standard input and prints what they say as a bitmap: `refused N`, or the count and the members,
// one to a line. More bytes are `too long`, before any refusal.
#![tactic(auto)]

ghost use Rattle.std.specs.Prelude.{◌≡◌, ◌≤◌, length};

use bitmap_spec::Listing;
use std::io;
use std::io::Write;

// Room for the longest input and one byte more.
fn room() -> [u8; 65537]
    ensures { 65537 ≡ length result }
{
    [0; 65537]
}

// Prints one page of members, one to a line, and says where the listing then stands.
fn print_page<W: Write>(to: &mut W, s: &[u8], at: Listing) -> io::Result<Listing> {
    let mut list = [0u32; 256];
    match bitmap_list::page(s, at, &mut list) {
        Err(_) => Ok(Listing {
            place: at.place,
            finished: true,
        }),
        Ok(page) => {
            for member in list.iter().take(page.given) {
                writeln!(to, "{member}")?;
            }
            Ok(page.next)
        }
    }
}

// Prints all members. They fill at most 8,192 pages of 256, and the last page says that it is the last.
fn print_all<W: Write>(to: &mut W, s: &[u8]) -> io::Result<()> {
    let mut at = Listing::default();
    for _ in 0..8192 {
        at = print_page(to, s, at)?;
        if at.finished {
            return Ok(());
        }
    }
    Ok(())
}

fn print_bitmap<W: Write>(to: &mut W, s: &[u8]) -> io::Result<()> {
    match bitmap_read::check(s) {
        Err(refusal) => writeln!(to, "{refusal}"),
        Ok(cardinality) => {
            writeln!(to, "count {cardinality}")?;
            print_all(to, s)
        }
    }
}

fn main(rt: HostRuntime) -> io::Result<()> {
    let mut bytes = room();
    let n = vector_text::read_full(&mut rt.reader(), &mut bytes)?;
    let mut to = io::writer(&rt);
    if 65536 < n {
        writeln!(to, "too long")?;
    } else {
        print_bitmap(&mut to, &bytes[..n])?;
    }
    to.flush()
}
