// Lists bitmaps by pages through bitmap_step::page, with the listing held in a local and lent by `&mut`. A line of standard input
// has the listing, the room and the bitmap; for each page the answer, the whole list, where 7777777 was left as it was, the place
// and the mark. A listing that is finished is asked once more.
#![tactic(auto)]

ghost use Rattle.std.specs.Prelude.{length};
ghost use Rattle.bitmap_spec.specs.Ask as ask;
ghost use Rattle.bitmap_step.specs.Post.{Steps};

use bitmap_spec::Listing;
use common::Refusal;
use std::io;
use std::io::Write;

// One page of a listing that this function holds and lends: where it then stands, and the answer.
fn one_page(s: &[u8], from: Listing, list: &mut [u32]) -> (Listing, Result<usize, Refusal>)
    ensures { Steps (ask.page s.now from (length list.old)) from list.old result.0 list.new result.1 }
{
    let mut at = from;
    let answer = bitmap_step::page(&mut at, s, list);
    (at, answer)
}

// A page, and its line; says where the listing then stands, or nothing where it ends.
fn print_page<W: Write>(
    to: &mut W,
    s: &[u8],
    at: Listing,
    list: &mut [u32],
) -> io::Result<Option<Listing>> {
    let (next, answer) = one_page(s, at, list);
    match answer {
        Err(refusal) => write!(to, "{refusal}:")?,
        Ok(given) => write!(to, "gave {given}:")?,
    }
    for n in list.iter() {
        write!(to, " {n}")?;
    }
    writeln!(
        to,
        ", place {}, mark {}",
        next.place,
        u8::from(next.finished)
    )?;
    if answer.is_err() || at.finished {
        return Ok(None);
    }
    Ok(Some(next))
}

// Pages of a room of up to 8, until the listing ends, up to 50; one of no room.
fn print_pages<W: Write>(to: &mut W, s: &[u8], from: Listing, room: usize) -> io::Result<()> {
    if 8 < room {
        return Ok(());
    }
    let mut at = from;
    for _ in 0..50 {
        let mut list = [7777777u32; 8];
        match print_page(to, s, at, &mut list[..room])? {
            Some(next) if room != 0 => at = next,
            _ => return Ok(()),
        }
    }
    Ok(())
}

// `place P, mark M, room N, bitmap` and hexadecimal digits.
fn show_line<W: Write>(to: &mut W, line: &[u8]) -> io::Result<()> {
    let mut bytes = [0u8; 1024];
    let n = vector_text::decode(vector_text::word(line, 7), &mut bytes);
    let from = Listing {
        place: vector_text::small(vector_text::word(line, 1)),
        finished: vector_text::small(vector_text::word(line, 3)) == 1,
    };
    let room = vector_text::small(vector_text::word(line, 5)) as usize;
    print_pages(to, &bytes[..n], from, room)
}

fn main(rt: HostRuntime) -> io::Result<()> {
    vector_text::show_lines(&mut rt.reader(), &mut io::writer(&rt), show_line)
}
