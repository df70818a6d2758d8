// A field's answer, or a page's, on a line of vectors.
#![tactic(auto)]

ghost use Rattle.std.specs.Prelude.{◌≤◌};

use common::Refusal;
use row_spec::{Field, PageCounts};
use std::io;
use std::io::Write;

// Prints a refusal's number. Each piece of a text and each number is a write of its own, so the words stand in one piece.
pub fn print_refused<W: Write>(to: &mut W, refusal: Refusal) -> io::Result<()> {
    write!(to, ": refused {}", u32::from(refusal))
}

// Prints a field's kind, whether its whole number is the one wanted, its bits, nanoseconds, start and length.
fn print_field<W: Write>(to: &mut W, f: Field, whole: &[u8]) -> io::Result<()> {
    let v = values::show(f);
    let wanted = numbers::signed(vector_text::signed(whole), 9223372036854775808);
    let found = if v.whole == wanted {
        " as wanted "
    } else {
        " NOT AS WANTED "
    };
    write!(
        to,
        ": kind {}{found}{} {} {} {}",
        v.kind, v.bits, v.nanos, v.start, v.length
    )
}

// Prints an answer.
pub fn print_answer<W: Write>(
    to: &mut W,
    answer: Result<Field, Refusal>,
    whole: &[u8],
) -> io::Result<()> {
    match answer {
        Err(refusal) => print_refused(to, refusal),
        Ok(f) => print_field(to, f, whole),
    }
}

// Prints a part's length, and ends the line.
pub fn print_part<W: Write>(to: &mut W, part: &[u8]) -> io::Result<()> {
    writeln!(to, " part {}", part.len())
}

// How many numbers of a list of 64 are lent.
pub fn lent(room: u32) -> usize
    ensures { result ≤ 64 }
{
    room.min(64) as usize
}

// Prints a page's answer, and then every number of the list lent.
pub fn print_page<W: Write>(
    to: &mut W,
    answer: Result<PageCounts, Refusal>,
    list: &[u64],
) -> io::Result<()> {
    match answer {
        Err(refusal) => print_refused(to, refusal)?,
        Ok(page) => write!(to, ": given {} of {}", page.given, page.rows)?,
    }
    write!(to, ", list")?;
    for n in list {
        write!(to, " {n}")?;
    }
    writeln!(to)
}
