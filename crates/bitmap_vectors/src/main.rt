// Runs the reading calls over the bitmaps of standard input, a line of hexadecimal digits for each, and further positions to ask,
// and prints their answers. The file stdin has those that 01's rules single out, each refusal and each two rules that follow each
// other among them; stdout was made by other programs, from 01 alone and, in its last part, from each line's set or refusal.
#![tactic(auto)]

use bitmap_spec::Listing;
use std::io;
use std::io::Write;

// A line with a position, whether it is a member, and how many members lie below it.
fn ask<W: Write>(to: &mut W, s: &[u8], position: u32) -> io::Result<()> {
    write!(to, "{position}")?;
    match bitmap_read::probe(s, position) {
        Err(refusal) => write!(to, " {refusal}")?,
        Ok(member) => write!(to, " {}", u8::from(member))?,
    }
    match bitmap_read::rank(s, position) {
        Err(refusal) => writeln!(to, " {refusal}"),
        Ok(below) => writeln!(to, " {below}"),
    }
}

// The members of a page of 16, and a line with how many there are, the next place and the mark.
fn print_page<W: Write>(to: &mut W, s: &[u8], at: Listing) -> io::Result<Listing> {
    let mut list = [0u32; 16];
    match bitmap_list::page(s, at, &mut list) {
        Err(refusal) => {
            writeln!(to, "{refusal}")?;
            Ok(Listing {
                place: at.place,
                finished: true,
            })
        }
        Ok(page) => {
            for member in list.iter().take(page.given) {
                writeln!(to, "- {member}")?;
            }
            let next = page.next;
            writeln!(
                to,
                "page {} {} {}",
                page.given,
                next.place,
                u8::from(next.finished)
            )?;
            Ok(next)
        }
    }
}

// All pages, up to 200.
fn print_pages<W: Write>(to: &mut W, s: &[u8]) -> io::Result<()> {
    let mut at = Listing::default();
    for _ in 0..200 {
        at = print_page(to, s, at)?;
        if at.finished {
            return Ok(());
        }
    }
    Ok(())
}

// The positions of the words from word 1 on, up to 16.
fn ask_words<W: Write>(to: &mut W, s: &[u8], words: &[u8]) -> io::Result<()> {
    for k in 1..17 {
        let w = vector_text::word(words, k);
        if w.is_empty() {
            return Ok(());
        }
        ask(to, s, vector_text::small(w))?;
    }
    Ok(())
}

fn show<W: Write>(to: &mut W, s: &[u8], words: &[u8]) -> io::Result<()> {
    match bitmap_read::check(s) {
        Err(refusal) => writeln!(to, "{refusal}"),
        Ok(cardinality) => {
            writeln!(to, "count {cardinality}")?;
            for position in [0, 255, 256, 2097151, 4294967295] {
                ask(to, s, position)?;
            }
            ask_words(to, s, words)?;
            print_pages(to, s)
        }
    }
}

// A line's bitmap and positions.
fn show_line<W: Write>(to: &mut W, line: &[u8]) -> io::Result<()> {
    let mut bytes = [0u8; 1024];
    let n = vector_text::decode(vector_text::word(line, 0), &mut bytes);
    show(to, &bytes[..n], line)
}

fn main(rt: HostRuntime) -> io::Result<()> {
    vector_text::show_lines(&mut rt.reader(), &mut io::writer(&rt), show_line)
}
