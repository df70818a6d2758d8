// Writes sets, rewrites bitmaps from their sets and combines bitmaps: a line of standard input for each call. A line of the output has
// the answer and the whole output, which holds aa bytes before the call: an aa behind the form, or after a refusal, was left as it
// was. The lines are compared with the file stdout, whose forms were written down before the calls were run.
#![tactic(auto)]

ghost use Rattle.std.specs.Prelude.{◌≤◌, length};

use bitmap_spec::Listing;
use common::Refusal;
use std::io;
use std::io::Write;

// Prints an answer and the output.
fn print_written<W: Write>(
    to: &mut W,
    answer: Result<usize, Refusal>,
    out: &[u8],
) -> io::Result<()> {
    match answer {
        Err(refusal) => write!(to, "{refusal}: ")?,
        Ok(length) => write!(to, "length {length}: ")?,
    }
    vector_text::print_bytes(to, out)?;
    writeln!(to)
}

// Puts the numbers of the words from word 4 on into the list, as many as it takes, and says how many.
fn numbers(words: &[u8], list: &mut [u32]) -> usize
    ensures { result ≤ length list.new }
{
    for n in 0..list.len() {
        let w = vector_text::word(words, n + 4);
        if w.is_empty() {
            return n;
        }
        list[n] = vector_text::small(w);
    }
    list.len()
}

// Writes the first n numbers.
fn write_first<W: Write>(to: &mut W, list: &[u32], n: usize, out: &mut [u8]) -> io::Result<()> {
    if list.len() < n {
        return Ok(());
    }
    let answer = bitmap_write::write_list(&list[..n], out);
    print_written(to, answer, out)
}

// Writes the set whose numbers stand from word 4 on.
fn write<W: Write>(to: &mut W, words: &[u8], out: &mut [u8]) -> io::Result<()> {
    let mut list = [0u32; 64];
    let n = numbers(words, &mut list);
    write_first(to, &list, n, out)
}

// Writes the set of a bitmap of up to 256 members.
fn rewrite<W: Write>(to: &mut W, s: &[u8], out: &mut [u8]) -> io::Result<()> {
    let mut list = [0u32; 256];
    match bitmap_list::page(s, Listing::default(), &mut list) {
        Err(refusal) => print_written(to, Err(refusal), out),
        Ok(page) => {
            if page.next.finished {
                write_first(to, &list, page.given, out)
            } else {
                writeln!(to, "over 256 members")
            }
        }
    }
}

// `write, room N, set` and numbers; `rewrite, room N, bitmap B`; or the name of an operation and `room N, first A, second B`.
fn call<W: Write>(to: &mut W, words: &[u8], a: &[u8], b: &[u8], out: &mut [u8]) -> io::Result<()> {
    let answer = match vector_text::word(words, 0).first() {
        Some(b'w') => return write(to, words, out),
        Some(b'r') => return rewrite(to, a, out),
        Some(b'u') => bitmap_combine::union(a, b, out),
        Some(b'i') => bitmap_combine::intersection(a, b, out),
        Some(b'd') => bitmap_combine::difference(a, b, out),
        _ => bitmap_combine::symmetric_difference(a, b, out),
    };
    print_written(to, answer, out)
}

// A call with an output of up to 256 bytes.
fn show_line<W: Write>(to: &mut W, line: &[u8]) -> io::Result<()> {
    let room = vector_text::small(vector_text::word(line, 2)) as usize;
    if 256 < room {
        return Ok(());
    }
    let mut first = [0u8; 256];
    let n = vector_text::decode(vector_text::word(line, 4), &mut first);
    let mut second = [0u8; 256];
    let m = vector_text::decode(vector_text::word(line, 6), &mut second);
    let mut out = [0xAAu8; 256];
    call(to, line, &first[..n], &second[..m], &mut out[..room])
}

fn main(rt: HostRuntime) -> io::Result<()> {
    vector_text::show_lines(&mut rt.reader(), &mut io::writer(&rt), show_line)
}
