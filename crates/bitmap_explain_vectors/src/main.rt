// Runs explain over the bitmaps of standard input and prints five numbers for each: number, index, byte, found, wanted.
// A bitmap is a line of words: pairs of hexadecimal digits, or a decimal number, * and the pairs that many times. The
// file stdin has each rule broken at its first and last place, and every two rules that can be broken at once; stdout
// was made from how each line is built.
#![tactic(auto)]

ghost use Rattle.std.specs.Prelude.{◌≤◌, length};

use std::io;
use std::io::Write;

// Puts the bytes of the digits at `at`, as many as there is room for, and says where they end.
fn put_digits(digits: &[u8], out: &mut [u8], at: usize) -> usize
    requires { at ≤ length out.old }
    ensures { result ≤ length out.new }
{
    at + vector_text::decode(digits, &mut out[at..])
}

// The same, a number of times.
fn put_times(digits: &[u8], times: u32, out: &mut [u8], at: usize) -> usize
    requires { at ≤ length out.old }
    ensures { result ≤ length out.new }
{
    let mut end = at;
    for _ in 0..times {
        end = put_digits(digits, out, end);
    }
    end
}

// A word: its digits, or those after * as many times as the number before it says.
fn put_word(word: &[u8], out: &mut [u8], at: usize) -> usize
    requires { at ≤ length out.old }
    ensures { result ≤ length out.new }
{
    match vector_text::after(word, b'*').split_first() {
        None => put_digits(word, out, at),
        Some((_, digits)) => {
            let times = vector_text::small(vector_text::before(word, b'*'));
            put_times(digits, times, out, at)
        }
    }
}

// The words of a line, up to 100.
fn put_words(line: &[u8], out: &mut [u8]) -> usize
    ensures { result ≤ length out.new }
{
    let mut end: usize = 0;
    for k in 0..100 {
        let w = vector_text::word(line, k);
        if w.is_empty() {
            return end;
        }
        end = put_word(w, out, end);
    }
    end
}

// A line's bitmap and what is told of it.
fn show_line<W: Write>(to: &mut W, line: &[u8]) -> io::Result<()> {
    let mut bytes = [0u8; 280000];
    let n = put_words(line, &mut bytes);
    match bitmap_explain::explain(&bytes[..n]) {
        None => writeln!(to, "0 0 0 0 0"),
        Some(f) => {
            let number = u32::from(f.refusal);
            writeln!(
                to,
                "{number} {} {} {} {}",
                f.index, f.byte, f.found, f.wanted
            )
        }
    }
}

fn main(rt: HostRuntime) -> io::Result<()> {
    vector_text::show_lines(&mut rt.reader(), &mut io::writer(&rt), show_line)
}
