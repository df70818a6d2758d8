// Lines of vectors: their words, hexadecimal digits and decimal numbers, read and printed.
#![tactic(auto)]

ghost use Rattle.std.specs.Prelude.{◌≤◌, ◌<◌, length, IfOk};

use std::io;
use std::io::{Read, Write};

// Reads until buf is full or the input ends, and says how many bytes it put at the start of buf.
// A while: each turn puts as many bytes as the input gives.
pub fn read_full<R: Read>(input: &mut R, buf: &mut [u8]) -> io::Result<usize>
    ensures { IfOk result (λ n. n ≤ length buf.new) }
{
    let mut done: usize = 0;
    while done < buf.len() {
        let n = input.read(&mut buf[done..])?;
        if n == 0 {
            break;
        }
        done += n;
    }
    Ok(done)
}

// Reads up to 65,536 bytes of lines and shows each one. An empty line is passed over, and one that starts with # is printed.
pub fn show_lines<R: Read, W: Write, F: FnMut(&mut W, &[u8]) -> io::Result<()>>(
    input: &mut R,
    to: &mut W,
    mut show: F,
) -> io::Result<()>
    requires { F.IsAlwaysCallable show }
{
    let mut text = [0u8; 65536];
    let n = read_full(input, &mut text)?;
    for line in text[..n].split(|c| *c == b'\n') {
        match line.first() {
            None => {}
            Some(b'#') => {
                to.write_all(line)?;
                writeln!(to)?;
            }
            Some(_) => show(to, line)?,
        }
    }
    to.flush()
}

// Whether c stands between words.
fn is_gap(c: u8) -> bool {
    c == b' ' || c == b',' || c == b':'
}

// Where the gaps, or the word, at the line's start end.
fn run_end(line: &[u8], gaps: bool) -> usize
    ensures { result ≤ length line.now }
{
    line.iter()
        .position(|c| is_gap(*c) != gaps)
        .unwrap_or(line.len())
}

// Word k, from 0 on; without it, an empty one. Spaces, commas and colons stand between words: a run of them is passed as
// one, since to split at each of them takes twice as long.
pub fn word<'a>(line: &'a [u8], k: usize) -> &'a [u8] {
    let mut rest = &line[run_end(line, true)..];
    for _ in 0..k {
        let gaps = &rest[run_end(rest, false)..];
        rest = &gaps[run_end(gaps, true)..];
    }
    &rest[..run_end(rest, false)]
}

// Where the first c lies, or the line's end.
pub fn find(line: &[u8], c: u8) -> usize
    ensures { result ≤ length line.now }
{
    line.iter().position(|x| *x == c).unwrap_or(line.len())
}

// The line up to its first c, and from there on.
pub fn before<'a>(line: &'a [u8], c: u8) -> &'a [u8] {
    &line[..find(line, c)]
}

pub fn after<'a>(line: &'a [u8], c: u8) -> &'a [u8] {
    &line[find(line, c)..]
}

// The value of a hexadecimal digit.
fn digit(c: u8) -> u8
    ensures { result < 16 }
{
    if c < 58 { c % 16 } else { (c % 16 + 9) % 16 }
}

// Puts the bytes that the pairs of digits stand for at the start of out, as many as it takes, and says how many.
pub fn decode(digits: &[u8], out: &mut [u8]) -> usize
    ensures { result ≤ length out.new }
{
    let n = out.len().min(digits.len() / 2);
    for (byte, pair) in out.iter_mut().zip(digits.chunks_exact(2)) {
        *byte = digit(pair[0]) * 16 + digit(pair[1]);
    }
    n
}

// A decimal number of up to 19 digits.
pub fn number(digits: &[u8]) -> u64
    ensures { result < 10000000000000000000 }
{
    let mut n: u64 = 0;
    for d in digits {
        n = n % 1000000000000000000 * 10 + u64::from(*d % 16 % 10);
    }
    n
}

// A decimal number below 2^32.
pub fn small(digits: &[u8]) -> u32 {
    (number(digits) % 4294967296) as u32
}

// A decimal number, with a minus or without, as two's complement of 64 bits.
pub fn signed(digits: &[u8]) -> u64 {
    match digits.first() {
        Some(b'-') => number(&digits[1..]).wrapping_neg(),
        _ => number(digits),
    }
}

// Prints the bytes as pairs of hexadecimal digits.
pub fn print_bytes<W: Write>(to: &mut W, s: &[u8]) -> io::Result<()> {
    for b in s {
        write!(to, "{b:02x}")?;
    }
    Ok(())
}
