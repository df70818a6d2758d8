// Counts dense containers whose members are known: of a run of bits, those that lie in the container. What is printed
// is compared with the file stdout.
#![tactic(auto)]

use std::io;
use std::io::Write;

// Bit p of a byte if it is one of the n bits from bit `first` on, else nothing; bit 0 is the highest.
fn bit_if(first: usize, n: usize, p: usize) -> u8 {
    if p < first {
        return 0;
    }
    if n <= p - first {
        return 0;
    }
    128 >> (p % 8)
}

// 48 bytes in which n bits are set from bit `first` on.
fn bits_set(first: usize, n: usize) -> [u8; 48] {
    let mut b = [0u8; 48];
    for p in 0..384 {
        b[p / 8] |= bit_if(first, n, p);
    }
    b
}

// Prints the count of the container at byte `at` of those 48, which at 16 ends them.
fn show<W: Write>(to: &mut W, first: usize, n: usize, at: usize) -> io::Result<()> {
    let b = bits_set(first, n);
    if at <= 16 {
        let count = bits::dense_count(&b, at);
        write!(to, " {count}")?;
    }
    Ok(())
}

// One bit at each of the 256 places.
fn show_places<W: Write>(to: &mut W) -> io::Result<()> {
    write!(to, "one bit at each place:")?;
    for p in 0..256 {
        show(to, 128 + p, 1, 16)?;
    }
    writeln!(to)
}

// In one of the four words 31 and 32 bits from its first on, 32 and 31 up to its last, and all.
fn show_word<W: Write>(to: &mut W, w: usize) -> io::Result<()> {
    let first = 128 + w % 4 * 64;
    write!(to, "word {w}:")?;
    show(to, first, 31, 16)?;
    show(to, first, 32, 16)?;
    show(to, first + 32, 32, 16)?;
    show(to, first + 33, 31, 16)?;
    show(to, first, 64, 16)?;
    writeln!(to)
}

// All bits, also of the bytes around; only those before; only those behind; none.
fn show_around<W: Write>(to: &mut W) -> io::Result<()> {
    write!(to, "around:")?;
    show(to, 0, 384, 8)?;
    show(to, 0, 64, 8)?;
    show(to, 320, 64, 8)?;
    show(to, 0, 0, 8)?;
    write!(to, "\nat the start and at the end:")?;
    show(to, 0, 256, 0)?;
    show(to, 128, 256, 16)?;
    writeln!(to)
}

fn main(rt: HostRuntime) -> io::Result<()> {
    let mut to = io::writer(&rt);
    show_places(&mut to)?;
    show_word(&mut to, 0)?;
    show_word(&mut to, 1)?;
    show_word(&mut to, 2)?;
    show_word(&mut to, 3)?;
    show_around(&mut to)?;
    to.flush()
}
