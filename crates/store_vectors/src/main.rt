// Runs the calls on a store over the lines of standard input and prints each answer. The first line is `new`, and each
// other a step on the store of the lines before it:
//
//   new LEN NUMBERS        a fresh store: a buffer of up to 1,024 bytes, all EE, and a directory of up to 130 zeros
//   at I VALUE             number I of the directory becomes VALUE
//   bytes AT HEX           the buffer's bytes from AT on
//   put OWNER SLOT HEX     fetch ROOM OWNER SLOT  drop OWNER SLOT  save ROOM        load HEX
//   view SLOT              its two numbers
//   get AT                 that byte of the buffer
//
// Of fetch and save the whole output is printed, where ee was left as it was. The file stdout was made by a script from 02
// and a table of the bitmaps in these lines.
#![tactic(auto)]

ghost use Rattle.std.specs.Prelude.{◌+◌, ◌≤◌, ◌<◌, length, IfOk};

use common::Refusal;
use std::io;
use std::io::Write;

// Word k as a number.
fn number(line: &[u8], k: usize) -> u32 {
    vector_text::small(vector_text::word(line, k))
}

fn print_done<W: Write>(to: &mut W, answer: Result<(), Refusal>) -> io::Result<()> {
    match answer {
        Err(refusal) => writeln!(to, "{refusal}"),
        Ok(()) => writeln!(to, "done"),
    }
}

// The answer, and the whole output.
fn print_written<W: Write>(
    to: &mut W,
    answer: Result<usize, Refusal>,
    out: &[u8],
) -> io::Result<()> {
    match answer {
        Err(refusal) => write!(to, "{refusal}: ")?,
        Ok(length) => write!(to, "length {length}: ")?,
    }
    vector_text::print_bytes(to, out)?;
    writeln!(to)
}

fn put<W: Write>(to: &mut W, line: &[u8], dir: &mut [u32], buf: &mut [u8]) -> io::Result<()> {
    let mut bitmap = [0u8; 512];
    let n = vector_text::decode(vector_text::word(line, 3), &mut bitmap);
    print_done(
        to,
        store::put(dir, buf, number(line, 1), number(line, 2), &bitmap[..n]),
    )
}

fn fetch<W: Write>(to: &mut W, line: &[u8], dir: &[u32], buf: &[u8]) -> io::Result<()> {
    let mut out = [238u8; 1024];
    let room = &mut out[..number(line, 1) as usize % 1025];
    let answer = store::fetch(dir, buf, number(line, 2), number(line, 3), room);
    print_written(to, answer, room)
}

fn save<W: Write>(to: &mut W, line: &[u8], dir: &[u32], buf: &[u8]) -> io::Result<()> {
    let mut out = [238u8; 1024];
    let room = &mut out[..number(line, 1) as usize % 1025];
    let answer = store::save(dir, buf, room);
    print_written(to, answer, room)
}

fn load<W: Write>(to: &mut W, line: &[u8], dir: &mut [u32], buf: &mut [u8]) -> io::Result<()> {
    let mut saved = [0u8; 1024];
    let n = vector_text::decode(vector_text::word(line, 1), &mut saved);
    print_done(to, store::load(dir, buf, &saved[..n]))
}

// A number of the directory, set.
fn set_number(line: &[u8], dir: &mut [u32]) {
    if let Some(place) = dir.get_mut(number(line, 1) as usize) {
        *place = number(line, 2);
    }
}

// Bytes of the buffer, set.
fn set_bytes(line: &[u8], buf: &mut [u8]) {
    let at = number(line, 1) as usize;
    if at <= buf.len() {
        vector_text::decode(vector_text::word(line, 2), &mut buf[at..]);
    }
}

// The two numbers of a slot.
fn view<W: Write>(to: &mut W, line: &[u8], dir: &[u32]) -> io::Result<()> {
    let i = number(line, 1) as usize;
    if i < 64 && 2 * i + 1 < dir.len() {
        writeln!(to, "start {} length {}", dir[2 * i], dir[2 * i + 1])?;
    }
    Ok(())
}

// A byte of the buffer.
fn get<W: Write>(to: &mut W, line: &[u8], buf: &[u8]) -> io::Result<()> {
    match buf.get(number(line, 1) as usize) {
        None => Ok(()),
        Some(byte) => writeln!(to, "byte {byte:02x}"),
    }
}

// A step, by its first letter. One that starts with # is printed; any other is passed over.
fn step<W: Write>(to: &mut W, line: &[u8], dir: &mut [u32], buf: &mut [u8]) -> io::Result<()> {
    match line.first() {
        Some(b'p') => put(to, line, dir, buf),
        Some(b'f') => fetch(to, line, dir, buf),
        Some(b'd') => print_done(
            to,
            store::drop_slot(dir, buf, number(line, 1), number(line, 2)),
        ),
        Some(b's') => save(to, line, dir, buf),
        Some(b'l') => load(to, line, dir, buf),
        Some(b'a') => {
            set_number(line, dir);
            Ok(())
        }
        Some(b'b') => {
            set_bytes(line, buf);
            Ok(())
        }
        Some(b'v') => view(to, line, dir),
        Some(b'g') => get(to, line, buf),
        Some(b'#') => {
            to.write_all(line)?;
            writeln!(to)
        }
        _ => Ok(()),
    }
}

// The steps from `from` on, up to the next store; says where that starts.
fn show_steps<W: Write>(
    to: &mut W,
    text: &[u8],
    from: usize,
    dir: &mut [u32],
    buf: &mut [u8],
) -> io::Result<usize>
    requires { from ≤ length text.now + 1 }
    ensures { IfOk result (λ r. (from ≤ r) × (r ≤ length text.now + 1)) }
{
    let mut at = from;
    // the step is a line
    while at < text.len() {
        let end = at + vector_text::find(&text[at..], b'\n');
        let line = &text[at..end];
        if line.first() == Some(&b'n') {
            return Ok(at);
        }
        step(to, line, dir, buf)?;
        at = end + 1;
    }
    Ok(at)
}

// The store whose line `new` starts at `at`, and its steps.
fn show_store<W: Write>(to: &mut W, text: &[u8], at: usize) -> io::Result<usize>
    requires { at ≤ length text.now }
    ensures { IfOk result (λ r. (at < r) × (r ≤ length text.now + 1)) }
{
    let end = at + vector_text::find(&text[at..], b'\n');
    let line = &text[at..end];
    let bytes = number(line, 1) as usize % 1025;
    let numbers = number(line, 2) as usize % 131;
    let mut dir = [0u32; 130];
    let mut buf = [238u8; 1024];
    show_steps(to, text, end + 1, &mut dir[..numbers], &mut buf[..bytes])
}

fn show_stores<W: Write>(to: &mut W, text: &[u8]) -> io::Result<()> {
    let mut at: usize = 0;
    // the step is a store
    while at < text.len() {
        at = show_store(to, text, at)?;
    }
    Ok(())
}

fn main(rt: HostRuntime) -> io::Result<()> {
    let mut text = [0u8; 65536];
    let n = vector_text::read_full(&mut rt.reader(), &mut text)?;
    let mut to = io::writer(&rt);
    show_stores(&mut to, &text[..n])?;
    to.flush()
}
