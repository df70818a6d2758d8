// Numbers, schemas and row blocks of 01 and of every rule: a line of standard input for each case, in hexadecimal
// digits, `-` for no byte. Each line of the output is a case's name and its answer, compared with the file stdout,
// which was made from 01's rules as 02 amends them and not by this library.
#![tactic(auto)]

use row_spec::ReadFault;
use std::io;
use std::io::Write;

// The field of a row and a column, and its part.
fn ask<W: Write>(
    to: &mut W,
    schema: &[u8],
    block: &[u8],
    row: u32,
    column: u32,
    whole: &[u8],
) -> io::Result<()> {
    vector_fields::print_answer(to, rows::field(schema, block, row, column), whole)?;
    vector_fields::print_part(to, rows::part(schema, block, row, column))
}

// The page of the rows from place on, and the list that it leaves.
fn list_page<W: Write>(
    to: &mut W,
    schema: &[u8],
    block: &[u8],
    place: u32,
    list: &mut [u64],
) -> io::Result<()> {
    let answer = row_list::page(schema, block, place, list);
    vector_fields::print_page(to, answer, list)
}

// A page into a list of so many numbers, 64 at most, each of them 7 before.
fn page<W: Write>(
    to: &mut W,
    schema: &[u8],
    block: &[u8],
    place: u32,
    room: u32,
) -> io::Result<()> {
    let mut list = [7u64; 64];
    let n = vector_fields::lent(room);
    list_page(to, schema, block, place, &mut list[..n])
}

// The number of rows.
fn count<W: Write>(to: &mut W, schema: &[u8], block: &[u8]) -> io::Result<()> {
    match rows::check(schema, block) {
        Err(refusal) => vector_fields::print_refused(to, refusal)?,
        Ok(rows) => write!(to, ": rows {rows}")?,
    }
    writeln!(to)
}

// Whether a column of a schema is there.
fn column<W: Write>(to: &mut W, bytes: &[u8], i: u32) -> io::Result<()> {
    match schema::column(bytes, i) {
        Err(refusal) => vector_fields::print_refused(to, refusal)?,
        Ok(c) => write!(to, ": nullable {}", u8::from(c.nullable))?,
    }
    writeln!(to)
}

// The number at the front of the bytes: its value, the bytes used, and whether the form is the shortest.
fn number<W: Write>(to: &mut W, bytes: &[u8]) -> io::Result<()> {
    match number_read::read(bytes) {
        Ok(v) => {
            let form = if v.shortest {
                ", shortest\n"
            } else {
                ", padded\n"
            };
            write!(to, ": value {}, bytes {}{form}", v.number, v.next)
        }
        Err(ReadFault::CutShort) => writeln!(to, ": cut short"),
        Err(ReadFault::IllFormed) => writeln!(to, ": ill-formed"),
    }
}

// The question: `number N`, `schema S, column C`, `schema S, block B`, or that and `row R, column C, whole W` or `place
// P, room R`.
fn question<W: Write>(to: &mut W, words: &[u8], first: &[u8], second: &[u8]) -> io::Result<()> {
    if vector_text::word(words, 0).first() == Some(&b'n') {
        return number(to, first);
    }
    if vector_text::word(words, 2).first() == Some(&b'c') {
        return column(to, first, vector_text::small(vector_text::word(words, 3)));
    }
    if vector_text::word(words, 5).is_empty() {
        return count(to, first, second);
    }
    if vector_text::word(words, 4).first() == Some(&b'p') {
        return page(
            to,
            first,
            second,
            vector_text::small(vector_text::word(words, 5)),
            vector_text::small(vector_text::word(words, 7)),
        );
    }
    ask(
        to,
        first,
        second,
        vector_text::small(vector_text::word(words, 5)),
        vector_text::small(vector_text::word(words, 7)),
        vector_text::word(words, 9),
    )
}

// A name, a colon and a question.
fn show_line<W: Write>(to: &mut W, line: &[u8]) -> io::Result<()> {
    let words = vector_text::after(line, b':');
    to.write_all(vector_text::before(line, b':'))?;
    let mut first = [0u8; 256];
    let n = vector_text::decode(vector_text::word(words, 1), &mut first);
    let mut second = [0u8; 256];
    let m = vector_text::decode(vector_text::word(words, 3), &mut second);
    question(to, words, &first[..n], &second[..m])
}

fn main(rt: HostRuntime) -> io::Result<()> {
    vector_text::show_lines(&mut rt.reader(), &mut io::writer(&rt), show_line)
}
