// Buckets of 01 and of every rule: a line of standard input for each case, in hexadecimal digits, `-` for no byte. Each line of the
// output is a case's name and its answer, compared with the file stdout, which was made from 01's rules as 02 amends them and not by
// this library.
#![tactic(auto)]

use std::io;
use std::io::Write;

// The field of a row and a column, and its part.
fn ask<W: Write>(
    to: &mut W,
    schema: &[u8],
    rows: u32,
    bucket: &[u8],
    row: u32,
    column: u32,
    whole: &[u8],
) -> io::Result<()> {
    vector_fields::print_answer(to, buckets::field(schema, rows, bucket, row, column), whole)?;
    vector_fields::print_part(to, buckets::part(schema, rows, bucket, row, column))
}

// The page of a column's rows from place on, and the list that it leaves.
fn list_page<W: Write>(
    to: &mut W,
    schema: &[u8],
    rows: u32,
    bucket: &[u8],
    column: u32,
    place: u32,
    list: &mut [u64],
) -> io::Result<()> {
    let answer = bucket_list::page(schema, rows, bucket, column, place, list);
    vector_fields::print_page(to, answer, list)
}

// A page into a list of so many numbers, 64 at most, each of them 7 before.
fn page<W: Write>(
    to: &mut W,
    schema: &[u8],
    rows: u32,
    bucket: &[u8],
    column: u32,
    place: u32,
    room: u32,
) -> io::Result<()> {
    let mut list = [7u64; 64];
    let n = vector_fields::lent(room);
    list_page(to, schema, rows, bucket, column, place, &mut list[..n])
}

// The question: `schema S, rows N, bucket B`, or that and `row R, column C, whole W` or `column C, place P, room R`.
fn question<W: Write>(to: &mut W, words: &[u8], schema: &[u8], bucket: &[u8]) -> io::Result<()> {
    let rows = vector_text::small(vector_text::word(words, 3));
    if vector_text::word(words, 7).is_empty() {
        let number = match buckets::check(schema, rows, bucket) {
            Err(refusal) => u32::from(refusal),
            Ok(()) => 0,
        };
        return writeln!(to, ": {number}");
    }
    if vector_text::word(words, 6).first() == Some(&b'c') {
        return page(
            to,
            schema,
            rows,
            bucket,
            vector_text::small(vector_text::word(words, 7)),
            vector_text::small(vector_text::word(words, 9)),
            vector_text::small(vector_text::word(words, 11)),
        );
    }
    ask(
        to,
        schema,
        rows,
        bucket,
        vector_text::small(vector_text::word(words, 7)),
        vector_text::small(vector_text::word(words, 9)),
        vector_text::word(words, 11),
    )
}

// A name, a colon and a question.
fn show_line<W: Write>(to: &mut W, line: &[u8]) -> io::Result<()> {
    let words = vector_text::after(line, b':');
    to.write_all(vector_text::before(line, b':'))?;
    let mut schema = [0u8; 256];
    let n = vector_text::decode(vector_text::word(words, 1), &mut schema);
    let mut bucket = [0u8; 256];
    let m = vector_text::decode(vector_text::word(words, 5), &mut bucket);
    question(to, words, &schema[..n], &bucket[..m])
}

fn main(rt: HostRuntime) -> io::Result<()> {
    vector_text::show_lines(&mut rt.reader(), &mut io::writer(&rt), show_line)
}
