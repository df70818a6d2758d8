// Walks rows field by field through row_walk, with the walker held in a local and lent by `&mut`: a line of standard
// input for each row, in hexadecimal digits, with the whole numbers wanted. The output has a line for the null bitmap
// and one for each field, with the place after it, and was worked out by hand from 01 as 02 amends it.
#![tactic(auto)]

ghost use Rattle.std.specs.Prelude.{◌≡◌};
ghost use Rattle.common.specs.Refusal.{outcome};
ghost use Rattle.row_walk.specs.Walk.{head_of, next_of, answer_of, place_of};

use common::Refusal;
use row_spec::{Column, Field};
use row_walk::RowWalker;
use std::io;
use std::io::Write;

// A new walker's null bitmap: the place after it, and the answer.
fn walk_head(row: &[u8], columns: u16) -> (usize, Result<u32, Refusal>)
    ensures { (outcome result.1 ≡ answer_of (head_of row.now columns)) × (result.0 ≡ place_of (head_of row.now columns) 0) }
{
    let mut w = row_walk::new(row);
    let answer = row_walk::begin(&mut w, columns);
    (w.at, answer)
}

// Field i of a walker that stands at a place: the place after it, and the answer.
fn walk_field(row: &[u8], at: usize, i: usize, c: Column) -> (usize, Result<Field, Refusal>)
    ensures { (outcome result.1 ≡ answer_of (next_of row.now i c at)) × (result.0 ≡ place_of (next_of row.now i c at) at) }
{
    let mut w = RowWalker { row, at };
    let answer = row_walk::next(&mut w, i, c);
    (w.at, answer)
}

// Field i from a place on, and its line; says where the next one starts, or nothing where the walk ends.
fn print_field<W: Write>(
    to: &mut W,
    schema: &[u8],
    row: &[u8],
    at: usize,
    i: u32,
    whole: &[u8],
) -> io::Result<Option<usize>> {
    match schema::column(schema, i) {
        Err(refusal) => {
            vector_fields::print_refused(to, refusal)?;
            Ok(None)
        }
        Ok(c) => {
            let (next, answer) = walk_field(row, at, i as usize, c);
            let ends = answer.is_err();
            write!(to, "field {i}")?;
            vector_fields::print_answer(to, answer, whole)?;
            writeln!(to, ", place {next}")?;
            Ok(if ends { None } else { Some(next) })
        }
    }
}

// The fields of so many columns, until one is refused.
fn print_fields<W: Write>(
    to: &mut W,
    schema: &[u8],
    row: &[u8],
    columns: u32,
    from: usize,
    words: &[u8],
) -> io::Result<()> {
    let mut at = from;
    for i in 0..columns {
        let whole = vector_text::word(words, (i as usize) + 5);
        match print_field(to, schema, row, at, i, whole)? {
            None => return Ok(()),
            Some(next) => at = next,
        }
    }
    Ok(())
}

// The null bitmap and the fields of a row.
fn print_row<W: Write>(
    to: &mut W,
    schema: &[u8],
    row: &[u8],
    columns: u32,
    words: &[u8],
) -> io::Result<()> {
    if 64 < columns {
        return Ok(());
    }
    match walk_head(row, columns as u16) {
        (at, Err(refusal)) => {
            vector_fields::print_refused(to, refusal)?;
            writeln!(to, ", place {at}")
        }
        (at, Ok(n)) => {
            writeln!(to, ": columns {n}, place {at}")?;
            print_fields(to, schema, row, columns, at, words)
        }
    }
}

// `schema S, row R, whole` and the number of each column.
fn question<W: Write>(to: &mut W, words: &[u8], schema: &[u8], row: &[u8]) -> io::Result<()> {
    match schema::check(schema) {
        Err(refusal) => {
            vector_fields::print_refused(to, refusal)?;
            writeln!(to)
        }
        Ok(columns) => print_row(to, schema, row, columns, words),
    }
}

// A name, a colon and a question.
fn show_line<W: Write>(to: &mut W, line: &[u8]) -> io::Result<()> {
    let words = vector_text::after(line, b':');
    to.write_all(vector_text::before(line, b':'))?;
    let mut schema = [0u8; 256];
    let n = vector_text::decode(vector_text::word(words, 1), &mut schema);
    let mut row = [0u8; 256];
    let m = vector_text::decode(vector_text::word(words, 3), &mut row);
    question(to, words, &schema[..n], &row[..m])
}

fn main(rt: HostRuntime) -> io::Result<()> {
    vector_text::show_lines(&mut rt.reader(), &mut io::writer(&rt), show_line)
}
