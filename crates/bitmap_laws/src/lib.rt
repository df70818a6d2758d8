#![tactic(auto)]

// Laws of bitmaps, with no code: sets and their members; the written form reads back, and so does one of other widths;
// what is accepted is a set; the length of a form; one claim about every plan; no refusal is 0. Inner: no entry point.
