#![tactic(auto)]

// A whole bucket, part by part and column by column. Inner: no entry point.
mod part;
mod whole;

pub use part::pieces_of;
pub use whole::judge;
