#![tactic(auto)]

// The schema, row block and bucket calls of the C interface as plain functions, which c_api hands on. Every call returns 0 and sets
// its outputs, or returns the refusal's number and leaves every output untouched.
mod block_calls;
mod bucket_calls;
mod counts;
mod fields;
mod schema_calls;

pub use block_calls::{block_check, block_field};
pub use bucket_calls::{bucket_check, bucket_field};
pub use schema_calls::{schema_check, schema_column};
