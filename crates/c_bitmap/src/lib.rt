#![tactic(auto)]

// The bitmap calls of the C interface as plain functions, which c_api hands on. Every call returns 0 and sets its outputs, or returns
// the refusal's number and leaves every output untouched.
ghost use Rattle.common.specs.Outcome.{Call};
ghost use Rattle.common.specs.Refusal.{outcome};

mod reading;
mod writing;

use common::Refusal;
pub use reading::{bitmap_check, bitmap_page, bitmap_probe, bitmap_rank};
pub use writing::{
    bitmap_difference, bitmap_intersection, bitmap_symmetric_difference, bitmap_union, bitmap_write,
};

// A result as a status: its value into its place, and 0; or the refusal's number.
pub fn answer<T: Copy>(answered: Result<T, Refusal>, place: &mut T) -> u32
    ensures { Call (outcome answered) (λ x. x) result place.old place.new }
{
    match answered {
        Err(refusal) => u32::from(refusal),
        Ok(value) => {
            *place = value;
            0
        }
    }
}
