// The answer of a call that asks for a number.
ghost use Rattle.common.specs.Outcome.{CountCall};
ghost use Rattle.common.specs.Refusal.{outcome};

use common::Refusal;

// The answer as a status; the count is set where there is one.
pub(crate) fn set_count(answer: Result<u32, Refusal>, count: &mut u32) -> u32
    ensures { CountCall (outcome answer) result count.old count.new }
{
    match answer {
        Err(refusal) => refusal.into(),
        Ok(n) => {
            *count = n;
            0
        }
    }
}
