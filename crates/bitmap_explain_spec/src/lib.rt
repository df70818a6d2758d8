// Why a bitmap is refused: the type that the definitions (specs/) and the code share. Inner: no entry point.
#![tactic(auto)]

use common::Refusal;

// What is told of a refused bitmap.
#[derive(Clone, Copy)]
pub struct Fault {
    // one of a bitmap, 1 to 11
    pub refusal: Refusal,
    // the chunk (4 to 8) or the container (10) at fault, counted from 0; else 0
    pub index: usize,
    // where in the bitmap the part at fault starts
    pub byte: usize,
    // what was found and what was wanted, for 1, 2, 3, 8, 9 and 11; else 0
    pub found: usize,
    pub wanted: usize,
}
