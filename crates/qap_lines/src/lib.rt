//! Lines of a name and numbers, as certificates and proofs spell them.
#![tactic(auto)]

mod line;
mod number;
mod permutation;
mod writing;

pub use line::{Line, first_line};
pub use number::{LineNumbers, are_limited, one_number, read_numbers};
pub use permutation::permutation_from_one;
pub use writing::{
    WriteError, begin_line, number_from_one, push_from_one, push_number, push_numbers, write_both,
    write_from_one, write_head, write_one, write_text,
};
