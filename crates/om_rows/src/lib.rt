// Rows of tests: a line has a kind, what is tried and the answer that is wanted. A program of rows reads its lines from standard
// input, prints each row whose answer differs, and at the end how many rows of each kind agreed.
#![tactic(auto)]

mod pieces;
mod row;
mod tally;

pub use pieces::{Bad, bytes_of, file_of, put_pieces, text_of};
pub use row::{Row, is_remark, number, word};
pub use tally::Tally;
