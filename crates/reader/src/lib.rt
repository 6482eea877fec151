// The lines of a session, each read into an opening or a call.
#![tactic(auto)]

mod lines;
mod numbers;

pub use lines::{BadLine, later_lines, line_length, read_line, read_opening};
pub use numbers::read_numbers;
