// What a session prints: its answers and its ledger.
#![tactic(auto)]

mod ledger;
mod print;
mod rows;

pub use ledger::{print_ledger, stage_number};
pub use print::{Printer, decimal, last_digit};
pub use rows::{Row, print_rows};
