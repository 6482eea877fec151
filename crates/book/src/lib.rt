// The delivery book of one contract month: its types, what one row of a table is asked and how it changes, and the empty book.
// Numbers are cast by `as`, one form for all, each proved to lose nothing: `u64::from` has none for `usize`, and `try_from` would add a case that never comes.
#![tactic(auto)]

pub mod accounts;
pub mod amounts;
pub mod calls;
pub mod matches;
pub mod month;
pub mod receipts;
pub mod refusals;
pub mod tables;

pub use accounts::{Account, Lot, Lots, Side};
pub use amounts::{Amount, Percent};
pub use calls::{Call, Carried, Opening};
pub use matches::{Match, Stage};
pub use month::Month;
pub use receipts::{Receipt, ReceiptState};
pub use refusals::{Refusal, flag};
pub use tables::{Book, Listed, Pair, in_use};
