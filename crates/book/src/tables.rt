// The book: its terms, its state of the day, and its three tables.
ghost use Rattle.std.specs.Prelude.{◌≡◌, ◌≤◌, ◌<◌, IfOk, IfErr, length, take};
ghost use Rattle.book.specs.Opening.{fresh};
ghost use Rattle.book.specs.Types.{Refusal};

use crate::accounts::Account;
use crate::matches::Match;
use crate::receipts::Receipt;
use crate::refusals::Refusal;
use heats::HeatTable;

// The book: kind, T, R, the day's price, and the three tables, each an array of fixed length with how many of its rows are in use: "starts as [v; 256]". The heat table that it was opened with, lent, stands last, where no row's place depends on it.
// No invariant bounds the counts: Day, Join and the test of Close are promised of any book, and would ask it. A function that cuts the rows in use asks its count.
#[derive(Clone, Drop)]
pub struct Book<'t> {
    pub board: bool,
    pub tonnes: u64,
    pub rate: u64,
    pub price: u64,
    pub day: u64,
    pub open: bool,
    pub fund: u64,
    pub deposited: u64,
    pub accounts: [Account; Book::ACCOUNTS],
    pub account_count: usize,
    pub receipts: [Receipt; Book::RECEIPTS],
    pub receipt_count: usize,
    pub matches: [Match; Book::MATCHES],
    pub match_count: usize,
    pub heats: HeatTable<'t>,
}

// One of a list of buyers or sellers in Close: an account's number, the units left to it, and where it is a lot its day, else 0, which nothing reads: only lots are compared by day.
#[derive(Clone, Copy, Default)]
pub struct Listed {
    pub account: u8,
    pub left: u16,
    pub day: u16,
}

// Units of a buyer and a seller that Close is to pair.
#[derive(Clone, Copy, Default)]
pub struct Pair {
    pub buyer: u8,
    pub seller: u8,
    pub units: u16,
}

// The rows of a table that are in use, the first so many. Where they are changed, a slice is cut in place: lent to be changed by such a function, it is no shorter.
pub fn in_use<T, const N: usize>(table: &[T; N], count: usize) -> &[T]
    requires { count ≤ N }
    ensures rows { result.now ≡ take count table.now }
    ensures many { length result.now ≡ count }
{
    &table[..count]
}

// A row's place by its number, where the table has it; the methods below say it of each table.
fn place(count: usize, number: u64, refusal: Refusal) -> Result<usize, Refusal>
    ensures there { IfOk result (λ k. (k ≡ number) × (number < count)) }
    ensures missing { IfErr result (λ e. (e ≡ refusal) × (count ≤ number)) }
{
    if count as u64 <= number {
        return Err(refusal);
    }
    Ok(number as usize)
}

impl<'t> Book<'t> {
    pub const ACCOUNTS: usize = 32;

    // four to an account
    pub const LOTS: usize = 128;

    pub const RECEIPTS: usize = 256;

    pub const MATCHES: usize = 256;

    // "Take stops at 64 matches"
    pub const TAKE_MATCHES: usize = 64;

    // "A fresh book": day 0, market open, fund 0, deposits accepted 0, all else empty.
    pub fn fresh(heats: HeatTable<'t>, board: bool, tonnes: u64, rate: u64, price: u64) -> Book<'t>
        ensures { result ≡ fresh heats.entry board tonnes rate price }
    {
        let accounts = [Account::new(false, false); 32];
        let receipts = [Receipt::new(0, false); 256];
        let matches = [Match::new(0, 0, 0, 0, 0, None); 256];
        Book {
            board,
            tonnes,
            rate,
            price,
            day: 0,
            open: true,
            fund: 0,
            deposited: 0,
            accounts,
            account_count: 0,
            receipts,
            receipt_count: 0,
            matches,
            match_count: 0,
            heats,
        }
    }

    // The same book, on which a call can be tried: its tables are copied, its heat table is lent on. A book is not `Copy`: today's Rattle has that of no type with a lifetime that a clause sees as another value, as it does its heat table.
    pub fn copied(&self) -> Book<'t>
        ensures { result ≡ self.now }
    {
        Book {
            heats: self.heats.lend(),
            ..*self
        }
    }

    // The place of an account's row: "6 no such account".
    pub fn account_place(&self, number: u64) -> Result<usize, Refusal>
        ensures there { IfOk result (λ k. (k ≡ number) × (number < self.now.account_count)) }
        ensures missing { IfErr result (λ e. (e ≡ Refusal.NoAccount) × (self.now.account_count ≤ number)) }
    {
        place(self.account_count, number, Refusal::NoAccount)
    }

    // The place of a receipt's row: "17 no such receipt".
    pub fn receipt_place(&self, number: u64) -> Result<usize, Refusal>
        ensures there { IfOk result (λ k. (k ≡ number) × (number < self.now.receipt_count)) }
        ensures missing { IfErr result (λ e. (e ≡ Refusal.NoReceipt) × (self.now.receipt_count ≤ number)) }
    {
        place(self.receipt_count, number, Refusal::NoReceipt)
    }

    // The place of a match's row: "21 no such match".
    pub fn match_place(&self, number: u64) -> Result<usize, Refusal>
        ensures there { IfOk result (λ k. (k ≡ number) × (number < self.now.match_count)) }
        ensures missing { IfErr result (λ e. (e ≡ Refusal.NoMatch) × (self.now.match_count ≤ number)) }
    {
        place(self.match_count, number, Refusal::NoMatch)
    }
}
