// Calls 5 and 6: Lodge, Strike; and the count of an owner's free receipts.
#![tactic(auto, using(reached::specs::Needs::calls), unfolding(book::specs::Receipts::lodge, book::specs::Receipts::strike))]

ghost use Rattle.std.specs.Prelude.{◌≡◌, not, ◌&&◌, ◌≤◌, ltb, length, filter};
ghost use Rattle.book.specs.Answers.{outcome};
ghost use Rattle.book.specs.Rows.{any_class, is_free_of};
ghost use Rattle.book.specs.Tables.{free_receipts};
ghost use Rattle.book.specs.Receipts.{lodge, strike};

use book::{Book, Month, Receipt, ReceiptState, Refusal, flag, in_use};

// How many of these receipts are free, this owner's and of the class meant: bonded, or either.
fn count_free(lodged: &[Receipt], bonded: bool, owner: u64) -> usize
    ensures { result ≡ length (filter (is_free_of bonded owner) lodged.now) }
{
    lodged
        .iter()
        .filter(|receipt| receipt.is_free_of(bonded, owner))
        .count()
}

// How many free receipts an owner has, of the class meant. A closure in place of `bonded` would only repeat `is_free_of` at each caller.
#[tactic(auto, using(crate::proofs::Rows::free_rows))]
pub fn free_receipts(book: &Book, bonded: bool, owner: u64) -> u64
    requires { book.now.receipt_count ≤ 256 }
    ensures { result ≡ free_receipts book.now bonded owner }
{
    count_free(in_use(&book.receipts, book.receipt_count), bonded, owner) as u64
}

// "receipts book, above the seller's free receipts": whether a receipts book lacks receipts for so many units.
// All are counted: to stop at the units, the chain of `count_free` would stand here again, with a `take` in it.
pub fn lacks_receipts(book: &Book, seller: u64, units: u64) -> bool
    requires { book.now.receipt_count ≤ 256 }
    ensures { result ≡ not book.now.board && ltb (free_receipts book.now any_class seller) units }
{
    !book.board && free_receipts(book, false, seller) < units
}

// "5 Lodge owner, class; carries the receipt number."
pub fn lodge(month: &mut Month, owner: u64, class: u64) -> Result<u64, Refusal>
    ensures { outcome result month.new ≡ lodge month.old owner class }
{
    if month.book.board {
        return Err(Refusal::OtherKind);
    }
    let k = month.book.account_place(owner)?;
    let bonded = flag(class, Refusal::OutsideSet)?;
    let i = month.book.receipt_count;
    if Book::RECEIPTS <= i {
        return Err(Refusal::ReceiptsFull);
    }
    month.book.receipts[i] = Receipt::new(k as u8, bonded);
    month.book.receipt_count += 1;
    Ok(i as u64)
}

// "6 Strike owner, receipt."
pub fn strike(month: &mut Month, owner: u64, receipt: u64) -> Result<u64, Refusal>
    ensures { outcome result month.new ≡ strike month.old owner receipt }
{
    if month.book.board {
        return Err(Refusal::OtherKind);
    }
    month.book.account_place(owner)?;
    let i = month.book.receipt_place(receipt)?;
    let struck = &month.book.receipts[i];
    if !struck.is_owned_by(owner) || struck.state == ReceiptState::Struck {
        return Err(Refusal::NoReceipt);
    }
    if struck.state.is_frozen() {
        return Err(Refusal::ReceiptFrozen);
    }
    month.book.receipts[i].state = ReceiptState::Struck;
    Ok(0)
}
