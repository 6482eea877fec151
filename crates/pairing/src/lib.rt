// Pairing, and call 10: Take.
#![tactic(auto, using(reached::specs::Needs::calls), unfolding(book::specs::Pairing::pair, book::specs::Pairing::freeze, book::specs::Offers::take_offer))]

ghost use Rattle.std.specs.Prelude.{◌≡◌, ◌≤◌, ◌<◌, ◌+◌, length};
ghost use Rattle.book.specs.Counting.{iter};
ghost use Rattle.book.specs.Pairing.{freeze_turn, pair};
ghost use Rattle.book.specs.Offers.{take_offer};
ghost use Rattle.book.specs.Answers.{outcome};

use book::{Book, Match, Month, Receipt, Refusal, Side};

// "freezes the seller's lowest-numbered free receipts, as many as the units or as there are"; it stops once none is left to freeze.
// Counted by hand: behind a `filter` and `take` of `iter_mut` the loop knows the rows lent, but not the place of each in the table, by which the proof goes.
fn freeze(lodged: &mut [Receipt], bonded: bool, seller: u64, number: u8, units: u16)
    ensures { lodged.new ≡ (iter (length lodged.old) 0 (freeze_turn bonded seller number) (record { receipts = lodged.old; left = units })).receipts }
{
    let mut left = units;
    for receipt in lodged.iter_mut() {
        if left == 0 {
            return;
        }
        if receipt.is_free_of(bonded, seller) {
            receipt.freeze(number);
            left -= 1;
        }
    }
}

// "takes the units off both sides; .. In a receipts book it freezes the seller's lowest-numbered free receipts": the next match, due in some days.
// `bonded_only` goes into one test of a receipt, and parties and units are a call's own: a closure or a struct would be made only to be taken apart here.
#[tactic(auto, using(crate::proofs::Freezing::first_frozen), unfolding(book::specs::Pairing::pair, book::specs::Pairing::freeze))]
pub fn pair(book: &mut Book, bonded_only: bool, days: u64, buyer: u8, seller: u8, units: u16)
    requires buyer_bound { buyer < 32 }
    requires seller_bound { seller < 32 }
    requires price_bound { book.old.price ≤ 1_000_000 }
    requires days_bound { book.old.day + days ≤ 10_000 }
    requires receipt_count_bound { book.old.receipt_count ≤ 256 }
    requires match_count_bound { book.old.match_count < 256 }
    ensures { book.new ≡ pair book.old bonded_only days buyer seller units }
{
    let number = book.match_count;
    let i = buyer as usize;
    let j = seller as usize;
    let price = book.price as u32;
    let due = (book.day + days) as u16;
    let heat = book.accounts[j].heat;
    book.matches[number] = Match::new(buyer, seller, units, price, due, heat);
    book.match_count += 1;
    book.accounts[i].use_up(units as u64);
    book.accounts[j].use_up(units as u64);
    if !book.board {
        let lodged = &mut book.receipts[..book.receipt_count];
        freeze(lodged, bonded_only, seller as u64, number as u8, units);
    }
}

// "10 Take buyer, seller: the whole offer becomes a match due in 2 days; the offer ends; carries the match number."
pub fn take_offer(month: &mut Month, buyer: u64, seller: u64) -> Result<u64, Refusal>
    ensures { outcome result month.new ≡ take_offer month.old buyer seller }
{
    if !month.book.open {
        return Err(Refusal::MarketShut);
    }
    let i = month.book.account_place(buyer)?;
    let j = month.book.account_place(seller)?;
    if i == j {
        return Err(Refusal::BuyerIsSeller);
    }
    let book = &month.book;
    let bought = &book.accounts[i];
    let sold = &book.accounts[j];
    let units = sold.offer.ok_or(Refusal::NoOffer)?;
    if bought.units_of(Side::Long) < units as u64 {
        return Err(Refusal::AboveUnits);
    }
    if receipts::lacks_receipts(book, seller, units as u64) {
        return Err(Refusal::AboveReceipts);
    }
    let number = book.match_count;
    if Book::TAKE_MATCHES <= number {
        return Err(Refusal::TakesFull);
    }
    pair(&mut month.book, false, 2, i as u8, j as u8, units);
    month.book.accounts[j].offer = None;
    Ok(number as u64)
}
