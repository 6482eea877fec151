// Calls 13, 15 and 17: Pay, Invoice, Hand over.
#![tactic(auto)]

ghost use Rattle.std.specs.Prelude.{◌≡◌, ltb, length, filter};
ghost use Rattle.std.specs.List.{list_any};
ghost use Rattle.coal.specs.Choice.{pick};
ghost use Rattle.book.specs.Answers.{outcome};
ghost use Rattle.book.specs.Rows.{heat_missing, is_frozen_for, is_ordinary_for};
ghost use Rattle.book.specs.Tables.{frozen_receipts};
ghost use Rattle.book.specs.Settlement.{buyer_fault, seller_fault, into_held, to_auction, paid_stage, fault_ended, paid, pay_match, invoice, hand_over};
ghost use Rattle.payments.specs.Money.{valued, Due};

use book::{Amount, Book, Month, Percent, Receipt, Refusal, Stage, in_use};
use payments::{Faults, ValuedMatch, charge, fault, free_again, handed, pay, punish, set_stage};

// ---- Pay

// How many of these receipts are frozen for a match.
fn count_frozen(lodged: &[Receipt], number: u64) -> usize
    ensures { result ≡ length (filter (λ r. is_frozen_for number r.state) lodged.now) }
{
    lodged
        .iter()
        .filter(|receipt| receipt.is_frozen_for(number))
        .count()
}

// "any ordinary receipt": whether one of these is frozen for a match and ordinary.
fn any_ordinary(lodged: &[Receipt], number: u64) -> bool
    ensures { result ≡ list_any (is_ordinary_for number) lodged.now }
{
    lodged.iter().any(|receipt| receipt.is_ordinary_for(number))
}

// "Buyer's fault: unfit (10%), else cash below V (R%)."
#[tactic(auto, unfolding(book::specs::Settlement::buyer_fault, book::specs::Settlement::value))]
fn buyer_fault(book: &Book, m: &ValuedMatch) -> Option<Percent>
    requires due { Due book.now m.now }
    requires m_value { m.now ≡ valued book.now m.now.number }
    ensures { result ≡ buyer_fault book.now m.now.number }
{
    let buyer = &book.accounts[m.row.buyer as usize];
    let rate = Percent { value: book.rate };
    fault(buyer.fit, buyer.has_below(m.value.fen), rate)
}

// "receipts book with fewer frozen than units, or board book with heat missing": whether the seller lacks what it is to deliver.
fn seller_lacks(book: &Book, m: &ValuedMatch) -> bool
    requires { Due book.now m.now }
    ensures { result ≡ pick book.now.board (heat_missing m.now.row.heat) (ltb (frozen_receipts book.now m.now.number) m.now.row.units) }
{
    if book.board {
        m.row.heat.is_none()
    } else {
        let lodged = in_use(&book.receipts, book.receipt_count);
        count_frozen(lodged, m.number as u64) < m.row.units as usize
    }
}

// "Seller's fault: unfit (10%), else receipts book with fewer frozen than units, or board book with heat missing (R%)."
#[tactic(auto, unfolding(book::specs::Settlement::seller_fault))]
fn seller_fault(book: &Book, m: &ValuedMatch) -> Option<Percent>
    requires due { Due book.now m.now }
    requires m_value { m.now ≡ valued book.now m.now.number }
    ensures { result ≡ seller_fault book.now m.now.number }
{
    let seller = &book.accounts[m.row.seller as usize];
    let rate = Percent { value: book.rate };
    fault(seller.fit, seller_lacks(book, m), rate)
}

// "a match of an overseas buyer with any ordinary receipt": by the buyer's residence and the receipts frozen for the match.
#[tactic(auto, using(crate::proofs::Receipts::ordinary_rows), unfolding(book::specs::Settlement::to_auction))]
fn to_auction(book: &Book, m: &ValuedMatch) -> bool
    requires { Due book.now m.now }
    ensures { result ≡ to_auction book.now m.now.number m.now.row }
{
    let buyer = &book.accounts[m.row.buyer as usize];
    let lodged = in_use(&book.receipts, book.receipt_count);
    buyer.overseas && any_ordinary(lodged, m.number as u64)
}

// "In a receipts book it gives the new stage 5, funded", or "stage 6, awaiting auction". "A board match goes from Pay to prepaid."
#[tactic(auto, unfolding(book::specs::Settlement::paid_stage))]
fn paid_stage(book: &Book, m: &ValuedMatch) -> Stage
    requires { Due book.now m.now }
    ensures { result ≡ paid_stage book.now m.now.number m.now.row }
{
    if book.board {
        Stage::Prepaid
    } else if to_auction(book, m) {
        Stage::Awaiting
    } else {
        Stage::Funded
    }
}

// "moves V into money held": the buyer pays V, and V is held, at a stage.
#[tactic(auto, unfolding(book::specs::Settlement::into_held))]
fn into_held(book: &mut Book, m: &ValuedMatch, stage: Stage)
    requires { Due book.old m.now }
    ensures { book.new ≡ into_held book.old m.now.number m.now.row m.now.value stage }
{
    charge(book, m.row.buyer, m.value);
    set_stage(book, m.number, m.value.fen, stage);
}

// "ends the match on a fault": "Then the match is ended and its receipts are free again."
#[tactic(auto, using(crate::proofs::Faults::punished_count), unfolding(book::specs::Settlement::fault_ended))]
fn fault_ended(book: &mut Book, m: &ValuedMatch, faults: Faults)
    requires { Due book.old m.now }
    ensures { book.new ≡ fault_ended book.old m.now.number m.now.row faults.buyer faults.seller }
{
    punish(book, m, faults);
    set_stage(book, m.number, 0, Stage::Ended);
    free_again(book, m.number as u64);
}

// By the parties' faults; without one the match may go to auction.
#[tactic(auto, unfolding(book::specs::Settlement::paid))]
fn paid(book: &mut Book, m: &ValuedMatch, faults: Faults)
    requires { Due book.old m.now }
    ensures { book.new ≡ paid book.old m.now.number m.now.row faults.buyer faults.seller }
{
    match (faults.buyer, faults.seller) {
        (None, None) => {
            let stage = paid_stage(book, m);
            into_held(book, m, stage);
        }
        _ => fault_ended(book, m, faults),
    }
}

// "Pay (call 13) judges faults as Settle did, ends the match on a fault, and otherwise moves V into money held."
#[tactic(auto, unfolding(book::specs::Settlement::pay_match))]
pub fn pay_match(month: &mut Month, number: u64) -> Result<u64, Refusal>
    ensures { outcome result month.new ≡ pay_match month.old number }
{
    let m = ValuedMatch::of(month, number)?;
    if m.row.stage != Stage::Paired {
        return Err(Refusal::WrongStage);
    }
    if month.book.day < m.row.due as u64 {
        return Err(Refusal::BeforeDueDay);
    }
    let faults = Faults {
        buyer: buyer_fault(&month.book, &m),
        seller: seller_fault(&month.book, &m),
    };
    paid(&mut month.book, &m, faults);
    Ok(0)
}

// ---- Hand over

// "Hand over (call 17) takes a funded match, passes the receipts and pays the seller's 80%."
#[tactic(auto, using(payments::proofs::Money::handing_due), unfolding(book::specs::Settlement::hand_over))]
pub fn hand_over(month: &mut Month, number: u64) -> Result<u64, Refusal>
    ensures { outcome result month.new ≡ hand_over month.old number }
{
    let m = ValuedMatch::of(month, number)?;
    if m.row.stage != Stage::Funded {
        return Err(Refusal::WrongStage);
    }
    handed(&mut month.book, &m, m.row.buyer);
    Ok(0)
}

// ---- Invoice

// "15 Invoice match." "Invoice (held): the money held goes to the seller; closed." No `ValuedMatch`: only what is held is paid; the row is copied, since the payment changes the book.
#[tactic(auto, using(reached::specs::Needs::calls), unfolding(book::specs::Settlement::invoice))]
pub fn invoice(month: &mut Month, number: u64) -> Result<u64, Refusal>
    ensures { outcome result month.new ≡ invoice month.old number }
{
    let j = month.book.match_place(number)?;
    let m = month.book.matches[j];
    if m.stage != Stage::Held {
        return Err(Refusal::WrongStage);
    }
    pay(&mut month.book, m.seller, Amount { fen: m.held });
    set_stage(&mut month.book, j as u8, 0, Stage::Closed);
    Ok(0)
}
