// Calls 7 to 9: Declare, Offer, Retract.
#![tactic(auto, using(reached::specs::Needs::calls), unfolding(book::specs::Offers::declare, book::specs::Offers::offer, book::specs::Offers::retract))]

ghost use Rattle.std.specs.Prelude.{◌≡◌};
ghost use Rattle.book.specs.Answers.{outcome};
ghost use Rattle.book.specs.Offers.{declare, offer, retract};

use book::{Month, Refusal, Side};

// "7 Declare account, heat 4,300..10,000; replaces an earlier one."
pub fn declare(month: &mut Month, account: u64, heat: u64) -> Result<u64, Refusal>
    ensures { outcome result month.new ≡ declare month.old account heat }
{
    if !month.book.board {
        return Err(Refusal::OtherKind);
    }
    let k = month.book.account_place(account)?;
    if !(4_300..=10_000).contains(&heat) {
        return Err(Refusal::OutsideSet);
    }
    month.book.accounts[k].heat = Some(heat as u16);
    Ok(0)
}

// "8 Offer seller, units."
pub fn offer(month: &mut Month, seller: u64, units: u64) -> Result<u64, Refusal>
    ensures { outcome result month.new ≡ offer month.old seller units }
{
    if !month.book.open {
        return Err(Refusal::MarketShut);
    }
    let k = month.book.account_place(seller)?;
    if !(1..=1_000).contains(&units) {
        return Err(Refusal::OutsideSet);
    }
    let book = &month.book;
    let account = &book.accounts[k];
    if account.offer.is_some() {
        return Err(Refusal::OfferStands);
    }
    if account.units_of(Side::Short) < units {
        return Err(Refusal::AboveUnits);
    }
    if receipts::lacks_receipts(book, seller, units) {
        return Err(Refusal::AboveReceipts);
    }
    if book.board && account.heat.is_none() {
        return Err(Refusal::HeatMissing);
    }
    month.book.accounts[k].offer = Some(units as u16);
    Ok(0)
}

// "9 Retract seller."
pub fn retract(month: &mut Month, seller: u64) -> Result<u64, Refusal>
    ensures { outcome result month.new ≡ retract month.old seller }
{
    if !month.book.open {
        return Err(Refusal::MarketShut);
    }
    let k = month.book.account_place(seller)?;
    if month.book.accounts[k].offer.is_none() {
        return Err(Refusal::NoOffer);
    }
    month.book.accounts[k].offer = None;
    Ok(0)
}
