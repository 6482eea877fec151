// What the calls that settle a match are made of: payments to and from an account, the money held for a match and its stage, its receipts, penalties.
#![tactic(auto)]

ghost use Rattle.std.specs.Prelude.{◌≡◌, not, ◌≤◌, ◌<◌, ◌*◌, IfSome, length};
ghost use Rattle.coal.specs.Choice.{pick};
ghost use Rattle.book.specs.Counting.{iter};
ghost use Rattle.book.specs.Tables.{pay, charge};
ghost use Rattle.book.specs.Settlement.{punish, free_again, pass_turn, set_stage, handed};
ghost use Rattle.payments.specs.Money.{most_paid, Room, fined, Deal, Handing};

pub mod valued;

use book::{Amount, Book, Match, Percent, Receipt, Stage};
pub use valued::ValuedMatch;

// ---- money and stage of a match

// "V of a match = units × price × T."
#[tactic(auto, using(crate::proofs::Money::price_fits, crate::proofs::Money::value_fits, crate::proofs::Money::value_small))]
pub fn value(m: &Match, tonnes: u64) -> Amount
    requires units_bound { m.now.units ≤ 1_000 }
    requires price_bound { m.now.price ≤ 1_000_000 }
    requires tonnes_bound { tonnes ≤ 20_000 }
    ensures { result ≡ m.now.units * m.now.price * tonnes }
{
    Amount {
        fen: m.units as u64 * m.price as u64 * tonnes,
    }
}

// An amount is paid to an account; `Room n` says how many payments are to come, another number at each call, and `small` what is true of every amount, to callers that read no field of it.
// No type of an account's numbers, below 32: rows of any book would hold it, and Day, Join and the test of Close are promised of any book. It and `charge` are a line each: one function of both is no shorter; account and amount in one struct would be taken apart at once.
#[tactic(auto, using(crate::proofs::Money::room_cash), unfolding(book::specs::Tables::pay))]
pub fn pay(book: &mut Book, account: u8, amount: Amount)
    requires account_bound { account < 32 }
    requires room { Room 1 book.old }
    ensures paid { book.new ≡ pay book.old account amount }
    ensures small { amount ≤ most_paid }
{
    book.accounts[account as usize].credit(amount);
}

// An amount is taken from an account.
#[tactic(auto, using(crate::proofs::Money::room_cash), unfolding(book::specs::Tables::charge))]
pub fn charge(book: &mut Book, account: u8, amount: Amount)
    requires account_bound { account < 32 }
    requires room { Room 1 book.old }
    ensures charged { book.new ≡ charge book.old account amount }
    ensures small { amount ≤ most_paid }
{
    book.accounts[account as usize].debit(amount);
}

// So much money is held for a match, and the match is at a stage.
pub fn set_stage(book: &mut Book, number: u8, held: u64, stage: Stage)
    ensures { book.new ≡ set_stage book.old number held stage }
{
    book.matches[number as usize].hold(held, stage);
}

// ---- receipts of a match

// "its receipts are free again"
#[tactic(auto, using(reached::specs::Loops::none_turned, reached::specs::Loops::one_turned, reached::specs::Loops::all_turned), unfolding(book::specs::Settlement::free_again, book::specs::Settlement::release_turn))]
pub fn free_again(book: &mut Book, number: u64)
    requires { book.old.receipt_count ≤ 256 }
    ensures { book.new ≡ free_again book.old number }
{
    for receipt in &mut book.receipts[..book.receipt_count] {
        receipt.release(number);
    }
}

// "the receipts pass to the buyer, free"; a winner "takes the receipts". The loop of `free_again` with another step: one function of both would take a closure and its law, and is longer than the two.
#[tactic(auto, using(reached::specs::Loops::none_turned, reached::specs::Loops::one_turned, reached::specs::Loops::all_turned), unfolding(book::specs::Settlement::pass_turn))]
fn pass_receipts(lodged: &mut [Receipt], number: u64, taker: u8)
    ensures { lodged.new ≡ iter (length lodged.old) 0 (pass_turn number taker) lodged.old }
{
    for receipt in lodged.iter_mut() {
        receipt.pass(number, taker);
    }
}

// "passes the receipts and pays the seller's 80%": "the rest is held"; the receipts pass to one who takes them, "free; stage held."
#[tactic(auto, using(crate::proofs::Receipts::receipts_passed), unfolding(book::specs::Settlement::handed, book::specs::Settlement::pass_receipts, book::specs::Tables::pay))]
pub fn handed(book: &mut Book, m: &ValuedMatch, taker: u8)
    requires { Handing book.old m.now }
    ensures { book.new ≡ handed book.old m.now.number m.now.row m.now.value taker }
{
    let first = m.value.percent_down(Percent { value: 80 });
    pay(book, m.row.seller, first);
    set_stage(book, m.number, m.value.fen - first.fen, Stage::Held);
    pass_receipts(
        &mut book.receipts[..book.receipt_count],
        m.number as u64,
        taker,
    );
}

// ---- penalties

// "One at fault pays the other; two at fault each pay the fund.": what one of them pays, to the other or, without a payee, to the fund.
#[tactic(auto, using(crate::proofs::Money::room_charged), unfolding(crate::specs::Money::fined, book::specs::Tables::charge))]
fn fined(book: &mut Book, payer: u8, payee: Option<u8>, amount: Amount)
    requires payer_bound { payer < 32 }
    requires payee_bound { IfSome payee (λ k. k < 32) }
    requires room { Room 2 book.old }
    ensures fined { book.new ≡ fined payee book.old payer amount }
    ensures small { amount ≤ most_paid }
{
    charge(book, payer, amount);
    match payee {
        Some(other) => pay(book, other, amount),
        None => book.fund += amount.fen,
    }
}

// Who is at fault, and by what percent of V.
#[derive(Clone, Copy)]
pub struct Faults {
    pub buyer: Option<Percent>,
    pub seller: Option<Percent>,
}

// "A penalty is that percent of V, down."
#[tactic(auto, using(crate::proofs::Money::both_fined), unfolding(book::specs::Settlement::punish, book::specs::Settlement::penalty, crate::specs::Money::fined))]
pub fn punish(book: &mut Book, m: &ValuedMatch, faults: Faults)
    requires deal { Deal book.old m.now }
    requires room { Room 4 book.old }
    ensures { book.new ≡ punish book.old m.now.row faults.buyer faults.seller }
{
    let buyer = m.row.buyer;
    let seller = m.row.seller;
    match (faults.buyer, faults.seller) {
        (None, None) => {}
        (Some(p), None) => fined(book, buyer, Some(seller), m.value.percent_down(p)),
        (None, Some(q)) => fined(book, seller, Some(buyer), m.value.percent_down(q)),
        (Some(p), Some(q)) => {
            fined(book, buyer, None, m.value.percent_down(p));
            fined(book, seller, None, m.value.percent_down(q));
        }
    }
}

// "unfit (10%), else .. (R%)": the fault of a party, by whether it is fit and whether it lacks what is asked of it, each party something else.
pub fn fault(fit: bool, lacking: bool, rate: Percent) -> Option<Percent>
    ensures { result ≡ pick (not fit) (Some 10) (pick lacking (Some rate) None) }
{
    if fit {
        lacking.then_some(rate)
    } else {
        Some(Percent { value: 10 })
    }
}
