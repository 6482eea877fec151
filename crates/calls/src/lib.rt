// One call of the machine, whichever it is.
#![tactic(auto)]

ghost use Rattle.std.specs.Prelude.{◌≡◌};
ghost use Rattle.book.specs.Answers.{carried_outcome, refusal, refusal_of};
ghost use Rattle.book.specs.Calls.{step};

use book::{Call, Carried, Month, Refusal};

// The answer to a call; a refused one leaves the book as it was.
#[tactic(auto, unfolding(book::specs::Calls::step))]
pub fn apply(month: &mut Month, call: Call) -> Result<Carried, Refusal>
    ensures { carried_outcome result month.new ≡ step month.old call }
{
    let number = match call {
        Call::Join { residence, fitness } => accounts::join(month, residence, fitness),
        Call::Deposit { account, amount } => accounts::deposit(month, account, amount),
        Call::Withdraw { account, amount } => accounts::withdraw(month, account, amount),
        Call::Trade {
            buyer,
            seller,
            units,
        } => accounts::trade(month, buyer, seller, units),
        Call::Lodge { owner, class } => receipts::lodge(month, owner, class),
        Call::Strike { owner, receipt } => receipts::strike(month, owner, receipt),
        Call::Declare { account, heat } => offers::declare(month, account, heat),
        Call::Offer { seller, units } => offers::offer(month, seller, units),
        Call::Retract { seller } => offers::retract(month, seller),
        Call::Take { buyer, seller } => pairing::take_offer(month, buyer, seller),
        Call::Day { price } => accounts::next_day(month, price),
        Call::Close { budget } => return closing::close(month, budget),
        Call::Pay { number } => settlement::pay_match(month, number),
        Call::Measure {
            number,
            sample,
            due_weight,
        } => measuring::measure(month, number, &sample, due_weight),
        Call::Invoice { number } => settlement::invoice(month, number),
        Call::Terminate { number, party } => measuring::terminate(month, number, party),
        Call::HandOver { number } => settlement::hand_over(month, number),
        Call::Auction {
            number,
            winner,
            proceeds,
        } => auction::auction(month, number, winner, proceeds),
    };
    Ok(Carried::Number(number?))
}

// Why a call would be refused, where it would be; it is not made, but tried on a month of its own.
pub fn refusal(month: &Month, call: Call) -> Result<(), Refusal>
    ensures { refusal result ≡ refusal_of (step month.now call).answer }
{
    apply(&mut month.copied(), call)?;
    Ok(())
}
