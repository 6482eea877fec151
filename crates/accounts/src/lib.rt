// The opening of a book, and calls 1 to 4 and 11: Join, Deposit, Withdraw, Trade, Day.
#![tactic(auto, using(reached::specs::Needs::calls, reached::specs::Needs::newest_small), unfolding(book::specs::Opening::opening, book::specs::Opening::next_day, book::specs::Accounts::join, book::specs::Accounts::deposit, book::specs::Accounts::withdraw, book::specs::Accounts::trade, book::specs::Tables::pay, book::specs::Tables::charge))]

ghost use Rattle.std.specs.Prelude.{◌≡◌};
ghost use Rattle.book.specs.Answers.{outcome};
ghost use Rattle.book.specs.Opening.{opened, opening, next_day};
ghost use Rattle.book.specs.Accounts.{join, deposit, withdraw, trade};

use book::{Account, Amount, Book, Month, Opening, Refusal, Side, flag};
use heats::HeatTable;

// With the heat table that the book keeps, a loaded one or the printed one: "Each book keeps the table it was opened with".
// "kind (0 receipts, 1 board), T tonnes per unit 1..20,000, default rate R 0..100 percent, price 1..1,000,000 fen/t"
pub fn opening<'t>(heats: &HeatTable<'t>, terms: &Opening) -> Result<Month<'t>, Refusal>
    ensures { opened result ≡ opening heats.now terms.now.kind terms.now.tonnes terms.now.rate terms.now.price }
{
    let board = flag(terms.kind, Refusal::OutOfRange)?;
    if !(1..=20_000).contains(&terms.tonnes)
        || 100 < terms.rate
        || !(1..=1_000_000).contains(&terms.price)
    {
        return Err(Refusal::OutOfRange);
    }
    let book = Book::fresh(heats.lend(), board, terms.tonnes, terms.rate, terms.price);
    Ok(Month { book })
}

// Day, of any book.
pub fn next_day_of(book: &mut Book, price: u64) -> Result<u64, Refusal>
    ensures { outcome result book.new ≡ next_day book.old price }
{
    if !(1..=1_000_000).contains(&price) {
        return Err(Refusal::OutOfRange);
    }
    if 1_000 <= book.day {
        return Err(Refusal::LastDay);
    }
    book.price = price;
    book.day += 1;
    Ok(book.day)
}

// "11 Day price: day + 1; carries the new day."
pub fn next_day(month: &mut Month, price: u64) -> Result<u64, Refusal>
    ensures { outcome result month.new ≡ next_day month.old price }
{
    next_day_of(&mut month.book, price)
}

// Join, of any book.
pub fn join_to(book: &mut Book, residence: u64, fitness: u64) -> Result<u64, Refusal>
    ensures { outcome result book.new ≡ join book.old residence fitness }
{
    let k = book.account_count;
    if Book::ACCOUNTS <= k {
        return Err(Refusal::AccountsFull);
    }
    let overseas = flag(residence, Refusal::OutsideSet)?;
    let fit = flag(fitness, Refusal::OutsideSet)?;
    book.accounts[k] = Account::new(overseas, fit);
    book.account_count += 1;
    Ok(k as u64)
}

// "1 Join residence, fitness; carries the account number."
pub fn join(month: &mut Month, residence: u64, fitness: u64) -> Result<u64, Refusal>
    ensures { outcome result month.new ≡ join month.old residence fitness }
{
    join_to(&mut month.book, residence, fitness)
}

// "2 Deposit account, amount: cash up by it."
pub fn deposit(month: &mut Month, account: u64, amount: u64) -> Result<u64, Refusal>
    ensures { outcome result month.new ≡ deposit month.old account amount }
{
    let k = month.book.account_place(account)?;
    if amount == 0 {
        return Err(Refusal::OutsideSet);
    }
    let amount = Amount::try_from(amount)?;
    if 100_000_000_000_000_000 < month.book.deposited + amount.fen {
        return Err(Refusal::DepositsFull);
    }
    month.book.deposited += amount.fen;
    month.book.accounts[k].credit(amount);
    Ok(0)
}

// "3 Withdraw account, amount: cash down by it."
pub fn withdraw(month: &mut Month, account: u64, amount: u64) -> Result<u64, Refusal>
    ensures { outcome result month.new ≡ withdraw month.old account amount }
{
    let k = month.book.account_place(account)?;
    if amount == 0 {
        return Err(Refusal::OutsideSet);
    }
    let amount = Amount::try_from(amount)?;
    if month.book.accounts[k].has_below(amount.fen) {
        return Err(Refusal::AboveCash);
    }
    month.book.accounts[k].debit(amount);
    Ok(0)
}

// "4 Trade buyer, seller, units: adds units long to one and short to the other."
pub fn trade(month: &mut Month, buyer: u64, seller: u64, units: u64) -> Result<u64, Refusal>
    ensures { outcome result month.new ≡ trade month.old buyer seller units }
{
    if !month.book.open {
        return Err(Refusal::MarketShut);
    }
    let i = month.book.account_place(buyer)?;
    let j = month.book.account_place(seller)?;
    if i == j {
        return Err(Refusal::BuyerIsSeller);
    }
    if !(1..=1_000).contains(&units) {
        return Err(Refusal::OutsideSet);
    }
    let day = month.book.day;
    let accounts = &month.book.accounts;
    let bought = &accounts[i];
    let sold = &accounts[j];
    if bought.side == Side::Short || sold.side == Side::Long {
        return Err(Refusal::OtherSide);
    }
    if bought.would_pass(units) || sold.would_pass(units) {
        return Err(Refusal::PositionFull);
    }
    if bought.needs_fifth(day) || sold.needs_fifth(day) {
        return Err(Refusal::FifthDay);
    }
    month.book.accounts[i].add_units(Side::Long, units, day);
    month.book.accounts[j].add_units(Side::Short, units, day);
    Ok(0)
}
