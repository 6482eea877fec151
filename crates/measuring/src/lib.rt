// Calls 14 and 16, of a board book: Measure, Terminate.
#![tactic(auto)]

ghost use Rattle.std.specs.Prelude.{◌≡◌, ◌≤◌, ◌-◌, ◌+◌};
ghost use Rattle.book.specs.Answers.{outcome};
ghost use Rattle.coal.specs.Coal.{coal_weight};
ghost use Rattle.book.specs.Settlement.{weight_due, vessel_amount, leaves_short, bad_due, measured, loaded, measure, terminated, terminate};
ghost use Rattle.coal.specs.Ranges.{most_due, most_amount};
ghost use Rattle.payments.specs.Money.{Due};
ghost use Rattle.measuring.specs.Party.{party_number};

use book::{Amount, Book, Match, Month, Percent, Refusal, Stage};
use coal::Sample;
use payments::{Faults, ValuedMatch, charge, pay, punish, set_stage};

// ---- Measure

// What is still to be loaded: "D = units × T × 1,000 kg" less the dues of the vessels recorded.
#[tactic(auto, unfolding(book::specs::Settlement::weight_due))]
fn still_due(book: &Book, m: &ValuedMatch) -> u64
    requires { Due book.now m.now }
    ensures left { result ≡ weight_due book.now m.now.row - m.now.row.loaded }
    ensures few { result ≤ most_due }
{
    m.row.units as u64 * book.tonnes * 1_000 - m.row.loaded
}

// The dues do not yet "add up to D" with this vessel's.
#[tactic(auto, unfolding(book::specs::Settlement::leaves_short))]
fn leaves_short(book: &Book, m: &ValuedMatch, due_weight: u64) -> bool
    requires { Due book.now m.now }
    ensures { result ≡ leaves_short book.now m.now.row due_weight }
{
    due_weight < still_due(book, m)
}

// "32 when the due weight is zero or takes the sum above D, or when the eighth leaves it short"
#[tactic(auto, unfolding(book::specs::Settlement::bad_due))]
fn bad_due(book: &Book, m: &ValuedMatch, due_weight: u64) -> bool
    requires { Due book.now m.now }
    ensures { result ≡ bad_due book.now m.now.row due_weight }
{
    due_weight == 0
        || still_due(book, m) < due_weight
        || (m.row.vessels == 7 && leaves_short(book, m, due_weight))
}

// "Each vessel's weight, kilograms over (Job 2) and amount follow the rules as they now stand with its due weight for D": the amount of a vessel and beside it its kilograms over, by the book's heat table, of P the match's price, H its declared heat, the settled weight, and the measured quality.
#[tactic(auto, using(coal::proofs::laws::Bounds::coal_weight_most, crate::proofs::Vessels::small), unfolding(book::specs::Settlement::vessel_amount))]
fn vessel_amount(book: &Book, m: &ValuedMatch, due_weight: u64, sample: &Sample) -> (Amount, u64)
    requires due { Due book.now m.now }
    requires weight_bound { due_weight ≤ most_due }
    ensures amount { result.0 ≡ vessel_amount book.now m.now.row due_weight sample.now.weight sample.now.quality.heat sample.now.moisture sample.now.quality.sulphur sample.now.quality.volatiles sample.now.quality.ash }
    ensures few { result.0 ≤ most_amount }
    ensures over { result.1 ≡ (coal_weight due_weight sample.now.weight sample.now.moisture).over }
{
    let weighed = coal::weight(due_weight, sample.weight, sample.moisture);
    let heat = m.row.heat.unwrap_or(0);
    let price = coal::price(
        &book.heats,
        m.row.price as u64,
        heat as u64,
        &sample.quality,
    );
    let amount = Amount {
        fen: coal::amount(price, weighed.settled),
    };
    (amount, weighed.over)
}

// "buyer gets V back and pays B; seller gets 80% of B, down; the rest is held; stage held."
#[tactic(auto, unfolding(book::specs::Settlement::measured, book::specs::Tables::pay))]
fn measured(book: &mut Book, m: &ValuedMatch, amount: Amount)
    requires { Due book.old m.now }
    ensures { book.new ≡ measured book.old m.now.number m.now.row amount }
{
    let Match { buyer, seller, .. } = m.row;
    let first = amount.percent_down(Percent { value: 80 });
    pay(book, buyer, m.value);
    charge(book, buyer, amount);
    pay(book, seller, first);
    set_stage(book, m.number, amount.fen - first.fen, Stage::Held);
}

// A vessel of a match, with its amount: "The match stays prepaid until the dues add up to D; then B, the sum, is paid as before."
#[tactic(auto, unfolding(book::specs::Settlement::loaded))]
fn loaded(book: &mut Book, m: &ValuedMatch, due_weight: u64, amount: Amount)
    requires due { Due book.old m.now }
    requires dues_bound { m.now.row.loaded + due_weight ≤ most_due }
    requires amount_bound { amount ≤ most_amount }
    ensures { book.new ≡ loaded book.old m.now.number m.now.row due_weight amount }
{
    if leaves_short(book, m, due_weight) {
        book.matches[m.number as usize].record_vessel(due_weight, amount);
    } else {
        let sum = Amount {
            fen: m.row.counted + amount.fen,
        };
        measured(book, m, sum);
    }
}

// "14 Measure match, W, Q, M, S, F, A."; "Measure now names the due kilograms of the vessel as well, as its last argument." "W kg 0..40,000,000,000"; "these five 0..10,000"; "Measure (prepaid)"; 32 "comes after 24". It carries the vessel's kilograms over.
#[tactic(auto, unfolding(book::specs::Settlement::measure))]
pub fn measure(
    month: &mut Month,
    number: u64,
    sample: &Sample,
    due_weight: u64,
) -> Result<u64, Refusal>
    ensures { outcome result month.new ≡ measure month.old number sample.now.weight sample.now.quality.heat sample.now.moisture sample.now.quality.sulphur sample.now.quality.volatiles sample.now.quality.ash due_weight }
{
    if !month.book.board {
        return Err(Refusal::OtherKind);
    }
    let m = ValuedMatch::of(month, number)?;
    if m.row.stage != Stage::Prepaid {
        return Err(Refusal::WrongStage);
    }
    if 40_000_000_000 < sample.weight
        || 10_000 < sample.quality.heat
        || 10_000 < sample.moisture
        || 10_000 < sample.quality.sulphur
        || 10_000 < sample.quality.volatiles
        || 10_000 < sample.quality.ash
    {
        return Err(Refusal::MeasuredOutOfRange);
    }
    if bad_due(&month.book, &m, due_weight) {
        return Err(Refusal::BadDueWeight);
    }
    let (amount, over) = vessel_amount(&month.book, &m, due_weight, sample);
    loaded(&mut month.book, &m, due_weight, amount);
    Ok(over)
}

// ---- Terminate

// "party (0 buyer, 1 seller, 2 both)": each with its number.
#[derive(Clone, Copy, PartialEq, Eq)]
enum Party {
    Buyer = 0,
    Seller = 1,
    Both = 2,
}

impl TryFrom<u64> for Party {
    type Error = Refusal;

    ghost use Rattle.measuring.specs.Party.{Decodes};

    ghost try_from_gives = { Decodes };

    fn try_from(code: u64) -> Result<Self, Refusal> {
        match code {
            0 => Ok(Party::Buyer),
            1 => Ok(Party::Seller),
            2 => Ok(Party::Both),
            _ => Err(Refusal::OutsideSet),
        }
    }
}

// "buyer gets V back; party or parties at fault pay R% of V as above; ended.": whoever is named is at fault, fit or not.
#[tactic(auto, unfolding(book::specs::Settlement::terminated, book::specs::Settlement::value, book::specs::Tables::pay))]
fn terminated(book: &mut Book, m: &ValuedMatch, party: Party)
    requires { Due book.old m.now }
    ensures { book.new ≡ terminated book.old m.now.number m.now.row (party_number party) }
{
    let rate = Percent { value: book.rate };
    let faults = Faults {
        buyer: (party != Party::Seller).then_some(rate),
        seller: (party != Party::Buyer).then_some(rate),
    };
    pay(book, m.row.buyer, m.value);
    punish(book, m, faults);
    set_stage(book, m.number, 0, Stage::Ended);
}

// "16 Terminate match, party (0 buyer, 1 seller, 2 both)." "Terminate (prepaid)"
#[tactic(auto, unfolding(book::specs::Settlement::terminate))]
pub fn terminate(month: &mut Month, number: u64, party: u64) -> Result<u64, Refusal>
    ensures { outcome result month.new ≡ terminate month.old number party }
{
    if !month.book.board {
        return Err(Refusal::OtherKind);
    }
    let party = Party::try_from(party)?;
    let m = ValuedMatch::of(month, number)?;
    if m.row.stage != Stage::Prepaid {
        return Err(Refusal::WrongStage);
    }
    terminated(&mut month.book, &m, party);
    Ok(0)
}
