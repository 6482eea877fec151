// Close after its first pass: the accounts that remain, the plan of fewer pairs, and which passes stand.
ghost use Rattle.std.specs.Prelude.{◌≡◌, ◌≤◌, ◌<◌, ◌+◌, ◌-◌, ◌++◌, max, eqb, map, length};
ghost use Rattle.std.specs.List.{filter};
ghost use Rattle.arrayvec.specs.ArrayVec.{array_vec_len};
ghost use Rattle.coal.specs.Choice.{pick};
ghost use Rattle.book.specs.Counting.{All};
ghost use Rattle.book.specs.Rows.{any_class};
ghost use Rattle.book.specs.Masks.{members, mask_count};
ghost use Rattle.book.specs.Closing.{with_units, buyers, sellers, pair_all, old_passes, remaining, tests, walk_of, plan, later_passes, pairs, gap};
ghost use Rattle.book.proofs.laws.Sound.{Core};
ghost use Rattle.closing.specs.Asked.{Ready, Ends, is_on_side, units_on};

use crate::{List, Pairs, old_pairs, on_side, pair_all, walk};
use arrayvec::ArrayVec;
use book::{Book, Carried, Listed, Side, in_use};

// ---- the plan

// "accounts remain": those with units left, by number.
fn remaining(book: &Book) -> ArrayVec<u8, { Book::ACCOUNTS }>
    requires { Ready book.now }
    ensures { result.items ≡ remaining book.now }
{
    let accounts = in_use(&book.accounts, book.account_count);
    let mut list = ArrayVec::new();
    for (k, account) in accounts.iter().enumerate() {
        if 0 < account.units {
            list.push(k as u8);
        }
    }
    list
}

// The units that each of a list of accounts has on a side.
fn units_on(book: &Book, accounts: &[u8], side: Side) -> ArrayVec<u16, 10>
    requires few { length accounts.now ≤ 10 }
    requires there { All (λ k. k < 32) accounts.now }
    ensures { result.items ≡ map (units_on book.now side) accounts.now }
{
    let mut list = ArrayVec::new();
    for k in accounts {
        let account = &book.accounts[*k as usize];
        list.push(if account.side == side {
            account.units
        } else {
            0
        });
    }
    list
}

// Those of a group that are on a side, by number, with their units.
fn group(book: &Book, accounts: &[u8], mask: u16, side: Side) -> List
    requires few { length accounts.now ≤ 10 }
    requires there { All (λ k. k < 32) accounts.now }
    ensures { result.items ≡ map (with_units book.now) (filter (is_on_side book.now side) (members accounts.now mask)) }
{
    let mut list = List::new();
    for (place, k) in accounts.iter().enumerate() {
        let account = &book.accounts[*k as usize];
        if masks::holds(mask, place) && account.side == side {
            list.push(Listed {
                account: *k,
                left: account.units,
                day: 0,
            });
        }
    }
    list
}

// A walk of a group, "as in the third pass".
#[tactic(auto, unfolding(book::specs::Closing::walk_of))]
fn walk_group(pairs: &mut Pairs, book: &Book, accounts: &[u8], mask: u16)
    requires few { length accounts.now ≤ 10 }
    requires there { All (λ k. k < 32) accounts.now }
    requires room { array_vec_len pairs.old + length (walk_of book.now (members accounts.now mask)) ≤ 32 }
    ensures { pairs.new.items ≡ pairs.old.items ++ walk_of book.now (members accounts.now mask) }
{
    let buyers = group(book, accounts, mask, Side::Long);
    let sellers = group(book, accounts, mask, Side::Short);
    walk(pairs, &buyers, &sellers);
}

// Pairs after the first pass, and the tests made for them.
#[derive(Drop)]
struct Later {
    pairs: Pairs,
    tests: u16,
}

// "Walk each as in the third pass, then the rest."
fn plan(book: &Book, accounts: &[u8], budget: u64) -> Later
    requires core { Core book.now }
    requires accounts { accounts.now ≡ remaining book.now }
    requires few { length accounts.now ≤ 10 }
    ensures pairs { result.pairs.items ≡ plan book.now budget }
    ensures tests { result.tests ≡ tests book.now budget }
{
    let longs = units_on(book, accounts, Side::Long);
    let shorts = units_on(book, accounts, Side::Short);
    let groups = masks::choose_groups(&longs, &shorts, budget);
    let mut pairs = Pairs::new();
    for mask in groups.chosen.masks() {
        walk_group(&mut pairs, book, accounts, *mask);
    }
    // "the count of ones gives a group's size": fewer than two accounts make no pair.
    if 1 < groups.rest.count_ones() {
        walk_group(&mut pairs, book, accounts, groups.rest);
    }
    Later {
        pairs,
        tests: groups.tests,
    }
}

// ---- what stands

// "If that doesn't make fewer pairs than the old passes, or more than ten accounts remain, the old passes stand."
fn standing(book: &Book, accounts: &[u8], budget: u64) -> Later
    requires core { Core book.now }
    requires accounts { accounts.now ≡ remaining book.now }
    requires made { (old_passes book.now).match_count ≤ book.now.match_count + 32 }
    ensures pairs { pair_all any_class result.pairs.items book.now ≡ later_passes book.now budget }
    ensures there { All Ends result.pairs.items }
    ensures tests { result.tests ≡ tests book.now budget }
{
    let pairs = old_pairs(book);
    if 10 < accounts.len() {
        return Later { pairs, tests: 0 };
    }
    let plan = plan(book, accounts, budget);
    if plan.pairs.len() < pairs.len() {
        return plan;
    }
    Later {
        pairs,
        tests: plan.tests,
    }
}

// "the larger of buyers and sellers remaining"
fn larger_side(book: &Book) -> usize
    requires { Ready book.now }
    ensures { result ≡ max (length (buyers book.now)) (length (sellers book.now)) }
{
    let accounts = in_use(&book.accounts, book.account_count);
    let buyers = on_side(accounts, Side::Long).len();
    let sellers = on_side(accounts, Side::Short).len();
    buyers.max(sellers)
}

// "The gap is zero if every mask was tested, else pairs less the larger of buyers and sellers", of so many accounts that remain.
fn gap(pairs: usize, tests: u16, count: usize, larger: usize) -> usize
    requires { count ≤ 32 }
    ensures { result ≡ pick (eqb tests (mask_count count)) 0 (pairs - larger) }
{
    let last_mask = (1 << count) - 1;
    if tests as u64 == last_mask {
        return 0;
    }
    pairs.saturating_sub(larger)
}

// Close after its first pass: "Close carries pairs made, tests made and a gap".
pub fn later_passes(book: &mut Book, budget: u64) -> Carried
    requires core { Core book.old }
    requires made { (old_passes book.old).match_count ≤ book.old.match_count + 32 }
    requires match_count_bound { (old_passes book.old).match_count ≤ 256 }
    ensures book { book.new ≡ later_passes book.old budget }
    ensures carried { result ≡ Carried.Closed (pairs book.old budget) (tests book.old budget) (gap book.old budget) }
{
    let accounts = remaining(book);
    let larger = larger_side(book);
    let stands = standing(book, &accounts, budget);
    let pairs = stands.pairs.len();
    let gap = gap(pairs, stands.tests, accounts.len(), larger);
    pair_all(book, false, &stands.pairs);
    Carried::Closed {
        pairs: pairs as u16,
        tests: stands.tests,
        gap: gap as u16,
    }
}
