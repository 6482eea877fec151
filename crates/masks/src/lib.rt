// Close's groups: masks of the accounts that the first pass leaves, tested for equal long and short units, and the choice among them.
#![tactic(auto)]

ghost use Rattle.std.specs.Prelude.{◌≡◌, ◌≤◌, ◌<◌, ◌^◌, ◌-◌, [], ◌∷◌, length};
ghost use Rattle.book.specs.Counting.{All};
ghost use Rattle.book.specs.Masks.{members, holds, added, is_balanced, mask_count, tests_made, balanced_masks, longer, choose, united, rest};
ghost use Rattle.masks.specs.Asked.{Sided, Before, IsGroup, HasRoom, Adds};

use arrayvec::ArrayVec;
use std::marker::Model;

// ---- masks

// Whether a mask names the account at a place.
pub fn holds(mask: u16, place: usize) -> bool
    requires { place < 16 }
    ensures { result ≡ holds mask place }
{
    (mask >> place) & 1 == 1
}

// "accounts are numbered into a mask, one bit each": so many have so many masks, from 1 up, and the last names all of them.
fn mask_count(count: usize) -> u16
    requires { count ≤ 10 }
    ensures { result ≡ mask_count count }
{
    (1 << count) - 1
}

// Of each of a list of units those before it, added up.
fn sums_before(units: &[u16]) -> ArrayVec<u32, 10>
    requires { length units.now ≤ 10 }
    ensures { Before units.now (length units.now) result.items }
{
    let mut sums = ArrayVec::new();
    let mut sum = 0;
    for units in units {
        sums.push(sum);
        sum += u32::from(*units);
    }
    sums
}

// The units of a mask's members, from those of the mask before it: "Trailing zeros give a mask's lowest account"; it comes in, and all below it, which the mask before has, go out.
fn next_sum(sum: u32, units: &[u16], before: &[u32], mask: u16) -> u32
    requires few { length units.now ≤ 10 }
    requires some { 0 < mask }
    requires there { mask < 2 ^ length units.now }
    requires summed { sum ≡ added (members units.now (mask - 1)) }
    requires before { Before units.now (length units.now) before.now }
    ensures { result ≡ added (members units.now mask) }
{
    let lowest = mask.trailing_zeros() as usize;
    sum + u32::from(units[lowest]) - before[lowest]
}

// ---- the tests

// "up to the budget or the last mask": "Tests made is a result equal to the lesser of the budget and the number of masks."
fn tests_made(budget: u64, count: usize) -> u16
    requires { count ≤ 10 }
    ensures { result ≡ tests_made budget count }
{
    budget.min(u64::from(mask_count(count))) as u16
}

// "Masks from 1 up are tested in rising order for equal long and short units": those that are balanced.
#[tactic(auto, using(crate::proofs::Testing::masks_few))]
fn balanced_masks(longs: &[u16], shorts: &[u16], tests: u16) -> ArrayVec<u16, 1023>
    requires few { length longs.now ≤ 10 }
    requires same { length shorts.now ≡ length longs.now }
    requires there { tests < 2 ^ length longs.now }
    ensures { result.items ≡ balanced_masks longs.now shorts.now tests }
{
    let mut masks = ArrayVec::new();
    let (before_longs, before_shorts) = (sums_before(longs), sums_before(shorts));
    let (mut long, mut short) = (0, 0);
    for mask in 1..=tests {
        long = next_sum(long, longs, &before_longs, mask);
        short = next_sum(short, shorts, &before_shorts, mask);
        if long == short {
            masks.push(mask);
        }
    }
    masks
}

// ---- the choice

// Masks that are chosen, rising: a clause sees the list. A group has two accounts at least, so they are five at most; they end the array, so that one more goes in front, and none is all zeros.
#[derive(Clone, Copy)]
pub struct Chosen {
    cells: [u16; 5],
    count: u8,
}

impl Model for Chosen {
    ghost use Rattle.std.specs.Prelude.{List, ℕ, ◌≡◌, ◌-◌, ◌≤◌, ◌++◌, length, take, drop, replicate};
    ghost use Rattle.masks.specs.Cells.{count_back, cells_back};

    ghost Value = { List ℕ };

    ghost view = { λ c. drop (5 - c.count) c.cells };

    ghost invariant = { λ c. (length c.cells ≡ 5) × (c.count ≤ 5) × (take (5 - c.count) c.cells ≡ replicate (5 - c.count) 0) };

    ghost inverse = { λ l. record { cells = replicate (5 - length l) 0 ++ l; count = length l } };

    ghost inverse_ok = { λ c h i. record {
      cells = cells_back c.cells c.count h.0 h.1 h.2 i;
      count = count_back c.cells c.count h.0 h.1 i;
    } };
}

impl Chosen {
    // No mask.
    fn new() -> Chosen
        ensures { result ≡ [] }
    {
        Chosen {
            cells: [0; 5],
            count: 0,
        }
    }

    // The masks, in the order in which they are walked.
    pub fn masks(&self) -> &[u16]
        ensures { result.now ≡ self.now }
    {
        &self.cells[5 - self.count as usize..]
    }

    // These, behind one more.
    fn put_in_front(&mut self, mask: u16)
        requires { length self.old < 5 }
        ensures { self.new ≡ mask ∷ self.old }
    {
        self.count += 1;
        self.cells[5 - self.count as usize] = mask;
    }

    // The longer list, of a mask in front of others and of this one, and on a tie the mask with the others: written where it stands, and nothing where this one stays.
    fn take_longer(&mut self, mask: u16, others: Chosen)
        requires { length others < 5 }
        ensures { self.new ≡ longer (mask ∷ others) self.old }
    {
        if others.count + 1 < self.count {
            return;
        }
        *self = others;
        self.put_in_front(mask);
    }
}

// One mask more, below all in the table, which has a list by each set of so many accounts that may be taken: it goes in front where that list is then no shorter. Only sets that it does not meet are gone through, from the greatest down, and in place: the two lists that are read are still without it.
#[tactic(auto, using(crate::proofs::Tabling::both_there))]
fn add_mask(table: &mut [Chosen; 1024], mask: u16, count: usize)
    requires few { count ≤ 10 }
    requires group { IsGroup count mask }
    requires room { HasRoom count table.old }
    ensures { Adds count mask table.old table.new }
{
    let others = !mask & mask_count(count);
    let mut used = others;
    loop {
        let behind = table[(mask | used) as usize];
        table[used as usize].take_longer(mask, behind);
        if used == 0 {
            return;
        }
        used = (used - 1) & others;
    }
}

// "Of the tested balanced masks choose as many disjoint ones as can be; on a tie the list of masks, each list rising, that comes first number by number": the masks go
// into a table from the last to the first, and it has the choice among those so far by each set of accounts that may be taken.
fn choose(masks: &[u16], count: usize) -> Chosen
    requires few { count ≤ 10 }
    requires groups { All (IsGroup count) masks.now }
    ensures { result ≡ choose masks.now 0 }
{
    if masks.is_empty() {
        return Chosen::new();
    }
    let mut table = [Chosen::new(); 1024];
    for mask in masks.iter().rev() {
        add_mask(&mut table, *mask, count);
    }
    table[0]
}

// The groups that are chosen after so many tests; after none there is no list to be made.
fn tested_choice(longs: &[u16], shorts: &[u16], tests: u16) -> Chosen
    requires few { length longs.now ≤ 10 }
    requires same { length shorts.now ≡ length longs.now }
    requires there { tests < 2 ^ length longs.now }
    requires sided { Sided longs.now shorts.now }
    ensures { result ≡ choose (balanced_masks longs.now shorts.now tests) 0 }
{
    if tests == 0 {
        return Chosen::new();
    }
    let masks = balanced_masks(longs, shorts, tests);
    choose(&masks, longs.len())
}

// ---- the rest

// The accounts of all masks of a list.
fn united(masks: &[u16]) -> u16
    ensures { result ≡ united masks.now }
{
    masks.iter().fold(0, |used, mask| used | mask)
}

// "then the rest": of so many accounts those that no mask of a list names.
#[tactic(auto, using(crate::proofs::Uniting::others))]
fn rest(masks: &[u16], count: usize) -> u16
    requires few { count ≤ 10 }
    requires there { united masks.now < 2 ^ count }
    ensures { result ≡ rest count masks.now }
{
    !united(masks) & mask_count(count)
}

// ---- groups

// The groups to be walked, one mask after the other and then the rest; and the tests made.
#[derive(Clone, Copy)]
pub struct Groups {
    pub chosen: Chosen,
    pub rest: u16,
    pub tests: u16,
}

// The groups of at most ten accounts, each with units on one side: its long and its short units stand at the place of its bit, "lowest account lowest bit".
pub fn choose_groups(longs: &[u16], shorts: &[u16], budget: u64) -> Groups
    requires few { length longs.now ≤ 10 }
    requires same { length shorts.now ≡ length longs.now }
    requires sided { Sided longs.now shorts.now }
    ensures tests { result.tests ≡ tests_made budget (length longs.now) }
    ensures chosen { result.chosen ≡ choose (balanced_masks longs.now shorts.now (tests_made budget (length longs.now))) 0 }
    ensures rest { result.rest ≡ rest (length longs.now) result.chosen }
{
    let tests = tests_made(budget, longs.len());
    let chosen = tested_choice(longs, shorts, tests);
    Groups {
        chosen,
        rest: rest(chosen.masks(), longs.len()),
        tests,
    }
}
