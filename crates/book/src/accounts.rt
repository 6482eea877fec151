// An account: its cash, its position with the lots that it was opened in, its declared heat and its standing offer.
ghost use Rattle.std.specs.Prelude.{◌≡◌, ◌≤◌, ◌+◌, ◌-◌, ltb, nat_abs, pos};
ghost use Rattle.std.specs.Int.Signed.{lt_z};
ghost use Rattle.coal.specs.Choice.{pick};
ghost use Rattle.book.specs.Rows.{is_on, needs_fifth, lots_on, lot_off, lots_off, credited, debited, units_on, units_off};
ghost use Rattle.book.specs.Accounts.{joined_account};

use crate::amounts::Amount;

// "a side (0 none, 1 long, 2 short)": each with its number.
#[derive(Clone, Copy, PartialEq, Eq)]
pub enum Side {
    Flat = 0,
    Long = 1,
    Short = 2,
}

// A lot of a position: an opening day with its units.
#[derive(Clone, Copy, PartialEq, Eq)]
pub struct Lot {
    pub day: u16,
    pub units: u16,
}

impl Lot {
    // A free place.
    pub const FREE: Lot = Lot { day: 0, units: 0 };

    // So many units less, none where there are fewer.
    fn use_up(&mut self, units: u64)
        ensures { self.new ≡ lot_off self.old units }
    {
        self.units = (self.units as u64).saturating_sub(units) as u16;
    }
}

// "up to four opening days with the units of each", in rising order of days; a place with 0 units is free, and no Option: it adds and uses up like any other. No ArrayVec, which is not Copy, as `[v; 32]` asks of a row.
#[derive(Clone, Copy, PartialEq, Eq)]
pub struct Lots {
    pub oldest: Lot,
    pub second: Lot,
    pub third: Lot,
    pub newest: Lot,
}

impl Lots {
    // No lot.
    pub const NONE: Lots = Lots {
        oldest: Lot::FREE,
        second: Lot::FREE,
        third: Lot::FREE,
        newest: Lot::FREE,
    };

    // "a trade would need a fifth opening day": the newest lot is of another day, and the oldest place is not free.
    fn needs_fifth(&self, day: u64) -> bool
        ensures { result ≡ needs_fifth self.now day }
    {
        self.newest.day as u64 != day && 0 < self.oldest.units
    }

    // So many units opened on a day: in the newest lot on its own day, else in a new one, for which the free place of the oldest goes.
    fn add(&mut self, units: u16, day: u16)
        requires { self.old.newest.units + units ≤ 1_000 }
        ensures { self.new ≡ lots_on self.old units day }
    {
        if self.newest.day == day {
            self.newest.units += units;
            return;
        }
        self.oldest = self.second;
        self.second = self.third;
        self.third = self.newest;
        self.newest = Lot { day, units };
    }

    // "use up the oldest first": so many units less, of which each lot gives what the older ones did not. Four calls, since the places have names, as in the definitions: a loop over `[Lot; 4]` that carries what is left is as long.
    fn use_up(&mut self, units: u64)
        ensures { self.new ≡ lots_off self.old units }
    {
        let beyond_oldest = units.saturating_sub(self.oldest.units as u64);
        let beyond_second = beyond_oldest.saturating_sub(self.second.units as u64);
        let beyond_third = beyond_second.saturating_sub(self.third.units as u64);
        self.oldest.use_up(units);
        self.second.use_up(beyond_oldest);
        self.third.use_up(beyond_second);
        self.newest.use_up(beyond_third);
    }
}

// Side beside units, as the papers have it: units inside the side would be a match at each sum.
// An account: cash in fen, units on its side, the lots that they were opened in, "declared heat or missing", "offered units or missing".
#[derive(Clone, Copy)]
pub struct Account {
    pub cash: i64,
    pub units: u16,
    pub lots: Lots,
    pub heat: Option<u16>,
    pub offer: Option<u16>,
    pub side: Side,
    pub overseas: bool,
    pub fit: bool,
}

impl Account {
    // "It joins with cash 0, side none, .. and both missing", and with no lot.
    pub fn new(overseas: bool, fit: bool) -> Account
        ensures { result ≡ joined_account overseas fit }
    {
        Account {
            cash: 0,
            units: 0,
            lots: Lots::NONE,
            heat: None,
            offer: None,
            side: Side::Flat,
            overseas,
            fit,
        }
    }

    // "cash up by it"; `small` is for callers that read no field of the amount.
    pub fn credit(&mut self, amount: Amount)
        requires { nat_abs self.old.cash ≤ 2_000_000_000_000_000_000 }
        ensures credited { self.new ≡ credited self.old amount }
        ensures small { amount ≤ 1_000_000_000_000_000 }
    {
        self.cash += amount.fen as i64;
    }

    // "cash down by it". It and `credit` are a line each: one of both is no shorter.
    pub fn debit(&mut self, amount: Amount)
        requires { nat_abs self.old.cash ≤ 2_000_000_000_000_000_000 }
        ensures debited { self.new ≡ debited self.old amount }
        ensures small { amount ≤ 1_000_000_000_000_000 }
    {
        self.cash -= amount.fen as i64;
    }

    // "cash below V": whether the account has less than an amount.
    pub fn has_below(&self, amount: u64) -> bool
        requires { amount ≤ 1_000_000_000_000_000_000 }
        ensures { result ≡ lt_z self.now.cash (pos amount) }
    {
        self.cash < amount as i64
    }

    // The units on a side: 0 where the account is on another.
    pub fn units_of(&self, side: Side) -> u64
        ensures { result ≡ pick (is_on side self.now.side) self.now.units 0 }
    {
        if self.side == side {
            self.units as u64
        } else {
            0
        }
    }

    // "a position would pass 1,000": whether so many units more are too many.
    pub fn would_pass(&self, units: u64) -> bool
        requires { units ≤ 1_000 }
        ensures { result ≡ ltb 1_000 (self.now.units + units) }
    {
        1_000 < self.units as u64 + units
    }

    // "a trade would need a fifth opening day"
    pub fn needs_fifth(&self, day: u64) -> bool
        ensures { result ≡ needs_fifth self.now.lots day }
    {
        self.lots.needs_fifth(day)
    }

    // So many units more on a side, opened on a day.
    pub fn add_units(&mut self, side: Side, units: u64, day: u64)
        requires units_bound { self.old.units + units ≤ 1_000 }
        requires units_le_units { self.old.lots.newest.units ≤ self.old.units }
        requires day_bound { day ≤ 1_000 }
        ensures { self.new ≡ units_on self.old side units day }
    {
        self.side = side;
        self.units += units as u16;
        self.lots.add(units as u16, day as u16);
    }

    // So many units less, none where there are fewer; "a side at 0 units becomes none".
    pub fn use_up(&mut self, units: u64)
        ensures { self.new ≡ units_off self.old units }
    {
        self.lots.use_up(units);
        self.units = (self.units as u64).saturating_sub(units) as u16;
        if self.units == 0 {
            self.side = Side::Flat;
        }
    }
}
