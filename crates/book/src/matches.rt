// A match: units of a buyer and a seller, and how far it is settled.
ghost use Rattle.std.specs.Prelude.{◌≡◌, ◌≤◌, ◌+◌};
ghost use Rattle.coal.specs.Ranges.{most_due};
ghost use Rattle.book.specs.Rows.{with_held, with_vessel};
ghost use Rattle.book.specs.Types.{Stage};

use crate::amounts::Amount;

// "a stage: 0 paired, 1 prepaid, 2 held, 3 closed, 4 ended"; "the new stage 5, funded"; "stage 6, awaiting auction": each with its number.
#[derive(Clone, Copy, PartialEq, Eq)]
pub enum Stage {
    Paired = 0,
    Prepaid = 1,
    Held = 2,
    Closed = 3,
    Ended = 4,
    Funded = 5,
    Awaiting = 6,
}

// A match: the numbers of its parties, price in fen a tonne of its day, due day, the seller's declared heat at pairing, fen held; and of the vessels recorded the due kilograms, added up, the amounts in fen, added up, and how many they are: `loaded`, `counted`, `vessels`.
#[derive(Clone, Copy)]
pub struct Match {
    pub held: u64,
    pub loaded: u64,
    pub counted: u64,
    pub price: u32,
    pub units: u16,
    pub due: u16,
    pub heat: Option<u16>,
    pub buyer: u8,
    pub seller: u8,
    pub stage: Stage,
    pub vessels: u8,
}

impl Match {
    // "buyer, seller, units, price of its day, due day, seller's declared heat at pairing or missing": a match as it is made, paired, with no money held and no vessel recorded.
    pub fn new(buyer: u8, seller: u8, units: u16, price: u32, due: u16, heat: Option<u16>) -> Match
        ensures { result ≡ record { held = 0; loaded = 0; counted = 0; price = price; units = units; due = due; heat = heat; buyer = buyer; seller = seller; stage = Stage.Paired; vessels = 0 } }
    {
        Match {
            held: 0,
            loaded: 0,
            counted: 0,
            price,
            units,
            due,
            heat,
            buyer,
            seller,
            stage: Stage::Paired,
            vessels: 0,
        }
    }

    // So much money held, and a stage, with no vessel recorded.
    pub fn hold(&mut self, held: u64, stage: Stage)
        ensures { self.new ≡ with_held self.old held stage }
    {
        self.held = held;
        self.loaded = 0;
        self.counted = 0;
        self.vessels = 0;
        self.stage = stage;
    }

    // A vessel is recorded, with its due kilograms and its amount.
    pub fn record_vessel(&mut self, due_weight: u64, amount: Amount)
        requires dues_bound { self.old.loaded + due_weight ≤ most_due }
        requires amounts_bound { self.old.counted ≤ 1_000_000_000_000_000 }
        requires vessels_bound { self.old.vessels ≤ 7 }
        ensures { self.new ≡ with_vessel self.old due_weight amount }
    {
        self.loaded += due_weight;
        self.counted += amount.fen;
        self.vessels += 1;
    }
}
