// What opens a book, and the calls that change it.
use coal::Sample;

// "Line one is `0 kind T R price`": what a book is opened with; the opening tests the numbers.
#[derive(Clone, Copy)]
pub struct Opening {
    pub kind: u64,
    pub tonnes: u64,
    pub rate: u64,
    pub price: u64,
}

// The eighteen calls, in the order of their numbers. Codes are numbers: a line may name one outside its set, which the call refuses (8).
#[derive(Clone, Copy)]
pub enum Call {
    Join {
        residence: u64,
        fitness: u64,
    },
    Deposit {
        account: u64,
        amount: u64,
    },
    Withdraw {
        account: u64,
        amount: u64,
    },
    Trade {
        buyer: u64,
        seller: u64,
        units: u64,
    },
    Lodge {
        owner: u64,
        class: u64,
    },
    Strike {
        owner: u64,
        receipt: u64,
    },
    Declare {
        account: u64,
        heat: u64,
    },
    Offer {
        seller: u64,
        units: u64,
    },
    Retract {
        seller: u64,
    },
    Take {
        buyer: u64,
        seller: u64,
    },
    Day {
        price: u64,
    },
    Close {
        budget: u64,
    },
    Pay {
        number: u64,
    },
    Measure {
        number: u64,
        sample: Sample,
        due_weight: u64,
    },
    Invoice {
        number: u64,
    },
    Terminate {
        number: u64,
        party: u64,
    },
    HandOver {
        number: u64,
    },
    Auction {
        number: u64,
        winner: u64,
        proceeds: u64,
    },
}

// What an accepted call carries: "carries 0 unless said"; "Close carries pairs made, tests made and a gap".
#[derive(Clone, Copy)]
pub enum Carried {
    Number(u64),
    Closed { pairs: u16, tests: u16, gap: u16 },
}
