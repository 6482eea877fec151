// A receipt: one unit of goods in a warehouse.
ghost use Rattle.std.specs.Prelude.{◌≡◌, eqb};
ghost use Rattle.book.specs.Rows.{is_frozen, is_frozen_for, is_ordinary_for, is_free_of, frozen_for, released, passed};
ghost use Rattle.book.specs.Receipts.{lodged_receipt};

// "state (0 free, 1 frozen for a match, 2 struck, keeping its last owner)"
#[derive(Clone, Copy, PartialEq, Eq)]
pub enum ReceiptState {
    Free,
    Frozen(u8),
    Struck,
}

impl ReceiptState {
    // Frozen, for whichever match.
    pub fn is_frozen(self) -> bool
        ensures { result ≡ is_frozen self }
    {
        matches!(self, ReceiptState::Frozen(_))
    }
}

// A receipt: its owner's number, its class, its state.
#[derive(Clone, Copy, PartialEq, Eq)]
pub struct Receipt {
    pub owner: u8,
    pub bonded: bool,
    pub state: ReceiptState,
}

impl Receipt {
    // "owner, class (0 ordinary, 1 bonded), state (0 free, ..)": a receipt as it is lodged.
    pub fn new(owner: u8, bonded: bool) -> Receipt
        ensures { result ≡ lodged_receipt owner bonded }
    {
        Receipt {
            owner,
            bonded,
            state: ReceiptState::Free,
        }
    }

    // Whether it is this owner's.
    pub fn is_owned_by(&self, owner: u64) -> bool
        ensures { result ≡ eqb self.now.owner owner }
    {
        self.owner as u64 == owner
    }

    // Whether it is frozen for this match.
    pub fn is_frozen_for(&self, number: u64) -> bool
        ensures { result ≡ is_frozen_for number self.now.state }
    {
        matches!(self.state, ReceiptState::Frozen(j) if j as u64 == number)
    }

    // Whether it is frozen for this match and ordinary.
    pub fn is_ordinary_for(&self, number: u64) -> bool
        ensures { result ≡ is_ordinary_for number self.now }
    {
        self.is_frozen_for(number) && !self.bonded
    }

    // Whether it is free, this owner's and of the class meant: bonded, or either.
    pub fn is_free_of(&self, bonded: bool, owner: u64) -> bool
        ensures { result ≡ is_free_of bonded owner self.now }
    {
        self.state == ReceiptState::Free && self.is_owned_by(owner) && (!bonded || self.bonded)
    }

    // "frozen for a match"
    pub fn freeze(&mut self, number: u8)
        ensures { self.new ≡ frozen_for number self.old }
    {
        self.state = ReceiptState::Frozen(number);
    }

    // Free again, where it is frozen for this match.
    pub fn release(&mut self, number: u64)
        ensures { self.new ≡ released number self.old }
    {
        if self.is_frozen_for(number) {
            self.state = ReceiptState::Free;
        }
    }

    // Free and another's, where it is frozen for this match. One of it and `release` would take an Option of the taker, only to take it apart.
    pub fn pass(&mut self, number: u64, taker: u8)
        ensures { self.new ≡ passed number taker self.old }
    {
        if self.is_frozen_for(number) {
            self.owner = taker;
            self.state = ReceiptState::Free;
        }
    }
}
