// Why a call, a line, a buffer or a heat table is refused.
ghost use Rattle.std.specs.Prelude.{◌≡◌, ◌≤◌, ◌<◌, eqb, IfOk, IfErr};
ghost use Rattle.book.specs.Codes.{refusal_number};

// "A refusal is one number": the number of each is its discriminant.
#[derive(Clone, Copy, PartialEq, Eq)]
pub enum Refusal {
    // "1 opening value or Day's price out of range"
    OutOfRange = 1,
    // "2 Day at day 1,000"
    LastDay = 2,
    // "3 Join with 32 accounts"
    AccountsFull = 3,
    // "4 Lodge or Strike in a board book; Declare, Measure or Terminate in a receipts book"
    OtherKind = 4,
    // "5 Trade, Offer, Retract, Take or Close after Close"
    MarketShut = 5,
    // "6 no such account"
    NoAccount = 6,
    // "7 buyer is seller"
    BuyerIsSeller = 7,
    // "8 a code outside its set, amount outside 1..10^15, units outside 1..1,000, Declare's heat out of range"; "Proceeds outside 0..10^15 are refused as 8"
    OutsideSet = 8,
    // "9 buyer is short or seller long in Trade"
    OtherSide = 9,
    // "10 a position would pass 1,000"
    PositionFull = 10,
    // "11 Withdraw above cash"
    AboveCash = 11,
    // "12 Offer while one stands"
    OfferStands = 12,
    // "13 Retract or Take without an offer"
    NoOffer = 13,
    // "14 offer above short units, or Take above long units"
    AboveUnits = 14,
    // "15 Offer or Take, receipts book, above the seller's free receipts"
    AboveReceipts = 15,
    // "16 Lodge with 256 lodged"
    ReceiptsFull = 16,
    // "17 no such receipt of that owner, or struck"
    NoReceipt = 17,
    // "18 it is frozen"
    ReceiptFrozen = 18,
    // "19 Offer, board book, heat missing"
    HeatMissing = 19,
    // "20 Take with 64 matches"
    TakesFull = 20,
    // "21 no such match"
    NoMatch = 21,
    // "22 wrong stage"
    WrongStage = 22,
    // "23 Settle before the due day"
    BeforeDueDay = 23,
    // "24 measured value out of range"
    MeasuredOutOfRange = 24,
    // "25 deposits accepted would pass 10^17"
    DepositsFull = 25,
    // "26 a line not of the form, or input above 65,536 bytes"
    BadLine = 26,
    // "27 when the buffer is too short for the page"
    BufferShort = 27,
    // "28 when a trade would need a fifth opening day"
    FifthDay = 28,
    // "the winner is overseas and proceeds are above zero"
    OverseasWinner = 29,
    // "proceeds are above zero and its cash is below them"
    AboveWinnersCash = 30,
    // "31 when the count, the length or an entry breaks these rules": a heat table
    BadTable = 31,
    // "32 when the due weight is zero or takes the sum above D, or when the eighth leaves it short": of a vessel
    BadDueWeight = 32,
}

impl Refusal {
    // The paper's number.
    pub fn number(self) -> u64
        ensures { result ≡ refusal_number self }
    {
        self as u64
    }
}

// A code of a set of two, 0 and 1: whether it is 1.
pub fn flag(code: u64, refusal: Refusal) -> Result<bool, Refusal>
    ensures inside { IfOk result (λ t. (t ≡ eqb code 1) × (code ≤ 1)) }
    ensures outside { IfErr result (λ e. (e ≡ refusal) × (1 < code)) }
{
    match code {
        0 => Ok(false),
        1 => Ok(true),
        _ => Err(refusal),
    }
}
