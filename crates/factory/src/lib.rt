// A factory's daily dispatch, shared among its holders (document 02, Job 14). It knows nothing of a delivery book.
#![tactic(auto, unfolding(crate::specs::Holders::making, crate::specs::Holders::arrive, crate::specs::Holders::leave, crate::specs::Lists::step))]

ghost use Rattle.std.specs.Prelude.{◌≡◌, ◌<◌, remove};
ghost use Rattle.arrayvec.specs.ArrayVec.{array_vec_len};
ghost use Rattle.factory.specs.Answers.{refusal_number, made, outcome, number_outcome, shared};
ghost use Rattle.factory.specs.Holders.{making, arrive, leave};
ghost use Rattle.factory.specs.Day.{day};
ghost use Rattle.factory.specs.Lists.{step};

mod sharing;

use arrayvec::ArrayVec;
use std::marker::Model;
use std::mem;

// Why a call is refused: the number of each is its discriminant.
#[derive(Clone, Copy, PartialEq, Eq)]
pub enum Refusal {
    // "an empty place is refused as 6"
    NoHolder = 6,
    // "A daily number or claim out of range is refused as 8"
    OutOfRange = 8,
    // "33 when a thirty-third holder arrives"
    HoldersFull = 33,
}

impl Refusal {
    pub fn number(self) -> u64
        ensures { result ≡ refusal_number self }
    {
        self as u64
    }
}

// A number of units for each holder, in order of appointment.
pub type Units = ArrayVec<u16, { Factory::HOLDERS }>;

// "later holders move up": who is at a place leaves, and each behind it takes the place before its own, the last first. Written out, since `remove` of `ArrayVec` would have the archive for C ask for memmove.
fn remove(holders: &mut Units, place: usize)
    requires { place < array_vec_len holders.old }
    ensures { holders.new.items ≡ remove holders.old.items place }
{
    if let Some(mut carried) = holders.pop() {
        for k in (place..holders.len()).rev() {
            carried = mem::replace(&mut holders[k], carried);
        }
    }
}

// The calls on a factory.
#[derive(Clone, Copy)]
pub enum Call {
    Arrive { claim: u64 },
    Leave { place: u64 },
    Day,
}

// What an accepted call carries.
#[derive(Drop)]
pub enum Carried {
    Number(u64),
    Shares(Units),
}

// A factory: the units that it loads a day, and what each of its holders has left to collect. A clause sees both, and each factory was reached from an accepted making by calls.
#[derive(Drop)]
pub struct Factory {
    daily: u16,
    holders: Units,
}

impl Model for Factory {
    ghost use Rattle.factory.specs.Types.{Factory as a_factory};
    ghost use Rattle.factory.specs.Lists.{Reached};

    ghost Value = { a_factory };

    ghost view = { λ f. record { daily = f.daily; holders = f.holders.items } };

    ghost invariant = { λ f. Reached (record { daily = f.daily; holders = f.holders.items }) };
}

impl Factory {
    // "up to 32 holders"
    pub const HOLDERS: usize = 32;

    // "A factory loads a fixed number of units a day, 1 to 1,000"; without holders.
    pub fn new(daily: u64) -> Result<Factory, Refusal>
        ensures { made result ≡ making daily }
    {
        if !(1..=1_000).contains(&daily) {
            return Err(Refusal::OutOfRange);
        }
        Ok(Factory {
            daily: daily as u16,
            holders: Units::new(),
        })
    }

    // A holder arrives, behind the others, "with 0 to 1,000 units to collect".
    pub fn arrive(&mut self, claim: u64) -> Result<u64, Refusal>
        ensures { number_outcome result self.new ≡ arrive self.old claim }
    {
        if 1_000 < claim {
            return Err(Refusal::OutOfRange);
        }
        self.holders
            .try_push(claim as u16)
            .map_err(|_| Refusal::HoldersFull)?;
        Ok(0)
    }

    // "a leaver is named by its place in that order, counted from 0, later holders move up"
    pub fn leave(&mut self, place: u64) -> Result<u64, Refusal>
        ensures { number_outcome result self.new ≡ leave self.old place }
    {
        if self.holders.len() as u64 <= place {
            return Err(Refusal::NoHolder);
        }
        remove(&mut self.holders, place as usize);
        Ok(0)
    }

    // A day: "the result is each holder's share".
    pub fn day(&mut self) -> Units
        ensures { shared result.items self.new ≡ day self.old }
    {
        sharing::share_out(&mut self.holders, self.daily)
    }

    // Any call.
    pub fn apply(&mut self, call: Call) -> Result<Carried, Refusal>
        ensures { outcome result self.new ≡ step self.old call }
    {
        let number = match call {
            Call::Arrive { claim } => self.arrive(claim),
            Call::Leave { place } => self.leave(place),
            Call::Day => return Ok(Carried::Shares(self.day())),
        };
        Ok(Carried::Number(number?))
    }
}
