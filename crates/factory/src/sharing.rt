// A day's dispatch. Units go round the holders one at a time: so many rounds are whole, in which each who waits gets a unit, and one more has the units that are left.
ghost use Rattle.std.specs.Prelude.{◌≡◌, ◌≤◌, ◌+◌, map, length};
ghost use Rattle.factory.specs.Day.{holder, dispatched};
ghost use Rattle.factory.specs.Rounds.{above, Waits, AreWhole};

use crate::{Factory, Units};

// Those of some holders who wait after a number of whole rounds: how many they are, and the least that one of them had in the morning.
#[derive(Clone, Copy)]
struct Waiting {
    count: u16,
    least: u16,
}

#[tactic(auto, using(crate::proofs::Counting::none_counted))]
fn count_waiting(holders: &[u16], rounds: u16) -> Waiting
    requires { length holders.now ≤ 32 }
    ensures { Waits rounds holders.now result.count result.least }
{
    let mut waiting = Waiting {
        count: 0,
        least: u16::MAX,
    };
    for had in holders {
        if rounds < *had {
            waiting.count += 1;
            waiting.least = waiting.least.min(*had);
        }
    }
    waiting
}

// How many rounds of a day are whole, and the units that are left after them.
#[derive(Clone, Copy)]
struct Rounds {
    whole: u16,
    rest: u16,
}

// So many rounds at once that nobody is served before the last of them, and that the units suffice. Each turn serves a holder, or leaves fewer units than wait: there are no more turns than holders (`turns_few` in proofs/Turns).
#[tactic(auto, using(crate::proofs::Counting::more_whole, crate::proofs::Counting::all_whole))]
fn whole_rounds(holders: &[u16], daily: u16) -> Rounds
    requires { length holders.now ≤ 32 }
    ensures { AreWhole daily holders.now result.whole result.rest }
{
    let mut rounds = Rounds {
        whole: 0,
        rest: daily,
    };
    loop {
        let waiting = count_waiting(holders, rounds.whole);
        if rounds.rest < waiting.count || waiting.count == 0 {
            return rounds;
        }
        let more = (waiting.least - rounds.whole).min(rounds.rest / waiting.count);
        rounds.whole += more;
        rounds.rest -= more * waiting.count;
    }
}

// Each holder's share of a day; it is left with what it had less that.
pub fn share_out(holders: &mut [u16], daily: u16) -> Units
    requires { length holders.old ≤ 32 }
    ensures shares { result.items ≡ map (λ h. h.share) (dispatched daily 0 (map holder holders.old)) }
    ensures left { holders.new ≡ map (λ h. h.left) (dispatched daily 0 (map holder holders.old)) }
{
    let Rounds { whole, mut rest } = whole_rounds(holders, daily);
    let mut shares = Units::new();
    for left in holders.iter_mut() {
        let mut share = whole.min(*left);
        if share < *left && 0 < rest {
            share += 1;
            rest -= 1;
        }
        *left -= share;
        shares.push(share);
    }
    shares
}
