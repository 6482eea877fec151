// A port's own heat table, loaded from bytes.
#![tactic(auto)]

ghost use Rattle.std.specs.Prelude.{◌≡◌, ◌+◌, ◌≤◌, ◌↔◌, IsTrue, length};
ghost use Rattle.heats.specs.Numerators.{heat_table};
ghost use Rattle.loading.specs.Loading.{number_at, load, loading};

use book::Refusal;
use heats::HeatTable;
use std::marker::Model;

// "Each must be 1..5,400,000,000."
const MOST: u64 = 5_400_000_000;

// The table that a port trades on: the printed one until one of its own is loaded. A clause sees its entries.
#[derive(Drop)]
pub struct PortTable {
    entries: [u64; 1_701],
}

impl Model for PortTable {
    ghost use Rattle.std.specs.Prelude.{List, ℕ};
    ghost use Rattle.heats.specs.HeatTables.{IsHeatTable};

    ghost Value = { List ℕ };

    ghost view = { λ table. table.entries };

    ghost invariant = { λ table. IsHeatTable table.entries };
}

// "8-byte numbers, most significant byte first": the number that starts at a place.
#[tactic(auto, unfolding(crate::specs::Loading::number_at))]
fn number_at(bytes: &[u8], at: usize) -> u64
    requires { at + 8 ≤ length bytes.now }
    ensures { result ≡ number_at bytes.now at }
{
    u64::from_be_bytes([
        bytes[at],
        bytes[at + 1],
        bytes[at + 2],
        bytes[at + 3],
        bytes[at + 4],
        bytes[at + 5],
        bytes[at + 6],
        bytes[at + 7],
    ])
}

// The length and the count keep the rules: 1,702 numbers, the first of them 1,701.
fn has_length_and_count(bytes: &[u8]) -> bool
    ensures { IsTrue result ↔ ((length bytes.now ≡ 13_616) × (number_at bytes.now 0 ≡ 1_701)) }
{
    bytes.len() == 13_616 && number_at(bytes, 0) == 1_701
}

impl PortTable {
    // "Job 9's if none was loaded".
    #[tactic(auto, using(heats::proofs::Rising::printed_table))]
    pub fn printed() -> PortTable
        ensures { result ≡ heat_table }
    {
        PortTable {
            entries: *heats::numerators(),
        }
    }

    // "the count 1,701, then the entries": accepted, or "31 when the count, the length or an entry breaks these rules", and "the former table is retained".
    pub fn load(&mut self, bytes: &[u8]) -> Result<u64, Refusal>
        ensures { loading result self.new ≡ load bytes.now self.old }
    {
        if !has_length_and_count(bytes) {
            return Err(Refusal::BadTable);
        }
        let mut entries = [0; 1_701];
        let mut before = 1;
        for k in 0..1_701 {
            let entry = number_at(bytes, 8 * k + 8);
            if entry < before || MOST < entry {
                return Err(Refusal::BadTable);
            }
            entries[k] = entry;
            before = entry;
        }
        self.entries = entries;
        Ok(0)
    }

    // Lent to the books that are opened with it.
    pub fn lend(&self) -> HeatTable<'_>
        ensures { result ≡ self.now }
    {
        HeatTable::new(&self.entries)
    }
}
