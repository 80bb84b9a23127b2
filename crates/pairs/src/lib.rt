// What all 1,953 pairs of the 63 places leave (document 02, P3): the remainders in ascending order, the two places beside each, and an index by the upper
// digits before them. A constant is stored anew wherever its name stands, so whoever looks much up makes the tables once and lends them.
#![tactic(auto)]

mod pair_table; // pair_table.rt: what each pair of places leaves
mod place_table; // place_table.rt: the two places of each
mod start_table; // start_table.rt: where those with the same upper digits begin

ghost use Rattle.std.specs.Prelude.{◌≡◌};
ghost use Rattle.pairs.specs.Pairs.{true_pairs};

use pair_table::PAIRS;
use place_table::PLACES;
use start_table::STARTS;

// The three tables. The places have a list of their own, so that a search goes through the remainders alone.
#[derive(Drop)]
pub struct Pairs {
    pub remainders: [u32; 1953],
    // the two places beside each remainder, 64 times the first and the second
    pub places: [u16; 1953],
    pub starts: [u16; 257],
}

impl Pairs {
    // The true ones.
    pub fn new() -> Pairs
        ensures { result ≡ true_pairs }
    {
        Pairs {
            remainders: PAIRS,
            places: PLACES,
            starts: STARTS,
        }
    }
}
