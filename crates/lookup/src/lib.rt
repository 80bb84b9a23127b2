// Which of the 63 protected bits of a block are wrong, from the remainder that they leave, looked up in tables (document 02, P3): what each place alone leaves,
// what each pair of places leaves, the places of each pair, and where the pairs with the same upper digits begin. Of any tables it is said what comes out; with
// the true ones those are the wrong places (proofs/Wrong.antt).
#![tactic(auto)]

ghost use Rattle.std.specs.Prelude.{◌≡◌, ◌%◌, ◌^◌, length};
ghost use Rattle.reading.specs.Wrong.{answer};
ghost use Rattle.lookup.specs.Search.{first_in, last_of, place_in, apart, pair_in, two_in, three_in, places_in, true_lookup};

use pairs::Pairs;
use reading::Places;

// The tables, which are made once and lent.
#[derive(Drop)]
pub struct Lookup {
    // what each place alone leaves
    pub singles: [u32; 63],
    pub pairs: Pairs,
}

// The first place from one to another at which a list holds a number. The list is any, so a binary search would not do.
fn first_in(list: &[u32], number: u32, from: usize, to: usize) -> Option<usize>
    ensures { result ≡ place_in (length list.now) (first_in list.now number from to) }
{
    for k in from..to.min(list.len()) {
        if list[k] == number {
            return Some(k);
        }
    }
    None
}

// The last of 63 places at which a list holds a number. The loop is not left early, so that it is compiled to a few wide comparisons.
fn last_of(list: &[u32; 63], number: u32) -> Option<usize>
    ensures { result ≡ place_in 63 (last_of list.now number 63) }
{
    let mut at: usize = 63;
    for k in 0..63 {
        if list[k] == number {
            at = k;
        }
    }
    if at < 63 { Some(at) } else { None }
}

impl Lookup {
    // The true ones.
    pub fn new() -> Lookup
        ensures { result ≡ true_lookup }
    {
        Lookup {
            singles: reading::columns(),
            pairs: Pairs::new(),
        }
    }

    // The two places of the pair that leaves a remainder. (`as usize`: there is no From of a u32 for a usize.)
    fn pair(&self, remainder: u32) -> Option<(usize, usize)>
        ensures { result ≡ apart (pair_in self.now (remainder % 2 ^ 19)) }
    {
        let low = remainder % 524288;
        let upper = (low / 2048) as usize;
        let from = usize::from(self.pairs.starts[upper]);
        let to = usize::from(self.pairs.starts[upper + 1]);
        let at = first_in(&self.pairs.remainders, low, from, to)?;
        let both = usize::from(self.pairs.places[at]);
        if both == 0 {
            None
        } else {
            Some((both / 64, both % 64))
        }
    }

    fn two(&self, remainder: u32) -> Places
        ensures { answer result ≡ two_in self.now (remainder % 2 ^ 19) }
    {
        match self.pair(remainder) {
            Some((i, j)) => Places::Two(i, j),
            None => Places::Nowhere,
        }
    }

    // For each first place the pair behind it that leaves the rest.
    fn three(&self, remainder: u32) -> Places
        ensures { answer result ≡ three_in self.now remainder }
    {
        for i in 0..63 {
            if let Some((j, k)) = self.pair(remainder ^ self.singles[i]) {
                if i < j {
                    return Places::Three(i, j, k);
                }
            }
        }
        Places::Nowhere
    }

    // The places, at most two, or three where the radius is 3 or more, that leave a remainder, given as the number of its 19 digits. One place and three leave
    // an odd number of ones, two an even one (document 02, P9).
    pub fn places(&self, radius: u8, remainder: u32) -> Places
        ensures { answer result ≡ places_in self.now radius remainder }
    {
        let low = remainder % 524288;
        if low == 0 {
            return Places::Zero;
        }
        if low.count_ones() % 2 == 0 {
            return self.two(low);
        }
        if let Some(i) = last_of(&self.singles, low) {
            return Places::One(i);
        }
        if radius < 3 {
            return Places::Nowhere;
        }
        self.three(low)
    }
}
