// What a call is refused for (docs/FORMAT.md, "Numbers given"). Where nothing is refused the number given is 0; number 7 refuses nothing, and 4 is not used.
ghost use Rattle.std.specs.Prelude.{◌≡◌};
ghost use Rattle.bits.specs.Refused.{number_of};

#[derive(Clone, Copy, PartialEq, Eq, Debug)]
pub enum Refusal {
    // 1: a lent length is wrong
    Length,
    // 2: a given number is out of its range, or a sample does not fit its factor
    Range,
    // 3: the sync of a main frame has three or more wrong bits
    Sync,
    // 5: two or more scale words are equally near, and none is nearer
    Scale,
    // 6: a programme byte has an odd number of ones
    Parity,
    // 8: a header is not a good one
    Header,
    // 9: a history is full
    Full,
}

impl Refusal {
    // The number that stands for it, which is never 0.
    pub fn number(self) -> u8
        ensures { result ≡ number_of self }
    {
        match self {
            Refusal::Length => 1,
            Refusal::Range => 2,
            Refusal::Sync => 3,
            Refusal::Scale => 5,
            Refusal::Parity => 6,
            Refusal::Header => 8,
            Refusal::Full => 9,
        }
    }
}
