// Why a call is refused.
ghost use Rattle.std.specs.Prelude.{◌≡◌};
ghost use Rattle.units.specs.Rules.{refusal_number};

// Overlap: some byte of an insert is free already, or some byte of a delete is not. NoneFound: no range is long enough, or none
// begins so high. Full: no room for one more range. Request: the range or the size breaks the rules. SetUp: the fixed handle
// fields or the lent lengths break the arena rules. Damaged: the list or the table is not sound. InBoth: every byte of a delete is
// free, but not in one land of a pair.
#[derive(Clone, Copy, Debug, PartialEq, Eq)]
pub enum Refusal {
    Overlap,
    NoneFound,
    Full,
    Request,
    SetUp,
    Damaged,
    InBoth,
}

impl Refusal {
    // Its number, as a call answers it.
    pub fn number(self) -> u64
        ensures { result ≡ refusal_number self }
    {
        match self {
            Refusal::Overlap => 1,
            Refusal::NoneFound => 2,
            Refusal::Full => 3,
            Refusal::Request => 4,
            Refusal::SetUp => 5,
            Refusal::Damaged => 6,
            Refusal::InBoth => 7,
        }
    }
}
