// Why a call is refused, with the numbers of documents 01 and 02.
ghost use Rattle.std.specs.Prelude.{◌≡◌};
ghost use Rattle.plan.specs.rules.Refusal.{number_of};

#[derive(Clone, Copy, PartialEq, Eq)]
pub enum Refusal {
    BadLine,
    BadName,
    BadNumber,
    NameTaken,
    PlaceTaken,
    NoSuchSite,
    Full,
    NoSites,
    NotPlaced,
    ShortBuffer,
    ShortTable,
    NoGoodChoice,
}

// The number of a refusal.
impl From<Refusal> for u8 {
    ghost from_gives = { λ refusal number. number ≡ number_of refusal };

    fn from(refusal: Refusal) -> u8 {
        match refusal {
            Refusal::BadLine => 1,
            Refusal::BadName => 2,
            Refusal::BadNumber => 3,
            Refusal::NameTaken => 4,
            Refusal::PlaceTaken => 5,
            Refusal::NoSuchSite => 6,
            Refusal::Full => 7,
            Refusal::NoSites => 8,
            Refusal::NotPlaced => 9,
            Refusal::ShortBuffer => 10,
            Refusal::ShortTable => 11,
            Refusal::NoGoodChoice => 12,
        }
    }
}
