// Where what a trial holds of a corner stands.
ghost use Rattle.std.specs.Prelude.{◌≡◌, ◌<◌};
ghost use Rattle.placing.specs.rules.Units.{most_sites};
ghost use Rattle.placing.specs.rules.Corner.{Corner};
ghost use Rattle.placing.specs.search.Rows.{index_of};

// Where corner `c` of site `i` stands in an array of `Limits::ALL_CORNERS`: the corners of a site follow one another, corner 1 first.
pub(crate) fn index_of(i: usize, c: u8) -> usize
    requires { (i < most_sites) × Corner c }
    ensures { result ≡ index_of i c }
{
    4 * i + (c as usize - 1)
}
