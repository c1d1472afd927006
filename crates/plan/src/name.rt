// A site's name: 1 to 8 bytes, each A to Z, 0 to 9 or hyphen.
ghost use Rattle.std.specs.Prelude.{◌≡◌, ◌≤◌};
ghost use Rattle.plan.specs.rules.Text.{most_name_bytes, is_name_byte, is_name};
ghost use Rattle.plan.specs.calls.Plan.{name_held};
ghost use Rattle.plan.specs.code.NameRead.{name_read, no_name};

// The bytes of a name from the front, zeros past them. An array, since a plan's calls cannot fail for memory, and no ArrayVec, since the specs
// (`Padded`) speak of these zeros. No ghost field says so of them: the specs' `name_of` makes such a record of any bytes.
#[derive(Clone, Copy, PartialEq, Eq)]
pub struct Name {
    pub bytes: [u8; Name::LONGEST],
    pub len: usize,
}

impl Name {
    // The most bytes of a name.
    pub const LONGEST: usize = 8;

    // The name of an empty slot.
    pub(crate) fn none() -> Name
        ensures { result ≡ no_name }
    {
        Name {
            bytes: [0u8; Name::LONGEST],
            len: 0,
        }
    }

    // Its bytes.
    pub fn text(&self) -> &[u8]
        requires { self.now.len ≤ most_name_bytes }
        ensures { result.now ≡ name_held self.now }
    {
        &self.bytes[..self.len]
    }
}

// Whether a byte may stand in a name.
fn is_name_byte(b: u8) -> bool
    ensures { result ≡ is_name_byte b }
{
    matches!(b, b'A'..=b'Z' | b'0'..=b'9' | b'-')
}

// Whether a text is a name.
fn is_name(text: &[u8]) -> bool
    ensures { result ≡ is_name text.now }
{
    if text.is_empty() || text.len() > Name::LONGEST {
        return false;
    }
    text.iter().all(|b| is_name_byte(*b))
}

// The name that a text is, if it is one.
pub(crate) fn name_from(text: &[u8]) -> Option<Name>
    ensures { result ≡ name_read text.now }
{
    if !is_name(text) {
        return None;
    }
    let len = text.len();
    let mut bytes = [0u8; Name::LONGEST];
    bytes[..len].copy_from_slice(text);
    Some(Name { bytes, len })
}
