// The source that a list is read from.
ghost use Rattle.std.specs.Prelude.{OnErr, ⊤};
ghost use Rattle.std.specs.Io.{ReadsAtMost};
ghost use Rattle.std.specs.Io.KnownBytes.{ReadConsumes};

use std::io;
use std::io::Read;

// A reader of which a proof can say that its last read failed. Reading is proved for every source, and only an error of `bring` shows that
// the last read failed: so nothing that reads by it makes up a failed read.
pub(crate) trait Source: Read {
    ghost has_failed: { Self → Type 0 };

    // One read.
    fn bring(&mut self, room: &mut [u8]) -> io::Result<usize>
        ensures bound { ReadsAtMost result room.new }
        ensures bytes { ReadConsumes (Self.remaining self.old) (Self.remaining self.new) result room.new }
        ensures failed { OnErr result (has_failed self.new) };
}

// Every reader is a source. What its read gives is handed on as it is: when a read fails, the contract of `read` does not say.
impl<R: Read> Source for R {
    ghost has_failed = { λ _. ⊤ };

    fn bring(&mut self, room: &mut [u8]) -> io::Result<usize> {
        self.read(room)
    }
}
