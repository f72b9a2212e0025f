//! Files by name.
ghost use Rattle.std.specs.Prelude.{◌≡◌, ◌<◌, true, length};
ghost use Rattle.loc_io.specs.Meaning.{Meaning, TakesUp, Reads, Creates, Writes, Finishes};

use crate::Failed;

/// Files by name, of which one at a time is read and one at a time is made.
pub trait Shelf {
    /// What is told of each name, what is taken up and being made, the names handed to `take_up`
    /// with the bytes taken under each, and the counts of faults.
    ghost meaning: { Self → Meaning };

    /// Begins to read the named file. A name that is not there is a failure.
    fn take_up(&mut self, name: &str) -> Result<(), Failed>
        ensures { TakesUp name.now (meaning self.old) (meaning self.new) result };

    /// Puts the next bytes of the file at the front of `into`, and says how many: 0 is the end.
    fn read(&mut self, into: &mut [u8]) -> Result<usize, Failed>
        requires open { (meaning self.old).is_open ≡ true }
        requires room { 0 < length into.old }
        ensures { Reads (meaning self.old) (meaning self.new) into.new result };

    /// Makes the named file empty, and begins to write it.
    fn create(&mut self, name: &str) -> Result<(), Failed>
        ensures { Creates name.now (meaning self.old) (meaning self.new) result };

    /// Appends a front of the piece to the file that is being made, and says how many bytes that is.
    fn write(&mut self, piece: &[u8]) -> Result<usize, Failed>
        requires making { (meaning self.old).is_making ≡ true }
        requires some { 0 < length piece.now }
        ensures { Writes piece.now (meaning self.old) (meaning self.new) result };

    /// Ends the writing, also where it fails.
    fn finish(&mut self) -> Result<(), Failed>
        requires { (meaning self.old).is_making ≡ true }
        ensures { Finishes (meaning self.old) (meaning self.new) result };
}
