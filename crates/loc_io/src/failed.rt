//! The failure of an outside call, and the count of such failures.
ghost use Rattle.std.specs.Prelude.{◌≡◌, ◌≤◌, ◌||◌, nat_lt};
ghost use Rattle.loc_io.specs.Causes.{CountsLate, Rose};

use thiserror::Error;

/// An outside call failed. The count of its shelf or sink rose, or stood at its last value.
#[derive(Clone, Copy, Debug, Error)]
#[error("a call on a file or stream failed")]
pub struct Failed;

/// How many calls have failed. It stands still at its last value.
#[derive(Clone, Copy)]
pub(crate) struct FaultCount {
    pub(crate) number: u64,
}

impl FaultCount {
    pub(crate) fn new() -> FaultCount
        ensures { result.number ≡ 0 }
    {
        FaultCount { number: 0 }
    }

    // Counts one failure, and hands it out.
    pub(crate) fn count_one(&mut self) -> Failed
        ensures rose { Rose self.old.number self.new.number }
        ensures later { self.old.number ≤ self.new.number }
    {
        self.number = self.number.saturating_add(1);
        Failed
    }
}

/// How many calls were made after one had failed. It stands still at its last value.
#[derive(Clone, Copy)]
pub(crate) struct LateCount {
    pub(crate) number: u64,
}

impl LateCount {
    pub(crate) fn new() -> LateCount
        ensures { result.number ≡ 0 }
    {
        LateCount { number: 0 }
    }

    // Notes a call, which is late where one has failed.
    pub(crate) fn note(&mut self, has_failed: bool)
        ensures { CountsLate has_failed self.old.number self.new.number }
    {
        if has_failed {
            self.number = self.number.saturating_add(1);
        }
    }
}

/// The failures of a shelf's calls, and how many were made after one.
#[derive(Clone, Copy)]
pub(crate) struct CallCounts {
    pub(crate) read_faults: FaultCount,
    pub(crate) write_faults: FaultCount,
    pub(crate) late: LateCount,
}

impl CallCounts {
    pub(crate) fn new() -> CallCounts
        ensures reads { result.read_faults.number ≡ 0 }
        ensures writes { result.write_faults.number ≡ 0 }
        ensures late { result.late.number ≡ 0 }
    {
        CallCounts {
            read_faults: FaultCount::new(),
            write_faults: FaultCount::new(),
            late: LateCount::new(),
        }
    }

    // Notes a call, before it is made.
    pub(crate) fn note_call(&mut self)
        ensures reads { self.new.read_faults ≡ self.old.read_faults }
        ensures writes { self.new.write_faults ≡ self.old.write_faults }
        ensures late { CountsLate (nat_lt 0 self.old.read_faults.number || nat_lt 0 self.old.write_faults.number) self.old.late.number self.new.late.number }
    {
        self.late.note(self.read_faults.number > 0 || self.write_faults.number > 0);
    }
}
