//! A sink in memory, which tells its bytes and can be made to fail.
ghost use Rattle.std.specs.Prelude.{◌≡◌, ◌++◌, [], Some, length, ◌<◌};
ghost use Rattle.loc_io.specs.Causes.{FailsAsTold};
ghost use Rattle.loc_io.specs.Streams.{Takes, stream};

use crate::fail_list::FailList;
use crate::failed::{FaultCount, LateCount};
use crate::{Failed, Sink};
use std::alloc::Global;

/// Keeps its bytes and tells them. Its writes are numbered from 1, and those whose numbers are
/// listed fail. So does a write that finds no memory.
#[derive(Drop)]
pub struct MemSink {
    bytes: Vec<u8>,
    fail: FailList,
    faults: FaultCount,
    late: LateCount,
}

impl MemSink {
    ghost use Rattle.loc_io.specs.Sinks.{failing_writes, mem_stream, writes_made};

    /// A sink without bytes, of which the writes with these numbers are to fail.
    pub fn new(alloc: Global, fail: Vec<u64>) -> MemSink
        ensures fresh { mem_stream result ≡ stream (Some []) 0 0 }
        ensures failing { failing_writes result ≡ fail.items }
        ensures writes { writes_made result ≡ 0 }
    {
        MemSink {
            bytes: Vec::new(alloc),
            fail: FailList::new(fail),
            faults: FaultCount::new(),
            late: LateCount::new(),
        }
    }

    /// The bytes written so far.
    pub fn bytes(&self) -> &[u8]
        ensures { (mem_stream self.now).written ≡ Some result.now }
    {
        &self.bytes
    }
}

impl Sink for MemSink {
    ghost use Rattle.loc_io.specs.Sinks.{failing_writes, mem_stream, writes_made};

    ghost meaning = { mem_stream };

    fn write(&mut self, piece: &[u8]) -> Result<usize, Failed>
        requires { 0 < length piece.now }
        ensures sink { Takes piece.now (mem_stream self.old) (mem_stream self.new) result }
        ensures failing { FailsAsTold (failing_writes self.old) (writes_made self.old) (writes_made self.new) result }
        ensures listed { failing_writes self.new ≡ failing_writes self.old }
    {
        self.late.note(self.faults.number > 0);
        if self.fail.next_fails() {
            return Err(self.faults.count_one());
        }
        match self.bytes.extend_from_slice(piece) {
            Ok(()) => Ok(piece.len()),
            Err(_) => Err(self.faults.count_one()),
        }
    }
}
