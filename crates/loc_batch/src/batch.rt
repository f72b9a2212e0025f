// A batch: the lines of a stream that comes in pieces, and their answers.

ghost use Rattle.std.specs.Prelude.{◌≡◌, ◌+◌, ◌*◌, ◌<◌, ◌≤◌, ◌^◌, Err, None, false, true, IfErr, IfOk, OnErr, OnOk};
ghost use Rattle.loc_io.specs.Streams.{InTime};
ghost use Rattle.loc_batch.specs.Batches.{Ends, Feeds, IsFresh, StaysSo, fault_or, lines_ended, within_limit};
ghost use Rattle.loc_batch.specs.PointLines.{point_count};
ghost use Rattle.loc_batch.specs.Streams.{last_line};
ghost use Rattle.loc_batch.specs.Told.{told_by};

use crate::answerer::Answerer;
use crate::desk::Desk;
use crate::{FeedFault, Tally};
use loc_geom::Steps;
use loc_io::Sink;
use std::alloc::{AllocError, Global};
use std::marker::Model;
use std::sync::ledger::Ledger;

// How many bytes a read asks for.
const PIECE: usize = 4_194_304;

// The lines of a stream, as far as they are answered.
#[derive(Drop)]
pub(crate) struct Stream<F: Copy + Drop> {
    scale: u8,
    limit: u64,
    fed: u64,
    desk: Desk<F>,
    fault: Option<FeedFault>,
    closed: bool,
}

impl<F: Copy + Drop> Model for Stream<F> {
    ghost use Rattle.std.specs.Prelude.{◌≤◌};
    ghost use Rattle.loc_batch.specs.Batches.{BatchState};
    ghost use Rattle.loc_batch.specs.Kept.{IsUnbroken};

    ghost Value = { BatchState };

    ghost view = { λ s. record {
      scale = s.scale;
      limit = s.limit;
      fed = s.fed;
      line = s.desk.line.items;
      tally = s.desk.tally;
      fault = s.fault;
      closed = s.closed;
    } };

    ghost invariant = { λ s. (s.scale ≤ 15) × (s.fed ≤ s.limit) × IsUnbroken s.desk.line.items };
}

impl<F: Copy + Drop> Stream<F> {
    // A stream of which nothing has come.
    fn make(alloc: Global, scale: u8, limit: u64) -> Result<Stream<F>, AllocError>
        requires { scale ≤ 15 }
        ensures fresh { IfOk result IsFresh }
        ensures scale { IfOk result (λ s. s.scale ≡ scale) }
        ensures limit { IfOk result (λ s. s.limit ≡ limit) }
    {
        Ok(Stream {
            scale,
            limit,
            fed: 0,
            desk: Desk::make(alloc)?,
            fault: None,
            closed: false,
        })
    }

    // No further call is to come.
    pub(crate) fn close(&mut self)
        ensures { self.new ≡ record self.old { closed = true } }
    {
        self.closed = true;
    }

    // A result of the end: where it is Ok, no further call is to come.
    fn closed_by(&mut self, given: Result<(), FeedFault>) -> Result<(), FeedFault>
        ensures same { result ≡ given }
        ensures closed { OnOk given (self.new ≡ record self.old { closed = true }) }
        ensures unclosed { OnErr given (self.new ≡ self.old) }
    {
        given?;
        self.closed = true;
        Ok(())
    }

    // A result, which is noted where it is a fault.
    fn noted(&mut self, given: Result<(), FeedFault>) -> Result<(), FeedFault>
        ensures same { result ≡ given }
        ensures noted { self.new ≡ record self.old { fault = fault_or given self.old.fault } }
    {
        if let Err(fault) = given {
            self.fault = Some(fault);
        }
        given
    }

    // So much of a piece as is within the limit.
    fn front<'a>(&self, piece: &'a [u8]) -> &'a [u8]
        ensures { result.now ≡ within_limit self.now piece.now }
    {
        let room = self.limit - self.fed;
        if piece.len() as u64 > room {
            return &piece[..room as usize];
        }
        piece
    }

    // Counts so many bytes more as fed, unless their lines were not all answered, or they pass the limit.
    fn count_fed(&mut self, given: Result<(), FeedFault>, count: usize) -> Result<(), FeedFault>
        ensures given { IfErr given (λ fault. result ≡ Err fault) }
        ensures within { OnOk result (self.old.fed + count ≤ self.old.limit) }
        ensures counted { OnOk result (self.new.fed ≡ self.old.fed + count) }
        ensures past { OnOk given (OnErr result (self.old.limit < self.old.fed + count)) }
        ensures fault { OnOk given (IfErr result (λ fault. fault ≡ FeedFault.PointsLong)) }
        ensures others { self.new ≡ record self.old { fed = self.new.fed } }
    {
        given?;
        if count as u64 > self.limit - self.fed {
            return Err(FeedFault::PointsLong);
        }
        self.fed += count as u64;
        Ok(())
    }

    // The lines that a piece ends.
    pub(crate) fn feed<D: Answerer<F>, O: Sink, L: Ledger>(
        &mut self,
        by: &D,
        piece: &[u8],
        sink: &mut O,
        steps: &mut Steps<L>,
    ) -> Result<(), FeedFault>
        requires fits { D.fits by.now }
        ensures feeds { Feeds (told_by self.old.scale (D.finds by.now) (D.tells by.now)) self.old self.new piece.now (O.meaning sink.old) (O.meaning sink.new) result }
        ensures in_time { InTime (O.meaning sink.old) (O.meaning sink.new) }
        ensures stays { StaysSo self.old self.new }
        ensures closed { self.new.closed ≡ self.old.closed }
        ensures counted { steps.old ≤ steps.new }
        ensures within { steps.new ≤ steps.old + point_count self.old.scale (lines_ended self.old piece.now) * (D.most_found by.now + D.most_put by.now) }
    {
        if let Some(fault) = self.fault {
            return Err(fault);
        }
        let front = self.front(piece);
        let given = self.desk.write_lines(self.scale, by, front, sink, steps);
        let result = self.count_fed(given, piece.len());
        self.noted(result)
    }

    // What was answered.
    fn tally(&self) -> Tally
        ensures { result ≡ self.now.tally }
    {
        self.desk.tally
    }

    // The last line.
    pub(crate) fn end<D: Answerer<F>, O: Sink, L: Ledger>(
        &mut self,
        by: &D,
        sink: &mut O,
        steps: &mut Steps<L>,
    ) -> Result<(), FeedFault>
        requires fits { D.fits by.now }
        ensures ends { Ends (told_by self.old.scale (D.finds by.now) (D.tells by.now)) self.old self.new (O.meaning sink.old) (O.meaning sink.new) result }
        ensures in_time { InTime (O.meaning sink.old) (O.meaning sink.new) }
        ensures stays { StaysSo self.old self.new }
        ensures closed { self.old.closed ≡ true → self.new.closed ≡ true }
        ensures counted { steps.old ≤ steps.new }
        ensures within { steps.new ≤ steps.old + point_count self.old.scale (last_line self.old.line) * (D.most_found by.now + D.most_put by.now) }
    {
        if let Some(fault) = self.fault {
            return Err(fault);
        }
        let given = self.desk.write_last(self.scale, by, sink, steps);
        let result = self.closed_by(given);
        self.noted(result)
    }
}

/// A stream of points text that comes in pieces. Each line is answered once it has ended, by what is found for its point. It has all its
/// memory from `make` on.
#[derive(Drop)]
pub struct Batch<F: Copy + Drop> {
    pub(crate) stream: Stream<F>,
    pub(crate) room: Vec<u8>,
}

impl<F: Copy + Drop> Model for Batch<F> {
    ghost use Rattle.std.specs.Prelude.{◌<◌, vec_len};
    ghost use Rattle.loc_batch.specs.Batches.{BatchState};

    ghost Value = { BatchState };

    ghost view = { λ b. b.stream };

    ghost invariant = { λ b. 0 < vec_len b.room };
}

impl<F: Copy + Drop> Batch<F> {
    /// A fresh batch of points at a scale, for a stream of at most `limit` bytes.
    pub fn make(alloc: Global, scale: u8, limit: u64) -> Result<Batch<F>, AllocError>
        requires scale { scale ≤ 15 }
        requires limit { limit ≤ 2 ^ 40 }
        ensures fresh { IfOk result IsFresh }
        ensures scale { IfOk result (λ b. b.scale ≡ scale) }
        ensures limit { IfOk result (λ b. b.limit ≡ limit) }
    {
        let room = vec![in alloc; 0u8; PIECE]?;
        Ok(Batch {
            stream: Stream::make(alloc, scale, limit)?,
            room,
        })
    }

    /// Answers the lines that the piece ends.
    pub fn feed<D: Answerer<F>, O: Sink, L: Ledger>(
        &mut self,
        by: &D,
        piece: &[u8],
        sink: &mut O,
        steps: &mut Steps<L>,
    ) -> Result<(), FeedFault>
        requires fits { D.fits by.now }
        requires open { self.old.closed ≡ false }
        ensures feeds { Feeds (told_by self.old.scale (D.finds by.now) (D.tells by.now)) self.old self.new piece.now (O.meaning sink.old) (O.meaning sink.new) result }
        ensures in_time { InTime (O.meaning sink.old) (O.meaning sink.new) }
        ensures stays { StaysSo self.old self.new }
        ensures open { self.new.closed ≡ false }
        ensures counted { steps.old ≤ steps.new }
        ensures within { steps.new ≤ steps.old + point_count self.old.scale (lines_ended self.old piece.now) * (D.most_found by.now + D.most_put by.now) }
    {
        self.stream.feed(by, piece, sink, steps)
    }

    /// Answers a last line that has no end.
    pub fn end<D: Answerer<F>, O: Sink, L: Ledger>(
        &mut self,
        by: &D,
        sink: &mut O,
        steps: &mut Steps<L>,
    ) -> Result<(), FeedFault>
        requires fits { D.fits by.now }
        requires open { self.old.closed ≡ false }
        ensures ends { Ends (told_by self.old.scale (D.finds by.now) (D.tells by.now)) self.old self.new (O.meaning sink.old) (O.meaning sink.new) result }
        ensures in_time { InTime (O.meaning sink.old) (O.meaning sink.new) }
        ensures stays { StaysSo self.old self.new }
        ensures counted { steps.old ≤ steps.new }
        ensures within { steps.new ≤ steps.old + point_count self.old.scale (last_line self.old.line) * (D.most_found by.now + D.most_put by.now) }
    {
        self.stream.end(by, sink, steps)
    }

    /// What was answered, in numbers.
    pub fn tally(&self) -> Tally
        ensures { result ≡ self.now.tally }
    {
        self.stream.tally()
    }
}
