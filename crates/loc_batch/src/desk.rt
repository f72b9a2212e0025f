// Where lines are answered: the unfinished line, the tally, the page before the sink and the block of lines.

ghost use Rattle.std.specs.Prelude.{◌≡◌, ◌⊎◌, ◌+◌, ◌*◌, ◌<◌, ◌≤◌, ◌++◌, ◌∷◌, [], None, count_by, length, position, ◌==◌, IfOk, IfSome, MatchOption, OnOk};
ghost use Rattle.std.specs.Option.{is_some};
ghost use Rattle.loc_spec_text.specs.Answered.{answered};
ghost use Rattle.loc_spec_text.specs.Bytes.{ended_lines, unfinished};
ghost use Rattle.loc_spec_text.specs.Points.{no_point, point_of};
ghost use Rattle.loc_io.specs.Streams.{InTime};
ghost use Rattle.loc_batch.specs.Batches.{no_tally};
ghost use Rattle.loc_batch.specs.Blocks.{AreKnown, ReadsLines, no_lines, with_line};
ghost use Rattle.loc_batch.specs.Desks.{PutsAll, PutsAnswer, PutsOne, SendsPage, WritesLines};
ghost use Rattle.loc_batch.specs.Kept.{IsUnbroken, kept};
ghost use Rattle.loc_batch.specs.PointLines.{point_count};
ghost use Rattle.loc_batch.specs.Streams.{last_line};
ghost use Rattle.loc_batch.specs.Told.{told_by, told_found, told_of};

use crate::answerer::{Answerer, Lists};
use crate::block::Block;
use crate::{FeedFault, Tally};
use arrayvec::ArrayVec;
use loc_geom::Steps;
use loc_io::Sink;
use loc_page::Page;
use loc_wkt::read_point;
use std::alloc::{AllocError, Global};
use std::sync::ledger::Ledger;

// The unfinished line, what was answered, and what is held back from the sink.
#[derive(Drop)]
pub(crate) struct Desk<F: Copy + Drop> {
    pub(crate) line: ArrayVec<u8, 4097>,
    pub(crate) tally: Tally,
    pub(crate) page: Page,
    pub(crate) block: Block<F>,
    pub(crate) lists: Lists,
}

// A line with more behind it, as far as it is kept.
fn keep(line: &mut ArrayVec<u8, 4097>, text: &[u8])
    ensures { line.new.items ≡ kept (line.old.items ++ text.now) }
{
    let count = text.len().min(line.remaining_capacity());
    match line.try_extend_from_slice(&text[..count]) {
        Ok(()) => {}
        Err(_) => {}
    }
}

// Where the first LF stands.
fn feed_place(text: &[u8]) -> Option<usize>
    ensures { result ≡ position (λ b. b == 10) text.now }
{
    text.iter().position(|b| *b == b'\n')
}

// What stands before the first LF, and what behind it.
fn cut(text: &[u8]) -> Option<(&[u8], &[u8])>
    ensures cuts { MatchOption result (IsUnbroken text.now) (λ l. (text.now ≡ l.0.now ++ 10 ∷ l.1.now) × IsUnbroken l.0.now) }
    ensures shorter { IfSome result (λ l. length l.1.now < length text.now) }
{
    match feed_place(text) {
        Some(i) => Some((&text[..i], &text[i + 1..])),
        None => None,
    }
}

// The answer to a line that is no point.
fn put_unread<O: Sink>(tally: &mut Tally, page: &mut Page, sink: &mut O) -> Result<(), FeedFault>
    ensures { PutsAnswer (told_of no_point) tally.old tally.new (O.meaning sink.old) (O.meaning sink.new) page.old page.new result }
{
    page.put(sink, b"unread\n")?;
    tally.lines = tally.lines.saturating_add(1);
    tally.unread = tally.unread.saturating_add(1);
    Ok(())
}

// The answer by what was found for a line.
fn answer_found<F: Copy + Drop, D: Answerer<F>, O: Sink, L: Ledger>(
    by: &D,
    found: Option<F>,
    lists: &mut Lists,
    tally: &mut Tally,
    page: &mut Page,
    sink: &mut O,
    steps: &mut Steps<L>,
) -> Result<(), FeedFault>
    requires fits { D.fits by.now }
    requires known { IfSome found (D.knows by.now) }
    ensures answers { PutsOne (told_found (D.tells by.now) found) tally.old tally.new (O.meaning sink.old) (O.meaning sink.new) page.old page.new result }
    ensures counted { steps.old ≤ steps.new }
    ensures within { steps.new ≤ steps.old + D.most_put by.now }
    ensures unsought { found ≡ None → steps.new ≡ steps.old }
{
    match found {
        Some(found) => by.put(found, lists, tally, page, sink, steps),
        None => put_unread(tally, page, sink),
    }
}

// The line that this text ends is one more of the block.
fn read_line<F: Copy + Drop>(
    line: &mut ArrayVec<u8, 4097>,
    block: &mut Block<F>,
    scale: u8,
    text: &[u8],
)
    requires scale { scale ≤ 15 }
    requires room { length block.old.found < 131072 }
    ensures block { block.new ≡ with_line block.old (point_of scale (line.old.items ++ text.now)) }
    ensures line { line.new.items ≡ [] }
{
    keep(line, text);
    block.note(read_point(line.as_slice(), scale));
    line.clear();
}

// The next line of a text, if the block has room for it, and what follows it.
fn next_line<'a, F: Copy + Drop>(block: &Block<F>, text: &'a [u8]) -> Option<(&'a [u8], &'a [u8])>
    ensures cuts { MatchOption result (IsUnbroken text.now ⊎ (0 < length block.now.found)) (λ l. (text.now ≡ l.0.now ++ 10 ∷ l.1.now) × IsUnbroken l.0.now) }
    ensures room { IfSome result (λ _. length block.now.found < 131072) }
    ensures shorter { IfSome result (λ l. length l.1.now < length text.now) }
{
    if block.is_full() {
        return None;
    }
    cut(text)
}

// Reads lines of a text while the block has room; what is left.
fn fill_block<'a, F: Copy + Drop>(
    line: &mut ArrayVec<u8, 4097>,
    block: &mut Block<F>,
    scale: u8,
    text: &'a [u8],
) -> &'a [u8]
    requires scale { scale ≤ 15 }
    requires empty { block.old ≡ no_lines }
    requires unbroken { IsUnbroken line.old.items }
    ensures reads { ReadsLines scale line.old.items text.now line.new.items result.now block.new }
    ensures ended { IsUnbroken result.now ⊎ (0 < length block.new.found) }
{
    let mut rest = text;
    while let Some((front, more)) = next_line(block, rest) {
        read_line(line, block, scale, front);
        rest = more;
    }
    rest
}

// The next lines of a text, as many as the block has room for, and what follows them. None where no line ends in the text.
fn read_lines<'a, F: Copy + Drop>(
    line: &mut ArrayVec<u8, 4097>,
    block: &mut Block<F>,
    scale: u8,
    text: &'a [u8],
) -> Option<&'a [u8]>
    requires scale { scale ≤ 15 }
    requires unbroken { IsUnbroken line.old.items }
    ensures reads { MatchOption result (IsUnbroken text.now × (line.new.items ≡ line.old.items)) (λ rest. ReadsLines scale line.old.items text.now line.new.items rest.now block.new) }
    ensures shorter { IfSome result (λ rest. length rest.now < length text.now) }
{
    block.clear();
    let rest = fill_block(line, block, scale, text);
    if block.len() == 0 { None } else { Some(rest) }
}

// The answers to the lines of a block, in their order, on the page.
fn put_block<F: Copy + Drop, D: Answerer<F>, O: Sink, L: Ledger>(
    by: &D,
    block: &Block<F>,
    lists: &mut Lists,
    tally: &mut Tally,
    page: &mut Page,
    sink: &mut O,
    steps: &mut Steps<L>,
) -> Result<(), FeedFault>
    requires fits { D.fits by.now }
    requires known { AreKnown (D.knows by.now) block.now.found }
    ensures answers { PutsAll (answered (told_found (D.tells by.now)) block.now.found) tally.old tally.new (O.meaning sink.old) (O.meaning sink.new) page.old page.new result }
    ensures counted { steps.old ≤ steps.new }
    ensures within { steps.new ≤ steps.old + count_by is_some block.now.found * D.most_put by.now }
{
    for line in 0..block.len() {
        let found = block.found(line);
        answer_found(by, found, lists, tally, page, sink, steps)?;
    }
    Ok(())
}

// What is on a page is written, also where a line was given up.
fn send<O: Sink>(
    page: &mut Page,
    answered: Result<(), FeedFault>,
    sink: &mut O,
) -> Result<(), FeedFault>
    ensures sent { SendsPage page.old (O.meaning sink.old) (O.meaning sink.new) answered result }
    ensures in_time { InTime (O.meaning sink.old) (O.meaning sink.new) }
{
    if matches!(answered, Err(FeedFault::WriteFault)) {
        return answered;
    }
    page.flush(sink)?;
    answered
}

impl<F: Copy + Drop> Desk<F> {
    // A desk with nothing on it.
    pub(crate) fn make(alloc: Global) -> Result<Desk<F>, AllocError>
        ensures line { IfOk result (λ d. d.line.items ≡ []) }
        ensures tally { IfOk result (λ d. d.tally ≡ no_tally) }
    {
        Ok(Desk {
            line: ArrayVec::new(),
            tally: Tally::new(),
            page: Page::new(),
            block: Block::make(alloc)?,
            lists: Lists::make(alloc)?,
        })
    }

    // The answers to the lines that a text ends, on the page, as many lines at a time as the block has room for.
    fn put_lines<D: Answerer<F>, O: Sink, L: Ledger>(
        &mut self,
        scale: u8,
        by: &D,
        text: &[u8],
        sink: &mut O,
        steps: &mut Steps<L>,
    ) -> Result<(), FeedFault>
        requires scale { scale ≤ 15 }
        requires fits { D.fits by.now }
        requires unbroken { IsUnbroken self.old.line.items }
        ensures answers { PutsAll (answered (told_by scale (D.finds by.now) (D.tells by.now)) (ended_lines (self.old.line.items ++ text.now))) self.old.tally self.new.tally (O.meaning sink.old) (O.meaning sink.new) self.old.page self.new.page result }
        ensures line { OnOk result (self.new.line.items ≡ kept (unfinished (self.old.line.items ++ text.now))) }
        ensures unbroken { IsUnbroken self.new.line.items }
        ensures counted { steps.old ≤ steps.new }
        ensures within { steps.new ≤ steps.old + point_count scale (ended_lines (self.old.line.items ++ text.now)) * (D.most_found by.now + D.most_put by.now) }
    {
        let mut rest = text;
        while let Some(more) = read_lines(&mut self.line, &mut self.block, scale, rest) {
            self.block.search(by, steps);
            put_block(
                by,
                &self.block,
                &mut self.lists,
                &mut self.tally,
                &mut self.page,
                sink,
                steps,
            )?;
            rest = more;
        }
        keep(&mut self.line, rest);
        Ok(())
    }

    // The answers to the lines that a text ends, written.
    pub(crate) fn write_lines<D: Answerer<F>, O: Sink, L: Ledger>(
        &mut self,
        scale: u8,
        by: &D,
        text: &[u8],
        sink: &mut O,
        steps: &mut Steps<L>,
    ) -> Result<(), FeedFault>
        requires scale { scale ≤ 15 }
        requires fits { D.fits by.now }
        requires unbroken { IsUnbroken self.old.line.items }
        ensures answers { WritesLines (ended_lines (self.old.line.items ++ text.now)) (told_by scale (D.finds by.now) (D.tells by.now)) self.old.tally self.new.tally (O.meaning sink.old) (O.meaning sink.new) result }
        ensures in_time { InTime (O.meaning sink.old) (O.meaning sink.new) }
        ensures line { OnOk result (self.new.line.items ≡ kept (unfinished (self.old.line.items ++ text.now))) }
        ensures unbroken { IsUnbroken self.new.line.items }
        ensures counted { steps.old ≤ steps.new }
        ensures within { steps.new ≤ steps.old + point_count scale (ended_lines (self.old.line.items ++ text.now)) * (D.most_found by.now + D.most_put by.now) }
    {
        self.page.clear();
        let answered = self.put_lines(scale, by, text, sink, steps);
        send(&mut self.page, answered, sink)
    }

    // The answer to the last line, if there is one, written: it is ended.
    pub(crate) fn write_last<D: Answerer<F>, O: Sink, L: Ledger>(
        &mut self,
        scale: u8,
        by: &D,
        sink: &mut O,
        steps: &mut Steps<L>,
    ) -> Result<(), FeedFault>
        requires scale { scale ≤ 15 }
        requires fits { D.fits by.now }
        requires unbroken { IsUnbroken self.old.line.items }
        ensures answers { WritesLines (last_line self.old.line.items) (told_by scale (D.finds by.now) (D.tells by.now)) self.old.tally self.new.tally (O.meaning sink.old) (O.meaning sink.new) result }
        ensures in_time { InTime (O.meaning sink.old) (O.meaning sink.new) }
        ensures unbroken { IsUnbroken self.new.line.items }
        ensures counted { steps.old ≤ steps.new }
        ensures within { steps.new ≤ steps.old + point_count scale (last_line self.old.line.items) * (D.most_found by.now + D.most_put by.now) }
    {
        if self.line.is_empty() {
            return Ok(());
        }
        self.write_lines(scale, by, b"\n", sink, steps)
    }
}
