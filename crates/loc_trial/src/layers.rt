//! The text of a generated layer, and the layer itself.

ghost use Rattle.std.specs.Prelude.{◌≡◌, ◌≤◌, IfOk, OnOk};
ghost use Rattle.loc_gen.specs.Layers.{limit_of};
ghost use Rattle.loc_course.specs.Courses.{Course};
ghost use Rattle.loc_course.specs.Following.{Moment};
ghost use Rattle.loc_course.specs.Runs.{RunsOnOut};
ghost use Rattle.loc_course.specs.Stops.{GoesOn};
ghost use Rattle.loc_trial.specs.Generated.{generated};
ghost use Rattle.loc_trial.specs.TrialCourses.{gen_course, sized_course};

use crate::lines::past_line;
use loc_course::Stop;
use loc_csvform::{LayerFault, read_layer};
use loc_gen::{GenFault, Kind, gen_layer};
use loc_io::{MemSink, Sink};
use loc_rings::Layer;
use loc_spec_text::Form;
use std::alloc::Global;

/// Writes the text of a generated layer, feature by feature. It takes no memory.
pub fn generate<O: Sink>(kind: Kind, n: u64, shift: u64, out: &mut O) -> Result<(), Stop>
    ensures { RunsOnOut (gen_course kind n shift) O.meaning out result }
{
    match gen_layer(kind, n, shift, out) {
        Ok(()) => Ok(()),
        Err(GenFault::TooMany { asked, limit }) => Err(Stop::Refused(past_line(asked, limit))),
        Err(GenFault::WriteFault) => Err(Stop::WriteFault),
    }
}

/// The layer that the text of a generated layer is, which is made in memory and read back.
pub(crate) fn read_back(alloc: Global, kind: Kind, n: u64, shift: u64) -> Result<Layer, Stop>
    ensures goes_on { (next : Course) (m : Moment) → GoesOn (sized_course kind n next) m (λ _. next) m result }
    ensures within { OnOk result (n ≤ limit_of kind) }
    ensures layer { IfOk result (λ layer. layer ≡ generated kind n shift) }
{
    let mut text = MemSink::new(alloc, Vec::new(alloc));
    match gen_layer(kind, n, shift, &mut text) {
        Ok(()) => {}
        Err(GenFault::TooMany { asked, limit }) => {
            return Err(Stop::Refused(past_line(asked, limit)));
        }
        Err(GenFault::WriteFault) => return Err(Stop::NoMemory),
    }
    match read_layer(alloc, text.bytes(), Form::Lines, 0) {
        Ok(layer) => Ok(layer),
        Err(fault) => {
            let was_memory = matches!(&fault, LayerFault::NoMemory);
            prove!(was_memory);
            Err(Stop::NoMemory)
        }
    }
}
