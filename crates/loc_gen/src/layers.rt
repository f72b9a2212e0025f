// The writing of a generated layer.

ghost use Rattle.std.specs.Prelude.{◌≡◌, ◌<◌, ◌≤◌, Err, IfErr};
ghost use Rattle.std.specs.List.{flat_map};
ghost use Rattle.loc_io.specs.Streams.{TakesAll};
ghost use Rattle.loc_gen.specs.Layers.{feature_text, features, layer_text, limit_of};

use crate::Kind;
use crate::features::feature;
use crate::lines::write_feature;
use loc_io::{Sink, WriteFault};
use thiserror::Error;

/// Why a layer was not generated, or not to its end.
#[derive(Clone, Copy, Debug, Error)]
pub enum GenFault {
    /// The size is above the limit of the kind.
    #[error("the size is above the limit")]
    TooMany { asked: u64, limit: u64 },
    /// A write failed.
    #[error("a write failed")]
    WriteFault,
}

// Writes the features in order, a line each.
fn write_features<O: Sink>(kind: Kind, n: u64, start: u64, sink: &mut O) -> Result<(), WriteFault>
    requires within { n ≤ limit_of kind }
    requires start { start < 65536 }
    ensures { TakesAll (flat_map feature_text (features kind n start)) (O.meaning sink.old) (O.meaning sink.new) result }
{
    for number in 0..kind.feature_count(n) {
        write_feature(sink, feature(kind, n, start, number))?;
    }
    Ok(())
}

/// Writes the layer of a kind, a size and a shift, a line for each feature. Above the limit of the kind nothing is written; else it
/// fails only where a write does, and then a front of the text was written, where the sink tells it. It takes no memory.
pub fn gen_layer<O: Sink>(kind: Kind, n: u64, shift: u64, sink: &mut O) -> Result<(), GenFault>
    ensures too_many { limit_of kind < n → result ≡ Err (GenFault.TooMany n (limit_of kind)) }
    ensures untouched { limit_of kind < n → O.meaning sink.new ≡ O.meaning sink.old }
    ensures writes { n ≤ limit_of kind → TakesAll (layer_text kind n shift) (O.meaning sink.old) (O.meaning sink.new) result }
    ensures fault { n ≤ limit_of kind → IfErr result (λ e. e ≡ GenFault.WriteFault) }
{
    let limit = kind.limit();
    if n > limit {
        return Err(GenFault::TooMany { asked: n, limit });
    }
    match write_features(kind, n, shift % 65536, sink) {
        Ok(()) => Ok(()),
        Err(_) => Err(GenFault::WriteFault),
    }
}
