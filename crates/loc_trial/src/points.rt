//! The points that are asked of a generated layer, as a text of lines.

ghost use Rattle.std.specs.Prelude.{◌≡◌, ◌+◌, ◌++◌, ◌<◌, ◌≤◌, IfOk, OnOk};
ghost use Rattle.loc_spec_text.specs.Points.{ended};
ghost use Rattle.loc_gen.specs.Layers.{corner_text};
ghost use Rattle.loc_trial.specs.Generated.{point_line, points_text};

use itoa::Buffer;
use loc_gen::gen_point;
use std::alloc::{AllocError, Global};

// A point of whole coordinates that are not negative: x, a space, y, and the end of the line.
fn push_point(text: &mut Vec<u8>, x: u64, y: u64) -> Result<(), AllocError>
    ensures { OnOk result (text.new.items ≡ text.old.items ++ ended (corner_text x y)) }
{
    let mut buffer = Buffer::new();
    text.extend_from_slice(buffer.format(x).as_bytes())?;
    text.push(b' ')?;
    text.extend_from_slice(buffer.format(y).as_bytes())?;
    text.push(b'\n')?;
    Ok(())
}

/// The points that are asked of a layer of size n, a line each.
pub(crate) fn points_of(alloc: Global, n: u64, shift: u64) -> Result<Vec<u8>, AllocError>
    requires { n ≤ 131072 }
    ensures { IfOk result (λ text. text.items ≡ points_text n shift) }
{
    let mut text = Vec::new(alloc);
    for t in 0..n {
        let p = gen_point(n, shift, t);
        push_point(&mut text, p.x().unsigned_abs(), p.y().unsigned_abs())?;
    }
    Ok(text)
}
