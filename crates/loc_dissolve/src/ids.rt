// The distinct ids of a layer.

ghost use Rattle.std.specs.Prelude.{◌≤◌, length, IfOk};
ghost use Rattle.loc_spec_text.specs.Limits.{most_features};
ghost use Rattle.loc_dissolve.specs.Grouping.{AreGroups, ids_of};

use loc_rings::Feature;
use std::alloc::{AllocError, Global};
use std::collections::BTreeMap;

/// The first feature of each id, in order, and for each feature the place of its id among them.
pub(crate) fn group_ids(
    alloc: Global,
    features: &[Feature],
) -> Result<(Vec<u32>, Vec<u32>), AllocError>
    requires { length features.now ≤ most_features }
    ensures { IfOk result (λ made. AreGroups (ids_of features.now) made.0.items made.1.items) }
{
    let mut firsts = Vec::new(alloc);
    let mut groups = Vec::new(alloc);
    let mut known = BTreeMap::new(alloc);
    for (n, feature) in features.iter().enumerate() {
        let group = match known.get(feature.id()) {
            Some(group) => *group,
            None => firsts.len() as u32,
        };
        if group as usize == firsts.len() {
            firsts.push(n as u32)?;
            known.insert(feature.id(), group)?;
        }
        groups.push(group)?;
    }
    Ok((firsts, groups))
}
