// A layer: its features, within the limits.

ghost use Rattle.std.specs.Prelude.{◌≡◌, ◌+◌, ◌<◌, ◌≤◌, [], ◌∷◌, ◌++◌, length, slice_get, map, sum_by, nat_le, Some, IfSome, MatchOption, IfOk, OnOk, OnErr};
ghost use Rattle.loc_spec_text.specs.Limits.{most_features, most_points};
ghost use Rattle.loc_spec_text.specs.Reading.{all_rings};
ghost use Rattle.loc_rings.specs.Flags.{flagged, unflagged};
ghost use Rattle.loc_rings.specs.Layers.{IsLayer, point_count, layer_points};
ghost use Rattle.loc_rings.specs.Values.{Feature as FeatureOf};

use crate::features::Feature;
use crate::rings::Rings;
use loc_spec_text::{MOST_FEATURES, MOST_POINTS};
use std::alloc::{AllocError, Global};
use std::marker::Model;

/// Features in the order in which they were added: at most 2^18, with at most 2^20 written ring points together.
#[derive(Drop)]
pub struct Layer {
    features: Vec<Feature>,
    // The written ring points of all features.
    points: usize,
}

impl Model for Layer {
    ghost use Rattle.std.specs.Prelude.{◌≡◌, List};
    ghost use Rattle.loc_rings.specs.Values.{Feature as FeatureValue};
    ghost use Rattle.loc_rings.specs.Layers.{IsLayer, layer_points};

    ghost Value = { List FeatureValue };

    ghost view = { λ l. l.features.items };

    ghost invariant = { λ l. IsLayer l.features.items × (l.points ≡ layer_points l.features.items) };
}

// How many points there are with those of these rings, unless they pass the limit.
fn points_with(before: usize, rings: &Rings) -> Option<usize>
    requires { before ≤ most_points }
    ensures count { MatchOption result (most_points < before + sum_by length (all_rings rings.now)) (λ points. points ≡ before + sum_by length (all_rings rings.now)) }
    ensures within { IfSome result (λ points. points ≤ most_points) }
{
    let mut points = before;
    for n in 0..rings.len() {
        let count = rings.ring(n).len();
        if count > MOST_POINTS - points {
            return None;
        }
        points += count;
    }
    Some(points)
}

impl Layer {
    /// No features.
    pub fn new(alloc: Global) -> Layer
        ensures { result ≡ [] }
    {
        Layer {
            features: Vec::new(alloc),
            points: 0,
        }
    }

    /// Whether the layer has as many features as it may.
    pub fn is_full(&self) -> bool
        ensures { result ≡ nat_le most_features (length self.now) }
    {
        self.features.len() >= MOST_FEATURES
    }

    /// Whether the layer stays within its limit of ring points with this feature.
    pub fn has_room(&self, feature: &Feature) -> bool
        ensures { result ≡ nat_le (layer_points self.now + point_count feature.now) most_points }
    {
        points_with(self.points, feature.rings()).is_some()
    }

    /// Appends a feature. A refusal drops it, and leaves the layer as it was.
    pub fn add(&mut self, feature: Feature) -> Result<(), AllocError>
        requires few_features { length self.old < most_features }
        requires few_points { layer_points self.old + point_count feature ≤ most_points }
        ensures ok { OnOk result (self.new ≡ self.old ++ feature ∷ []) }
        ensures err { OnErr result (self.new ≡ self.old) }
    {
        let points = points_with(self.points, feature.rings()).unwrap();
        self.features.push(feature)?;
        self.points = points;
        Ok(())
    }

    /// How many features there are.
    pub fn len(&self) -> usize
        ensures { result ≡ length self.now }
    {
        self.features.len()
    }

    /// How many written ring points the features have together.
    pub fn points(&self) -> usize
        ensures { result ≡ layer_points self.now }
    {
        self.points
    }

    /// Feature n.
    pub fn feature(&self, n: usize) -> &Feature
        requires { n < length self.now }
        ensures { slice_get self.now n ≡ Some result.now }
    {
        &self.features[n]
    }

    /// All features.
    pub fn features(&self) -> &[Feature]
        ensures value { result.now ≡ self.now }
        ensures within { IsLayer result.now }
    {
        self.features.as_slice()
    }

    /// A copy of the id of each feature, in order.
    pub fn ids(&self, alloc: Global) -> Result<Vec<Vec<u8>>, AllocError>
        ensures value { IfOk result (λ ids. map (λ id. id.items) ids.items ≡ map (λ (f : FeatureOf). f.id) self.now) }
        ensures few { IfOk result (λ ids. length ids.items ≤ most_features) }
    {
        let mut ids = Vec::with_capacity(alloc, self.features.len())?;
        for feature in self.features() {
            ids.push(Vec::from_slice(alloc, feature.id())?)?;
        }
        Ok(ids)
    }

    /// The id of each feature, in order. The rings are let go.
    pub fn into_ids(self, alloc: Global) -> Result<Vec<Vec<u8>>, AllocError>
        ensures value { IfOk result (λ ids. map (λ id. id.items) ids.items ≡ map (λ (f : FeatureOf). f.id) self) }
        ensures few { IfOk result (λ ids. length ids.items ≤ most_features) }
    {
        let mut ids = Vec::with_capacity(alloc, self.features.len())?;
        for feature in self.features {
            ids.push(feature.into_id())?;
        }
        Ok(ids)
    }

    /// The features whose flag is true, and the others, each in order.
    pub fn parted(self, alloc: Global, keep: &[bool]) -> Result<(Layer, Layer), AllocError>
        requires { length keep.now ≡ length self }
        ensures kept { IfOk result (λ both. both.0 ≡ flagged keep.now self) }
        ensures others { IfOk result (λ both. both.1 ≡ unflagged keep.now self) }
    {
        let mut kept = Layer::new(alloc);
        let mut others = Layer::new(alloc);
        for feature in self.features {
            if keep[kept.len() + others.len()] {
                kept.add(feature)?;
            } else {
                others.add(feature)?;
            }
        }
        Ok((kept, others))
    }
}
