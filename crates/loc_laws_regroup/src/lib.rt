//! What the text of dissolved groups reads as. The calls do nothing: their contracts are the laws.
#![tactic(auto)]

ghost use Rattle.loc_laws_regroup.specs.Laws.{AcceptedReads, DissolvedReads, GeometryReads, GridTextReads, GroupsAreOpen, LayerReads};

/// A printed grid value is a number text that reads as the value at the same scale.
pub fn number_law()
    ensures { GridTextReads }
{}

/// The written geometry of a group reads as its polygons, with each ring closed.
pub fn geometry_law()
    ensures { GeometryReads }
{}

/// The text of groups within the limits reads, in form csv at the same scale, as a layer with one feature for each group, with its id and its rings.
pub fn layer_law()
    ensures { LayerReads }
{}

/// Each polygon of a group has a ring, and each ring has three corners or more, so that closed it has four points.
pub fn polygons_law()
    ensures { GroupsAreOpen }
{}

/// The text of the groups of a layer within the limits reads, in form csv at the same scale, as one feature for each group, with its id and its rings.
pub fn dissolved_law()
    ensures table { DissolvedReads }
    ensures accepted { AcceptedReads }
{}
