// Dissolved groups as values.

ghost use Rattle.std.specs.Prelude.{◌≡◌};

use loc_geom::Point;
use std::marker::Model;

/// The corners of a cycle, from its leader on: the first is not said again at the end.
#[derive(Drop)]
pub struct Ring {
    corners: Vec<Point>,
}

impl Model for Ring {
    ghost use Rattle.loc_spec_plane.specs.Rings.{Ring as RingOf};

    ghost Value = { RingOf };

    ghost view = { λ r. r.corners.items };
}

impl Ring {
    // The ring of these corners.
    pub(crate) fn of(corners: Vec<Point>) -> Ring
        ensures { result ≡ corners.items }
    {
        Ring { corners }
    }

    /// The corners in order.
    pub fn corners(&self) -> &[Point]
        ensures { result.now ≡ self.now }
    {
        self.corners.as_slice()
    }
}

/// A face: its exterior, and then its holes.
#[derive(Drop)]
pub struct Polygon {
    rings: Vec<Ring>,
}

impl Model for Polygon {
    ghost use Rattle.loc_spec_plane.specs.Rings.{Rings};

    ghost Value = { Rings };

    ghost view = { λ p. p.rings.items };
}

impl Polygon {
    // The polygon of these rings.
    pub(crate) fn of(rings: Vec<Ring>) -> Polygon
        ensures { result ≡ rings.items }
    {
        Polygon { rings }
    }

    /// The rings, the exterior first.
    pub fn rings(&self) -> &[Ring]
        ensures { result.now ≡ self.now }
    {
        self.rings.as_slice()
    }
}

/// The features of one id as the polygons that they cover together.
#[derive(Drop)]
pub struct Group {
    id: Vec<u8>,
    polygons: Vec<Polygon>,
}

impl Model for Group {
    ghost use Rattle.loc_spec_groups.specs.Groups.{Group as GroupOf};

    ghost Value = { GroupOf };

    ghost view = { λ g. record { id = g.id.items; polygons = g.polygons.items } };
}

impl Group {
    // The group with this id and these polygons.
    pub(crate) fn of(id: Vec<u8>, polygons: Vec<Polygon>) -> Group
        ensures { result ≡ record { id = id.items; polygons = polygons.items } }
    {
        Group { id, polygons }
    }

    /// The bytes of the id.
    pub fn id(&self) -> &[u8]
        ensures { result.now ≡ self.now.id }
    {
        self.id.as_slice()
    }

    /// The polygons, by their faces.
    pub fn polygons(&self) -> &[Polygon]
        ensures { result.now ≡ self.now.polygons }
    {
        self.polygons.as_slice()
    }
}

/// The groups of a layer, in the order of their first features.
#[derive(Drop)]
pub struct Dissolved {
    groups: Vec<Group>,
}

impl Model for Dissolved {
    ghost use Rattle.std.specs.Prelude.{List};
    ghost use Rattle.loc_spec_groups.specs.Groups.{Group as GroupOf};

    ghost Value = { List GroupOf };

    ghost view = { λ d. d.groups.items };
}

impl Dissolved {
    // These groups.
    pub(crate) fn of(groups: Vec<Group>) -> Dissolved
        ensures { result ≡ groups.items }
    {
        Dissolved { groups }
    }

    /// The groups in order.
    pub fn groups(&self) -> &[Group]
        ensures { result.now ≡ self.now }
    {
        self.groups.as_slice()
    }
}
