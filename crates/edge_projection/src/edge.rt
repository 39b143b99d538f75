/// An edge of a mesh, between two of its vertices. They may be one.
#[derive(Clone, Copy, Debug, PartialEq, Eq)]
pub struct Edge {
    /// The vertex where it begins.
    pub a: u32,
    /// The vertex where it ends.
    pub b: u32,
}

/// The nearest point to a point, of those with a weight in millionths on an edge.
#[derive(Clone, Copy, Debug, PartialEq, Eq)]
pub struct Foot {
    /// The number of the edge; that of vertex v is v past the number of edges.
    pub number: u32,
    /// The vertex where the edge begins.
    pub a: u32,
    /// The vertex where it ends.
    pub b: u32,
    /// How far along the edge the foot is, in millionths of the way from a to b.
    pub weight: u32,
    /// The square of the distance from the point, in square millionths of a unit.
    pub square: u128,
}
