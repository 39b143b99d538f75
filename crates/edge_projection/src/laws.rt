//! What is true of the definitions alone. The calls do nothing.

ghost use Rattle.std.specs.Prelude.{◌≡◌, ◌+◌, ◌*◌, ◌^◌, ◌<◌, ◌≤◌, ℕ, ℤ, List, Ok, Err, true, false, length, All};
ghost use Rattle.fixed_num.specs.Numbers.{IsValue};
ghost use Rattle.mesh_data.specs.Points.{IsPoint};
ghost use Rattle.waveform.specs.declared.field.Field.{Field};
ghost use Rattle.waveform.specs.Between.{IsBetween};
ghost use Rattle.edge_projection.specs.declared.edge.Edge.{Edge};
ghost use Rattle.edge_projection.specs.declared.edge.Foot.{Foot};
ghost use Rattle.edge_projection.specs.Offsets.{square_off};
ghost use Rattle.edge_projection.specs.NearestFoot.{IsFoot, nearest_foot};
ghost use Rattle.edge_projection.specs.EdgeMapping.{EdgeMapping, IsEdgeMapping};
ghost use Rattle.edge_projection.specs.MappedField.{mapped_component, mapped_values, mapped_field, component_of, foot_number, total_of};
ghost use Rattle.edge_projection.specs.Overflows.{IsFirstOverflow};

/// A point has no other foot than the one that the definition finds by trying every weight of every
/// candidate.
pub fn one_foot()
    ensures { (mesh : List (List ℤ)) (edges : List Edge) (point : List ℤ) (foot : Foot)
        → IsFoot mesh edges point foot → foot ≡ nearest_foot mesh edges point }
{}

/// A square distance between points of a space is at most 4.8·10^37, which is within a `u128`.
pub fn squares_fit()
    ensures { (dimensions m : ℕ) (p a b : List ℤ) → dimensions ≤ 3 → m ≤ 10 ^ 6
        → IsPoint dimensions p → IsPoint dimensions a → IsPoint dimensions b
        → square_off m p a b ≤ 48 * 10 ^ 36 }
{}

/// A field that is mapped by a conservative mapping is undefined at the first place whose whole sum
/// is no Value; where it is defined, all sums are Values. A consistent mapping sums nothing, and what
/// it maps is always defined.
pub fn undefined_at_the_first_overflow()
    ensures undefined { (m : EdgeMapping) (field : Field) (v c : ℕ) → mapped_field m field ≡ Err (v, c)
        → IsFirstOverflow m field v c }
    ensures defined { (m : EdgeMapping) (field out : Field) (v c : ℕ) → m.conservative ≡ true
        → mapped_field m field ≡ Ok out → v < m.targets → c < field.components
        → IsValue (mapped_component m field (v, c)) }
    ensures consistent { (m : EdgeMapping) (field : Field) → m.conservative ≡ false → mapped_field m field
        ≡ Ok (record { components = field.components; values = mapped_values m field }) }
{}

/// A conservative mapping keeps the sum of each component over all vertices.
pub fn conservative_keeps_totals()
    ensures { (m : EdgeMapping) (field out : Field) (c : ℕ)
        → IsEdgeMapping m → m.conservative ≡ true
        → mapped_field m field ≡ Ok out → c < field.components
        → total_of out m.targets c ≡ total_of field m.sources c }
{}

/// What a consistent mapping gives lies between the values at the ends of the foot.
pub fn consistent_lies_between()
    ensures { (m : EdgeMapping) (field out : Field) (v c : ℕ)
        → IsEdgeMapping m → m.conservative ≡ false
        → mapped_field m field ≡ Ok out → v < m.targets → c < field.components
        → IsBetween (component_of field (foot_number m.feet v).a c)
        (component_of field (foot_number m.feet v).b c) (component_of out v c) }
{}
