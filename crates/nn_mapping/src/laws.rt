//! What is true of the definitions alone. The calls do nothing.

ghost use Rattle.std.specs.Prelude.{◌≡◌, ◌<◌, ℕ, ℤ, List, Ok, Err, true, false, length};
ghost use Rattle.fixed_num.specs.Numbers.{IsValue};
ghost use Rattle.waveform.specs.declared.field.Field.{Field};
ghost use Rattle.mesh_data.specs.Nearest.{IsNearest, nearest_vertex};
ghost use Rattle.nn_mapping.specs.Mapping.{Mapping, IsMapping};
ghost use Rattle.nn_mapping.specs.MappedField.{mapped_component, mapped_values, mapped_field, component_of, total_of};
ghost use Rattle.nn_mapping.specs.Overflows.{IsFirstOverflow};

/// A mesh with a vertex has exactly one nearest vertex to each point.
pub fn one_vertex_is_nearest()
    ensures found { (mesh : List (List ℤ)) (point : List ℤ) → 0 < length mesh
        → IsNearest mesh point (nearest_vertex mesh point) }
    ensures only { (mesh : List (List ℤ)) (point : List ℤ) (v : ℕ) → IsNearest mesh point v
        → nearest_vertex mesh point ≡ v }
{}

/// A field that is mapped by a conservative mapping is undefined at the first place whose whole sum
/// is no Value; where it is defined, all sums are Values. A consistent mapping sums nothing, and what
/// it maps is always defined.
pub fn undefined_at_the_first_overflow()
    ensures undefined { (m : Mapping) (field : Field) (v c : ℕ) → mapped_field m field ≡ Err (v, c)
        → IsFirstOverflow m field v c }
    ensures defined { (m : Mapping) (field out : Field) (v c : ℕ) → m.conservative ≡ true
        → mapped_field m field ≡ Ok out → v < m.targets → c < field.components
        → IsValue (mapped_component m field (v, c)) }
    ensures consistent { (m : Mapping) (field : Field) → m.conservative ≡ false → mapped_field m field
        ≡ Ok (record { components = field.components; values = mapped_values m field }) }
{}

/// A conservative mapping keeps the sum of each component over all vertices.
pub fn conservative_keeps_totals()
    ensures { (m : Mapping) (field out : Field) (c : ℕ)
        → IsMapping m → m.conservative ≡ true
        → mapped_field m field ≡ Ok out → c < field.components
        → total_of out m.targets c ≡ total_of field m.sources c }
{}

/// A consistent mapping keeps a component that is the same at all vertices.
pub fn consistent_keeps_constants()
    ensures { (m : Mapping) (field out : Field) (c : ℕ) (value : ℤ)
        → IsMapping m → m.conservative ≡ false
        → mapped_field m field ≡ Ok out → c < field.components
        → ((s : ℕ) → s < m.sources → component_of field s c ≡ value)
        → (v : ℕ) → v < m.targets → component_of out v c ≡ value }
{}
