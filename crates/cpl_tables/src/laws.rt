//! What the definitions of names and places amount to in other words. The prover checks the laws;
//! the calls do nothing.
ghost use Rattle.std.specs.Prelude.{◌≡◌, ◌≤◌, ℕ, List, [], ◌∷◌, length, IsTrue};
ghost use Rattle.std.specs.List.{AllByRecursion};
ghost use Rattle.cpl_tables.specs.declared.places.Place.{Place};
ghost use Rattle.cpl_tables.specs.Values.{is_name};
ghost use Rattle.cpl_tables.specs.PlaceOrder.{IsBefore};

/// A name has 1 to 64 bytes, each from 0x21 to 0x7E, and each such byte is a name by itself.
pub fn names_are_visible()
    ensures few { (text : List ℕ) → IsTrue (is_name text) → (1 ≤ length text) × (length text ≤ 64) }
    ensures visible { (text : List ℕ) → IsTrue (is_name text) → AllByRecursion (λ byte. (0x21 ≤ byte) × (byte ≤ 0x7E)) text }
    ensures each { (byte : ℕ) → 0x21 ≤ byte → byte ≤ 0x7E → IsTrue (is_name (byte ∷ [])) }
{}

/// A place comes before no place that comes before it, and not before itself; one that comes before
/// another comes before all that the other comes before.
pub fn places_are_ordered()
    ensures apart { (place : Place) → ¬ (IsBefore place place) }
    ensures onward { (first second third : Place) → IsBefore first second → IsBefore second third → IsBefore first third }
{}
