//! What is true of the definitions alone.

ghost use Rattle.std.specs.Prelude.{◌≡◌, [], ◌∷◌, map};
ghost use Rattle.toml.specs.Data.{Members};
ghost use Rattle.cpl_tables.specs.Words.{words_of};
ghost use Rattle.cpl_tables.specs.declared.word_lists.WordList.TheVariants.{WindowMethod, DataKind, Direction, Constraint, MapMethod, ActionKind, SchemeKind, MeasureKind, AccelerationKind};
ghost use Rattle.cpl_rules.specs.SeenTables.{config_top};
ghost use Rattle.cpl_rules.specs.Refused.{IsInOrder};
ghost use Rattle.cpl_config.specs.declared.kind_words.WindowWord.TheVariants.{Fixed, FirstParticipant};
ghost use Rattle.cpl_config.specs.declared.kind_words.DataKind.TheVariants.{Scalar, Vector};
ghost use Rattle.cpl_config.specs.declared.kind_words.Direction.TheVariants.{Read, Write};
ghost use Rattle.cpl_config.specs.declared.kind_words.Constraint.TheVariants.{Consistent, Conservative};
ghost use Rattle.cpl_config.specs.declared.kind_words.MapWord.TheVariants.{NearestNeighbor, NearestProjection};
ghost use Rattle.cpl_config.specs.declared.kind_words.ActionWord.TheVariants.{Summation};
ghost use Rattle.cpl_config.specs.declared.kind_words.KindWord.TheVariants.{SerialExplicit, ParallelExplicit, SerialImplicit, ParallelImplicit, Multi};
ghost use Rattle.cpl_config.specs.declared.kind_words.MeasureWord.TheVariants.{Absolute, Relative, ResidualRelative};
ghost use Rattle.cpl_config.specs.declared.kind_words.AccelWord.TheVariants.{Constant, Aitken};
ghost use Rattle.cpl_config.specs.ConfigOf.{window_method_of, data_kind_of, direction_of, constraint_of, map_method_of, action_kind_of, scheme_kind_of, measure_kind_of, acceleration_kind_of, config_of};
ghost use Rattle.cpl_config.specs.SoundConfig.{IsSoundConfig};

/// A file whose tables break no rule means a sound configuration: all its names, numbers and lists
/// are within their ranges and limits. A law, which the prover checks; the call does nothing.
pub fn tree_without_fault_is_sound()
    ensures { (tree : Members) → IsInOrder (config_top tree) → IsSoundConfig (config_of tree) }
{}

/// Each word that is listed for a key has a meaning of its own, which is the one of its name; what is
/// left out means the first method of windows and of mappings. A law, which the prover checks; the
/// call does nothing.
pub fn words_have_their_meanings()
    ensures window_methods { map window_method_of (words_of WindowMethod) ≡ Fixed ∷ FirstParticipant ∷ [] }
    ensures data_kinds { map data_kind_of (words_of DataKind) ≡ Scalar ∷ Vector ∷ [] }
    ensures directions { map direction_of (words_of Direction) ≡ Read ∷ Write ∷ [] }
    ensures constraints { map constraint_of (words_of Constraint) ≡ Consistent ∷ Conservative ∷ [] }
    ensures map_methods { map map_method_of (words_of MapMethod) ≡ NearestNeighbor ∷ NearestProjection ∷ [] }
    ensures action_kinds { map action_kind_of (words_of ActionKind) ≡ Summation ∷ [] }
    ensures scheme_kinds { map scheme_kind_of (words_of SchemeKind) ≡ SerialExplicit ∷ ParallelExplicit ∷ SerialImplicit ∷ ParallelImplicit ∷ Multi ∷ [] }
    ensures measure_kinds { map measure_kind_of (words_of MeasureKind) ≡ Absolute ∷ Relative ∷ ResidualRelative ∷ [] }
    ensures acceleration_kinds { map acceleration_kind_of (words_of AccelerationKind) ≡ Constant ∷ Aitken ∷ [] }
    ensures left_out { (window_method_of [] ≡ Fixed) × (map_method_of [] ≡ NearestNeighbor) }
{}
