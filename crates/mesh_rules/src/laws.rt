//! What is true of the definitions alone.
ghost use Rattle.std.specs.Prelude.{◌≡◌, ℕ, List, map, All, IfSome};
ghost use Rattle.toml.specs.Data.{Members};
ghost use Rattle.cpl_tables.specs.PlaceOrder.{AreRising};
ghost use Rattle.cpl_config.specs.declared.config.Config.{Config};
ghost use Rattle.cpl_rules.specs.SeenTables.{config_top, all_tables};
ghost use Rattle.cpl_rules.specs.Refused.{IsInOrder};
ghost use Rattle.cpl_config.specs.ConfigOf.{config_of};
ghost use Rattle.cpl_config.specs.SoundConfig.{IsSoundConfig};
ghost use Rattle.mesh_rules.specs.Entries.{entries_of};
ghost use Rattle.mesh_rules.specs.Named.{data_called, mesh_called, participant_called};
ghost use Rattle.mesh_rules.specs.OneTable.{IsOnlyData, IsOnlyMesh, IsOnlyParticipant, IsDataOfItsName, IsMeshOfItsName, IsParticipantOfItsName};

/// In a sound configuration, which each one is that is read from a file, what a name stands for has
/// the name, and no other table of its kind has it.
pub fn name_stands_for_one_table()
    ensures data_tables { (config : Config) (name : List ℕ) → IsSoundConfig config → IfSome (data_called config name) (IsOnlyData config name) }
    ensures meshes { (config : Config) (name : List ℕ) → IsSoundConfig config → IfSome (mesh_called config name) (IsOnlyMesh config name) }
    ensures participants { (config : Config) (name : List ℕ) → IsSoundConfig config → IfSome (participant_called config name) (IsOnlyParticipant config name) }
{}

/// In a sound configuration each table is what its name stands for.
pub fn each_table_is_found_by_its_name()
    ensures data_tables { (config : Config) → IsSoundConfig config → All (IsDataOfItsName config) config.data_list }
    ensures meshes { (config : Config) → IsSoundConfig config → All (IsMeshOfItsName config) config.mesh }
    ensures participants { (config : Config) → IsSoundConfig config → All (IsParticipantOfItsName config) config.participant }
{}

/// The entries of a sound configuration stand in the order of their places, no two at one place. So
/// the first entry that breaks a rule is the one at the least place.
pub fn entries_rise_with_their_places()
    ensures { (config : Config) → IsSoundConfig config → AreRising (map (λ entry. entry.place) (entries_of config)) }
{}

/// The entries of a configuration that was read from a file stand at the places of the file's tables,
/// one at each, in the same order, where no rule on tables is broken.
pub fn entries_stand_where_their_tables_stand()
    ensures { (tree : Members) → IsInOrder (config_top tree)
        → map (λ entry. entry.place) (entries_of (config_of tree)) ≡ map (λ seen. seen.place) (all_tables (config_top tree)) }
{}
