//! What an accepted configuration gives, entry by entry, and over the whole file.
ghost use Rattle.std.specs.Prelude.{ℕ, List, IsTrue, All};
ghost use Rattle.std.specs.Option.{IsSomeAnd};
ghost use Rattle.cpl_config.specs.declared.config.Config.{Config};
ghost use Rattle.cpl_config.specs.SoundConfig.{IsSoundConfig};
ghost use Rattle.mesh_rules.specs.Named.{is_data, is_mesh, is_participant, data_called, mesh_called, participant_called};
ghost use Rattle.mesh_rules.specs.OneTable.{IsOnlyData, IsOnlyMesh, IsOnlyParticipant};
ghost use Rattle.config_rules.specs.ConfigRules.{IsAccepted};
ghost use Rattle.config_laws.specs.FitMeshes.{HasEnd};
ghost use Rattle.config_laws.specs.FitNumbers.{HasTime, FewIterations};
ghost use Rattle.config_laws.specs.ToldOnce.{ReceivedOnce, ReadOnce, WrittenOnce, MappedOnce, TargetsOnce, ListedOnce, MetOnce, GroupedOnce};
ghost use Rattle.config_laws.specs.FitConfig.{FitMeshes, FitParticipants, FitReceived, FitWritten, FitRead, FitMaps, FitWatches, FitActions, FitSchemes, FitExchanges, FitMeasures, FitAccelerations, FitWindows, FitsTogether};

/// Each entry of an accepted configuration fits the rest of it. Where the steps of the first
/// participant are the windows, one serial-explicit scheme is all there is.
pub fn an_accepted_configuration_fits_together()
    ensures end { (config : Config) → IsAccepted config → HasEnd config }
    ensures meshes { (config : Config) → IsAccepted config → FitMeshes config }
    ensures participants { (config : Config) → IsAccepted config → FitParticipants config }
    ensures received { (config : Config) → IsAccepted config → FitReceived config }
    ensures written { (config : Config) → IsAccepted config → FitWritten config }
    ensures read { (config : Config) → IsAccepted config → FitRead config }
    ensures mapped { (config : Config) → IsAccepted config → FitMaps config }
    ensures watched { (config : Config) → IsAccepted config → FitWatches config }
    ensures acted { (config : Config) → IsAccepted config → FitActions config }
    ensures schemes { (config : Config) → IsAccepted config → FitSchemes config }
    ensures exchanged { (config : Config) → IsAccepted config → FitExchanges config }
    ensures measured { (config : Config) → IsAccepted config → FitMeasures config }
    ensures accelerated { (config : Config) → IsAccepted config → FitAccelerations config }
    ensures windows { (config : Config) → IsSoundConfig config → IsAccepted config → FitWindows config }
{}

/// That is all that acceptance says: where entries fit together the configuration is accepted.
pub fn what_fits_together_is_accepted()
    ensures { (config : Config) → FitsTogether config → IsAccepted config }
{}

/// The times and the numbers of windows and of iterations of an accepted configuration are within
/// their limits.
pub fn an_accepted_configuration_has_an_end()
    ensures time { (config : Config) → IsSoundConfig config → IsAccepted config → HasTime config }
    ensures iterations { (config : Config) → IsSoundConfig config → IsAccepted config → FewIterations config }
{}

/// In an accepted configuration no participant receives a mesh, reads data or maps twice, no data are
/// written in two entries of the file or are the target of two actions, no scheme lists a participant
/// twice, no two participants meet in two schemes, and none is in two implicit ones.
pub fn nothing_is_told_twice()
    ensures received { (config : Config) → IsAccepted config → ReceivedOnce config }
    ensures read { (config : Config) → IsAccepted config → ReadOnce config }
    ensures written { (config : Config) → IsAccepted config → WrittenOnce config }
    ensures mapped { (config : Config) → IsAccepted config → MappedOnce config }
    ensures targets { (config : Config) → IsAccepted config → TargetsOnce config }
    ensures listed { (config : Config) → IsSoundConfig config → IsAccepted config → ListedOnce config }
    ensures met { (config : Config) → IsAccepted config → MetOnce config }
    ensures grouped { (config : Config) → IsAccepted config → GroupedOnce config }
{}

/// In a sound configuration a declared name finds a table, which has the name, and no other table of
/// its kind has it.
pub fn a_declared_name_stands_for_one_table()
    ensures data_tables { (config : Config) (name : List ℕ) → IsSoundConfig config → IsTrue (is_data config name) → IsSomeAnd (data_called config name) (IsOnlyData config name) }
    ensures meshes { (config : Config) (name : List ℕ) → IsSoundConfig config → IsTrue (is_mesh config name) → IsSomeAnd (mesh_called config name) (IsOnlyMesh config name) }
    ensures participants { (config : Config) (name : List ℕ) → IsSoundConfig config → IsTrue (is_participant config name) → IsSomeAnd (participant_called config name) (IsOnlyParticipant config name) }
{}
