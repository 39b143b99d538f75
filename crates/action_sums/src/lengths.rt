ghost use Rattle.std.specs.Prelude.{◌≡◌, ◌≤◌, IfOk, sum};
ghost use Rattle.cpl_config.specs.SoundConfig.{IsSoundConfig, IsSoundParticipant};
ghost use Rattle.case_files.specs.SoundCase.{IsSoundCaseFile};
ghost use Rattle.case_rules.specs.CaseRules.{values_of};
ghost use Rattle.action_sums.specs.ActionSums.{written_lengths};

use case_files::CaseFile;
use case_rules::values_of;
use cpl_config::{Config, DataEntry, PartTable};
use fixed_num::Memory;
use std::alloc::Global;

/// How many values each write entry of a participant has by its case, in their order: for each
/// vertex of its mesh the components of its data. At most 1,920,000 together: 64 entries of 10,000
/// vertices with 3 components.
pub fn written_lengths(
    alloc: Global,
    config: &Config,
    part: &PartTable,
    case_file: &CaseFile,
) -> Result<Vec<u32>, Memory>
    requires config { IsSoundConfig config.now }
    requires part { IsSoundParticipant part.now }
    requires case_file { IsSoundCaseFile case_file.now }
    ensures lengths { IfOk result (λ made. made.items ≡ written_lengths config.now part.now case_file.now) }
    ensures few { IfOk result (λ made. sum made.items ≤ 1920000) }
{
    let mut lengths = Vec::new(alloc);
    'entries: for entry in part.write.as_slice() {
        lengths.push(length_of(config, case_file, entry))?;
    }
    Ok(lengths)
}

/// How many values an entry stands for.
fn length_of(config: &Config, case_file: &CaseFile, entry: &DataEntry) -> u32
    requires config { IsSoundConfig config.now }
    requires case_file { IsSoundCaseFile case_file.now }
    ensures { result ≡ values_of config.now case_file.now entry.now }
{
    values_of(config, case_file, entry) as u32
}
