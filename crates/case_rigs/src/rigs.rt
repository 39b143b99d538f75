//! What each participant is run with.
ghost use Rattle.std.specs.Prelude.{◌≡◌, All, IfOk, length, map};
ghost use Rattle.std.specs.List.{AllZip, zip};
ghost use Rattle.cpl_config.specs.SoundConfig.{IsSoundConfig};
ghost use Rattle.case_files.specs.SoundCase.{IsSoundCaseFile};
ghost use Rattle.config_rules.specs.ConfigRules.{IsAccepted};
ghost use Rattle.case_rules.specs.CaseRules.{AreAccepted};
ghost use Rattle.case_rigs.specs.CaseRigs.{parts_of, own_rig, own_rig_of, case_rigs, MakesRig};

use crate::meshes::own_meshes;
use crate::solvers::own_solver;
use case_files::CaseFile;
use cpl_config::{Config, PartTable};
use data_actions::Summed;
use fixed_num::{Items, Memory};
use line_solvers::LineSolver;
use mesh_data::AnyMesh;
use std::alloc::Global;

/// What a participant is run with.
#[derive(Drop)]
pub struct CaseRig {
    /// Its own meshes: one for each that it provides, in that order, with the points of its case file.
    pub meshes: Items<AnyMesh>,
    /// The solver that its case file describes, which writes the sums of its actions too.
    pub solver: Summed<LineSolver>,
}

/// What the participants of an accepted case are run with, in their order. The only error is `Memory`.
///
/// The case is as `load_case` accepts it: a case file for each participant, all within their limits,
/// and no rule is broken.
pub fn rigs_of(alloc: Global, config: &Config, cases: &[CaseFile]) -> Result<Vec<CaseRig>, Memory>
    requires sound { IsSoundConfig config.now }
    requires kept { IsAccepted config.now }
    requires one_each { length cases.now ≡ length (config.now).participant }
    requires sound_cases { All IsSoundCaseFile cases.now }
    requires kept_by_cases { AreAccepted config.now cases.now }
    ensures rigs { IfOk result (λ rigs. map parts_of rigs.items ≡ case_rigs config.now cases.now) }
    ensures one_each { IfOk result (λ rigs. length rigs.items ≡ length (config.now).participant) }
{
    let rigs = rigs_for(alloc, config, config.participant.as_slice(), cases)?;
    Ok(rigs)
}

/// What these participants are run with by their cases.
fn rigs_for(
    alloc: Global,
    config: &Config,
    parts: &[PartTable],
    cases: &[CaseFile],
) -> Result<Vec<CaseRig>, Memory>
    requires sound { IsSoundConfig config.now }
    requires makes { AllZip (MakesRig config.now) parts.now cases.now }
    ensures { IfOk result (λ rigs. map parts_of rigs.items ≡ map (own_rig_of config.now) (zip parts.now cases.now)) }
{
    let mut rigs = Vec::with_capacity(alloc, parts.len())?;
    'parts: for (part, case_file) in parts.iter().zip(cases) {
        rigs.push(own_rig(alloc, config, part, case_file)?)?;
    }
    Ok(rigs)
}

/// What a participant is run with by its case.
fn own_rig(
    alloc: Global,
    config: &Config,
    part: &PartTable,
    case_file: &CaseFile,
) -> Result<CaseRig, Memory>
    requires sound { IsSoundConfig config.now }
    requires makes { MakesRig config.now part.now case_file.now }
    ensures { IfOk result (λ rig. parts_of rig ≡ own_rig config.now part.now case_file.now) }
{
    let meshes = own_meshes(alloc, config, part, case_file)?;
    let solver = own_solver(alloc, config, part, case_file)?;
    Ok(CaseRig { meshes, solver })
}
