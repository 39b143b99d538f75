//! From the files of a coupling to an accepted case: the configuration is loaded, read and checked;
//! then the case files of all participants are loaded, read and checked.
ghost use Rattle.std.specs.Prelude.{◌≡◌, ◌≤◌, ◌+◌, ℕ, List, Some, Ok, Err, map, length, take, IfOk, IsErrOf, IsTrue};
ghost use Rattle.io_edge.specs.FileMap.{FileMap};
ghost use Rattle.io_edge.specs.Rose.{Rose};
ghost use Rattle.cpl_config.specs.Answers.{Answers};
ghost use Rattle.cpl_config.specs.SoundConfig.{IsSoundConfig};
ghost use Rattle.config_rules.specs.ConfigRules.{IsAccepted};
ghost use Rattle.accepted_case.specs.Acceptance.{config_acceptance, case_names, after_config, files_acceptance};
ghost use Rattle.accepted_case.specs.Answers.{AnswersFiles};
ghost use Rattle.accepted_case.specs.declared.parts.RefusedCase.{RefusedCase};
ghost use Rattle.accepted_case.specs.IsAcceptedCase.{IsReadConfig, IsAcceptedCase};
ghost use Rattle.accepted_case.specs.Loaded.{cut_files_of};
ghost use Rattle.accepted_case.specs.MayLoad.{MayLoad, MayLoadNames};

use crate::case_err::CaseErr;
use crate::cases::accepted_cases;
use crate::parts::AcceptedCase;
use crate::push::push;
use crate::refused::{refused_config, refused_in};
use config_rules::check_config;
use cpl_config::read::MOST_BYTES;
use cpl_config::{Config, ConfigErr, PartTable, read_config};
use fixed_num::Items;
use io_edge::{Files, LoadErr};
use std::alloc::Global;

/// The bytes of a file, and of one with more than 1,048,576 bytes only the first 1,048,577, so that
/// its reader sees that it is too long.
pub fn load_bytes<F: Files>(alloc: Global, files: &mut F, name: &str) -> Result<Vec<u8>, LoadErr>
    requires { IsTrue (F.may_ask files.old name.now) }
    ensures loaded { IfOk result (λ bytes. (told : FileMap) → F.told files.old ≡ Some told →
        (file : List ℕ) × (told name.now ≡ Some file) × (bytes.items ≡ take (MOST_BYTES + 1) file)) }
    ensures failed { IsErrOf result LoadErr.Failed → Rose (F.faults files.old) (F.faults files.new) }
    ensures same_told { F.told files.new ≡ F.told files.old }
    ensures same_names { F.may_ask files.new ≡ F.may_ask files.old }
    ensures never_falls { F.faults files.old ≤ F.faults files.new }
{
    let mut bytes = Vec::new(alloc);
    files.load(name, MOST_BYTES, &mut bytes)?;
    Ok(bytes)
}

/// Loads the configuration of a name and the case files that it names, and accepts or refuses them.
///
/// The order is: load of the configuration; its rules, 1 to 30, 33 and 35; loads of the case files in
/// the order of the participants, where the first failure ends loading; the rules 1 to 8 on each case
/// file in that order; the rules 31 and 32 on all of them. Each load asks for at most 1,048,576 bytes,
/// so that one byte more shows a file that is too long.
pub fn load_case<F: Files>(
    alloc: Global,
    files: &mut F,
    name: &str,
) -> Result<AcceptedCase, CaseErr>
    requires may_load { MayLoad (F.told files.old) (F.may_ask files.old) name.now }

    // Where the files tell their bytes, the answer is what they are.
    ensures answer { (told : FileMap) → F.told files.old ≡ Some told → AnswersFiles (files_acceptance told name.now) result }
    ensures accepted { IfOk result IsAcceptedCase }
    ensures read_fault { IsErrOf result CaseErr.ReadFault → Rose (F.faults files.old) (F.faults files.new) }

    // What the files tell stays, and their count of faults does not fall.
    ensures same_told { F.told files.new ≡ F.told files.old }
    ensures same_names { F.may_ask files.new ≡ F.may_ask files.old }
    ensures never_falls { F.faults files.old ≤ F.faults files.new }
{
    let bytes = load_bytes(alloc, files, name)?;
    match accepted_config(alloc, bytes.as_slice()) {
        Ok(config) => load_cases(alloc, files, config),
        Err(ConfigErr::Refused(refusal)) => Err(CaseErr::Refused(refused_config(alloc, refusal))),
        Err(ConfigErr::Memory) => Err(CaseErr::Memory),
    }
}

/// The configuration in the bytes of its file, checked as a whole.
fn accepted_config(alloc: Global, bytes: &[u8]) -> Result<Config, ConfigErr>
    ensures answer { Answers (config_acceptance bytes.now) result }
    ensures read { IfOk result IsReadConfig }
    ensures sound { IfOk result IsSoundConfig }
    ensures kept { IfOk result IsAccepted }
{
    let config = read_config(alloc, bytes)?;
    match check_config(alloc, &config) {
        Ok(()) => Ok(config),
        Err(error) => Err(error),
    }
}

/// Loads the case files of an accepted configuration, and accepts or refuses them.
fn load_cases<F: Files>(
    alloc: Global,
    files: &mut F,
    config: Config,
) -> Result<AcceptedCase, CaseErr>
    requires read { IsReadConfig config }
    requires sound { IsSoundConfig config }
    requires kept { IsAccepted config }
    requires may_load { MayLoadNames (F.told files.old) (F.may_ask files.old) (case_names config) }
    ensures answer { (told : FileMap) → F.told files.old ≡ Some told → AnswersFiles (after_config told (Ok config)) result }
    ensures accepted { IfOk result IsAcceptedCase }
    ensures read_fault { IsErrOf result CaseErr.ReadFault → Rose (F.faults files.old) (F.faults files.new) }
    ensures same_told { F.told files.new ≡ F.told files.old }
    ensures same_names { F.may_ask files.new ≡ F.may_ask files.old }
    ensures never_falls { F.faults files.old ≤ F.faults files.new }
{
    let loaded = load_each(alloc, files, config.participant.as_slice())?;
    match accepted_cases(alloc, &config, loaded.as_slice()) {
        Ok(cases) => Ok(AcceptedCase { config, cases }),
        Err(ConfigErr::Refused(refusal)) => {
            Err(CaseErr::Refused(refused_in(alloc, &config, refusal)?))
        }
        Err(ConfigErr::Memory) => Err(CaseErr::Memory),
    }
}

/// The bytes of the case file of each participant.
fn load_each<F: Files>(
    alloc: Global,
    files: &mut F,
    parts: &[PartTable],
) -> Result<Items<Items<u8>>, CaseErr>
    requires { MayLoadNames (F.told files.old) (F.may_ask files.old) (map (λ part. part.case) parts.now) }
    ensures loaded { IfOk result (λ loaded. (told : FileMap) → F.told files.old ≡ Some told →
        cut_files_of told (map (λ part. part.case) parts.now) ≡ Some loaded) }
    ensures counted { IfOk result (λ loaded. length loaded ≡ length parts.now) }
    ensures read_fault { IsErrOf result CaseErr.ReadFault → Rose (F.faults files.old) (F.faults files.new) }
    ensures unrefused { (refused : RefusedCase) → ¬ (result ≡ Err (CaseErr.Refused refused)) }
    ensures same_told { F.told files.new ≡ F.told files.old }
    ensures same_names { F.may_ask files.new ≡ F.may_ask files.old }
    ensures never_falls { F.faults files.old ≤ F.faults files.new }
{
    let mut loaded = Vec::new(alloc);
    'parts: for part in parts {
        let bytes = load_bytes(alloc, files, part.case.as_str())?;
        push(Items::from_vec(bytes), &mut loaded)?;
    }
    Ok(Items::from_vec(loaded))
}
