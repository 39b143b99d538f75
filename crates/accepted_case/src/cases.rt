//! From the bytes of the case files to cases that are accepted.
ghost use Rattle.std.specs.Prelude.{◌≡◌, ◌≤◌, length, IfOk, All};
ghost use Rattle.cpl_config.specs.Answers.{Answers};
ghost use Rattle.cpl_config.specs.SoundConfig.{IsSoundConfig};
ghost use Rattle.case_files.specs.SoundCase.{IsSoundCaseFile};
ghost use Rattle.config_rules.specs.ConfigRules.{IsAccepted};
ghost use Rattle.case_rules.specs.CaseRules.{AreAccepted};
ghost use Rattle.accepted_case.specs.Acceptance.{each_read, cases_acceptance};
ghost use Rattle.accepted_case.specs.IsAcceptedCase.{AreReadCases};

use crate::push::push;
use case_files::{CaseFile, read_case};
use case_rules::check_cases;
use cpl_config::{Config, ConfigErr};
use fixed_num::Items;
use plan_order::PartId;
use std::alloc::Global;

/// The case files in these bytes, one for each participant of an accepted configuration, checked
/// with it.
pub fn accepted_cases(
    alloc: Global,
    config: &Config,
    files: &[Items<u8>],
) -> Result<Items<CaseFile>, ConfigErr>
    requires sound { IsSoundConfig config.now }
    requires kept { IsAccepted config.now }
    requires one_each { length files.now ≡ length (config.now).participant }
    ensures answer { Answers (cases_acceptance config.now files.now) result }
    ensures counted { IfOk result (λ cases. length cases ≡ length files.now) }
    ensures read { IfOk result (AreReadCases 0) }
    ensures sound { IfOk result (All IsSoundCaseFile) }
    ensures kept { IfOk result (AreAccepted config.now) }
{
    let cases = read_each(alloc, files)?;
    match check_cases(alloc, config, cases.as_slice()) {
        Ok(()) => Ok(cases),
        Err(error) => Err(error),
    }
}

/// The case files in these bytes, of which there are at most 64.
fn read_each(alloc: Global, files: &[Items<u8>]) -> Result<Items<CaseFile>, ConfigErr>
    requires { length files.now ≤ 64 }
    ensures answer { Answers (each_read 0 files.now) result }
    ensures counted { IfOk result (λ cases. length cases ≡ length files.now) }
    ensures sound { IfOk result (All IsSoundCaseFile) }
{
    let mut cases = Vec::new(alloc);
    'files: for (index, bytes) in files.iter().enumerate() {
        let case_file = read_case(alloc, index as PartId, bytes.as_slice())?;
        push(case_file, &mut cases)?;
    }
    Ok(Items::from_vec(cases))
}
