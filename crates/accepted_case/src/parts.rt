use case_files::CaseFile;
use cpl_config::Config;
use cpl_rules::Refusal;
use fixed_num::{Items, Name};

/// A coupling whose files are accepted: its configuration, and the case file of each participant,
/// in the order of the participants.
#[derive(Debug, Drop)]
pub struct AcceptedCase {
    pub config: Config,
    pub cases: Items<CaseFile>,
}

/// Why the files of a coupling are refused.
#[derive(Debug, Drop)]
pub struct RefusedCase {
    /// The first broken rule, at the first place that breaks it.
    pub refusal: Refusal,
    /// The name of the participant whose case file that is; empty for a place in the configuration.
    pub name: Name,
}
