//! Reading a case file, whole.
ghost use Rattle.std.specs.Prelude.{◌≡◌, ◌+◌, ◌<◌, ◌^◌, length, nat_le, Some, IfOk};
ghost use Rattle.toml.specs.Parse.{parse_document};
ghost use Rattle.toml.specs.View.{table_view};
ghost use Rattle.cpl_tables.specs.declared.places.Place.{Place};
ghost use Rattle.cpl_rules.specs.declared.rules.Refusal.{Refusal};
ghost use Rattle.cpl_config.specs.Acceptance.{tree_of};
ghost use Rattle.cpl_config.specs.Answers.{Answers};
ghost use Rattle.case_files.specs.CaseAcceptance.{at_case, case_acceptance, case_acceptance_of_tree};
ghost use Rattle.case_files.specs.FirstCaseFault.{IsFirstCaseFault};
ghost use Rattle.case_files.specs.NoCaseFault.{HasNoCaseFault};
ghost use Rattle.case_files.specs.SoundCase.{IsSoundCaseFile};

use crate::case_file::CaseFile;
use cpl_config::ConfigErr;
use cpl_config::read::{MOST_BYTES, SIZE_RULE, TEXT_RULE};
use cpl_config::tables_of::FromTable;
use cpl_rules::{Refusal, TableSpot, first_refusal};
use cpl_tables::Place;
use plan_order::PartId;
use std::alloc::Global;
use toml::Table;

/// Reads the case file of a participant from its bytes.
///
/// The answer is the case, or the first broken rule of 1 to 8: 1 is for more than 1,048,576 bytes,
/// 2 for what TOML does not read, and 3 to 8 are the rules on tables. The place of each refusal is
/// the participant's case. Numbers are in units (millionths), times in ticks. `Memory` says nothing
/// of the file.
pub fn read_case(alloc: Global, part: PartId, bytes: &[u8]) -> Result<CaseFile, ConfigErr>
    requires { part < 64 }
    ensures answer { Answers (case_acceptance part bytes.now) result }
    ensures accepted { IfOk result IsSoundCaseFile }
    ensures unbroken { IfOk result (λ _. HasNoCaseFault part bytes.now) }
    ensures first { (refusal : Refusal) → result ≡ Err (ConfigErr.Refused refusal) → IsFirstCaseFault part bytes.now refusal }
    ensures place { (refusal : Refusal) → result ≡ Err (ConfigErr.Refused refusal) → refusal.place ≡ Place.Case (part + 1) }
{
    file_case(alloc, part, bytes)
}

/// The case in a file.
fn file_case(alloc: Global, part: PartId, bytes: &[u8]) -> Result<CaseFile, ConfigErr>
    requires { part < 64 }
    ensures { Answers (case_acceptance part bytes.now) result }
{
    if is_short_enough(bytes) {
        return short_case(alloc, part, bytes);
    }
    Err(refused_at_case(part, SIZE_RULE))
}

/// Whether a file has no more bytes than it may have.
fn is_short_enough(bytes: &[u8]) -> bool
    ensures { result ≡ nat_le (length bytes.now) (2 ^ 20) }
{
    bytes.len() <= MOST_BYTES
}

/// The case in a file that has not too many bytes.
fn short_case(alloc: Global, part: PartId, bytes: &[u8]) -> Result<CaseFile, ConfigErr>
    requires { part < 64 }
    ensures { Answers (case_acceptance_of_tree part (tree_of bytes.now)) result }
{
    match std::str::from_utf8(bytes) {
        Ok(text) => text_case(alloc, part, text),
        Err(_) => Err(refused_at_case(part, TEXT_RULE)),
    }
}

/// The case in a text.
fn text_case(alloc: Global, part: PartId, text: &str) -> Result<CaseFile, ConfigErr>
    requires { part < 64 }
    ensures { Answers (case_acceptance_of_tree part (parse_document text.now)) result }
{
    match toml::table_from_str(alloc, text) {
        Ok(table) => table_case(alloc, part, &table),
        Err(error) if error.is_memory() => Err(ConfigErr::Memory),
        Err(_) => Err(refused_at_case(part, TEXT_RULE)),
    }
}

/// The case that a table is.
fn table_case(alloc: Global, part: PartId, table: &Table) -> Result<CaseFile, ConfigErr>
    requires { part < 64 }
    ensures { Answers (case_acceptance_of_tree part (Some (table_view table.now))) result }
{
    match first_refusal(alloc, TableSpot::of_case(part + 1, table))? {
        Some(refusal) => Err(ConfigErr::Refused(refusal)),
        None => Ok(CaseFile::from_table(alloc, table)?),
    }
}

/// What is told where a participant's case file as a whole breaks a rule.
fn refused_at_case(part: PartId, rule: u8) -> ConfigErr
    requires { part < 64 }
    ensures { result ≡ ConfigErr.Refused (at_case part rule) }
{
    ConfigErr::Refused(Refusal {
        rule,
        place: Place::Case(part + 1),
    })
}
