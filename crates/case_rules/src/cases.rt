//! The rules on the case files of an accepted configuration.
ghost use Rattle.std.specs.Prelude.{◌≡◌, ◌*◌, ◌≤◌, false, nat_lt, length, sum_by, unsigned_abs};
ghost use Rattle.std.specs.List.{list_any};
ghost use Rattle.std.specs.Option.{option_map_or};
ghost use Rattle.std.specs.Str.{bytes_eq};
ghost use Rattle.cpl_config.specs.SoundConfig.{IsSoundConfig, IsSoundParticipant};
ghost use Rattle.case_files.specs.SoundCase.{IsSoundCaseFile};
ghost use Rattle.case_rules.specs.CaseRules.{vertices_of, case_mesh_called, suits_values, values_of, written_values, read_values, is_suited, is_unsuited, steps_in, makes_windows, takes_too_many_steps};

use crate::case_meshes::{case_mesh_called, suits_meshes, vertices_of};
use crate::solvers::{has_right_out, has_state, state_length, suits_solver};
use case_files::CaseFile;
use config_rules::components;
use cpl_config::{Config, DataEntry, PartTable, SchemeTable, WindowWord};
use fixed_num::Name;

/// The most steps that a window takes.
const MOST_STEPS: u128 = 1_024;

/// Whether a case file does not suit its participant: its meshes are not those that the participant
/// provides, each with either points or a line, some vertex and the mesh's dimensions; its state is
/// not told in one way; what is written does not fit the state; or its kind of solver asks
/// something else of the state and of what is read.
pub fn is_unsuited(config: &Config, part: &PartTable, case_file: &CaseFile) -> bool
    requires config { IsSoundConfig config.now }
    requires part { IsSoundParticipant part.now }
    requires case_file { IsSoundCaseFile case_file.now }
    ensures { result ≡ is_unsuited config.now part.now case_file.now }
{
    !is_suited(config, part, case_file)
}

fn is_suited(config: &Config, part: &PartTable, case_file: &CaseFile) -> bool
    requires config { IsSoundConfig config.now }
    requires part { IsSoundParticipant part.now }
    requires case_file { IsSoundCaseFile case_file.now }
    ensures { result ≡ is_suited config.now part.now case_file.now }
{
    suits_meshes(config, part, case_file)
        && suits_values(
            written_values(config, part, case_file),
            read_values(config, part, case_file),
            case_file,
        )
}

/// Whether the state of a case is told in one way, and so many written values and inputs suit it
/// and its solver.
fn suits_values(written: u64, inputs: u64, case_file: &CaseFile) -> bool
    ensures { result ≡ suits_values written inputs case_file.now }
{
    let size = state_length(case_file);
    has_state(case_file)
        && (has_right_out(size, written, &case_file.out)
            && suits_solver(case_file, size, written, inputs))
}

/// How many values the participant writes.
fn written_values(config: &Config, part: &PartTable, case_file: &CaseFile) -> u64
    requires config { IsSoundConfig config.now }
    requires part { IsSoundParticipant part.now }
    requires case_file { IsSoundCaseFile case_file.now }
    ensures { result ≡ written_values config.now part.now case_file.now }
{
    sum_values(config, case_file, part.write.as_slice())
}

/// How many values the participant reads.
fn read_values(config: &Config, part: &PartTable, case_file: &CaseFile) -> u64
    requires config { IsSoundConfig config.now }
    requires part { IsSoundParticipant part.now }
    requires case_file { IsSoundCaseFile case_file.now }
    ensures { result ≡ read_values config.now part.now case_file.now }
{
    sum_values(config, case_file, part.read.as_slice())
}

/// How many values the entries stand for.
fn sum_values(config: &Config, case_file: &CaseFile, entries: &[DataEntry]) -> u64
    requires config { IsSoundConfig config.now }
    requires case_file { IsSoundCaseFile case_file.now }
    requires few { length entries.now ≤ 64 }
    ensures { result ≡ sum_by (values_of config.now case_file.now) entries.now }
{
    let mut total = 0;
    'entries: for entry in entries {
        total += values_of(config, case_file, entry);
    }
    total
}

/// How many values an entry stands for: for each vertex of its mesh, as the case has it, the
/// components of its data; at most 30,000.
pub fn values_of(config: &Config, case_file: &CaseFile, entry: &DataEntry) -> u64
    requires config { IsSoundConfig config.now }
    requires case_file { IsSoundCaseFile case_file.now }
    ensures { result ≡ values_of config.now case_file.now entry.now }
{
    vertices_on(case_file, entry.mesh.as_str())
        * components(config, entry.mesh.as_str(), entry.data_name.as_str())
}

/// How many vertices the case's mesh of a name has; none where there is no such mesh.
fn vertices_on(case_file: &CaseFile, mesh: &str) -> u64
    ensures { result ≡ option_map_or vertices_of (case_mesh_called case_file.now mesh.now) 0 }
{
    match case_mesh_called(case_file, mesh) {
        Some(case_mesh) => vertices_of(case_mesh),
        None => 0,
    }
}

/// Whether a window takes more than 1,024 steps of the case's length; not asked of a participant
/// whose steps make the windows.
pub fn takes_too_many_steps(config: &Config, part: &PartTable, case_file: &CaseFile) -> bool
    requires { IsSoundCaseFile case_file.now }
    ensures { result ≡ takes_too_many_steps config.now part.now case_file.now }
{
    !makes_windows(config, part) && needs_more_steps(ticks_of_window(config), ticks_of(case_file))
}

/// Whether each step of a participant makes a window.
fn makes_windows(config: &Config, part: &PartTable) -> bool
    ensures { result ≡ makes_windows (config.now).window_method config.now part.now }
{
    match config.window_method {
        WindowWord::Fixed => false,
        WindowWord::FirstParticipant => is_a_first(part, config.scheme.as_slice()),
    }
}

/// Whether a participant is the first of one of these schemes.
fn is_a_first(part: &PartTable, schemes: &[SchemeTable]) -> bool
    ensures { result ≡ list_any (λ scheme. option_map_or (bytes_eq (part.now).name) scheme.first false) schemes.now }
{
    'schemes: for scheme in schemes {
        if is_named(part, &scheme.first) {
            return true;
        }
    }
    false
}

fn is_named(part: &PartTable, name: &Option<Name>) -> bool
    ensures { result ≡ option_map_or (bytes_eq (part.now).name) name.now false }
{
    match name {
        Some(told) => part.name.as_str() == told.as_str(),
        None => false,
    }
}

/// The length of a window.
fn ticks_of_window(config: &Config) -> u64
    ensures { result ≡ unsigned_abs (config.now).window }
{
    config.window.unsigned_abs()
}

/// The length of a step.
fn ticks_of(case_file: &CaseFile) -> u64
    ensures { result ≡ unsigned_abs (case_file.now).step }
{
    case_file.step.unsigned_abs()
}

/// Whether a window of so many ticks takes more than 1,024 steps of this length.
fn needs_more_steps(window: u64, step: u64) -> bool
    requires { 1 ≤ step }
    ensures { result ≡ nat_lt 1024 (steps_in window step) }
{
    end_before(window, step)
}

/// Whether 1,024 steps of this length end before a window of so many ticks does.
fn end_before(window: u64, step: u64) -> bool
    ensures { result ≡ nat_lt (1024 * step) window }
{
    MOST_STEPS * u128::from(step) < u128::from(window)
}
