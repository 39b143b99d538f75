ghost use Rattle.std.specs.Prelude.{◌≡◌, ◌≤◌};
ghost use Rattle.cpl_tables.specs.Places.{place_in, in_config, in_participant, in_scheme, number_at};

use crate::kinds::TableKind;

/// Where in a configuration or its case files a table stands. Numbers count from 1; a
/// participant's or scheme's number stands before that of its entry. Refusals look for the first
/// place in the order in which the kinds are listed here, each participant and scheme followed by
/// its own entries.
#[derive(Clone, Copy, Debug, PartialEq, Eq)]
pub enum Place {
    Config,
    DataTable(u32),
    MeshTable(u32),
    Participant(u32),
    Receives(u32, u32),
    Write(u32, u32),
    Read(u32, u32),
    Map(u32, u32),
    Watch(u32, u32),
    Action(u32, u32),
    Scheme(u32),
    Exchange(u32, u32),
    Measure(u32, u32),
    Acceleration(u32),
    /// All tables of the case file of the participant with this number.
    Case(u32),
}

impl Place {
    /// The place of a table of this kind, with this number among its kind, in the table at this
    /// place.
    pub fn place_in(self, kind: TableKind, number: u32) -> Place
        ensures { result ≡ place_in self kind number }
    {
        match self {
            Place::Config => in_config(kind, number),
            Place::Participant(part) => in_participant(part, kind, number),
            Place::Scheme(scheme) => in_scheme(scheme, kind, number),
            _ => self,
        }
    }
}

fn in_config(kind: TableKind, number: u32) -> Place
    ensures { result ≡ in_config kind number }
{
    match kind {
        TableKind::Data => Place::DataTable(number),
        TableKind::Mesh => Place::MeshTable(number),
        TableKind::Participant(_) => Place::Participant(number),
        TableKind::Scheme => Place::Scheme(number),
        _ => Place::Config,
    }
}

fn in_participant(part: u32, kind: TableKind, number: u32) -> Place
    ensures { result ≡ in_participant part kind number }
{
    match kind {
        TableKind::Receives => Place::Receives(part, number),
        TableKind::Write => Place::Write(part, number),
        TableKind::Read => Place::Read(part, number),
        TableKind::Map(_) => Place::Map(part, number),
        TableKind::Watch => Place::Watch(part, number),
        TableKind::Action => Place::Action(part, number),
        _ => Place::Participant(part),
    }
}

fn in_scheme(scheme: u32, kind: TableKind, number: u32) -> Place
    ensures { result ≡ in_scheme scheme kind number }
{
    match kind {
        TableKind::Exchange => Place::Exchange(scheme, number),
        TableKind::Measure => Place::Measure(scheme, number),
        TableKind::Acceleration => Place::Acceleration(scheme),
        _ => Place::Scheme(scheme),
    }
}

/// The number of an item of a list, from 1, by its index, from 0. No file of a mebibyte has more
/// items than a `u32` counts.
pub fn number_at(index: usize) -> u32
    ensures { result ≡ number_at index }
{
    match u32::try_from(index) {
        Ok(index) => index.saturating_add(1),
        Err(_) => u32::MAX,
    }
}
