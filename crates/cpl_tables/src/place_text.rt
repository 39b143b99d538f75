//! Places as text.
ghost use Rattle.std.specs.Prelude.{◌≡◌, ◌++◌, OnOk, OnErr, IfOk, codes};
ghost use Rattle.cpl_tables.specs.PlaceText.{numbered, of_participant, of_scheme, place_text};

use crate::places::Place;
use fixed_num::Memory;
use std::alloc::Global;

/// Appends a place as it is printed. The name is that of the participant whose case file it is, and
/// is printed for a place in a case file alone.
///
/// After [`Memory`], `to` is as before.
pub fn print_place(alloc: Global, place: Place, name: &str, to: &mut Vec<u8>) -> Result<(), Memory>
    ensures ok { OnOk result (to.new.items ≡ to.old.items ++ place_text name.now place) }
    ensures err { OnErr result (to.new.items ≡ to.old.items) }
{
    let text = text_of_place(alloc, place, name)?;
    to.extend_from_slice(text.as_slice())?;
    Ok(())
}

fn text_of_place(alloc: Global, place: Place, name: &str) -> Result<Vec<u8>, Memory>
    ensures { IfOk result (λ text. text.items ≡ place_text name.now place) }
{
    let mut text = Vec::new(alloc);
    push_place(alloc, place, name, &mut text)?;
    Ok(text)
}

/// Appends a place, or a part of it where memory is wanting.
fn push_place(alloc: Global, place: Place, name: &str, to: &mut Vec<u8>) -> Result<(), Memory>
    ensures { OnOk result (to.new.items ≡ to.old.items ++ place_text name.now place) }
{
    match place {
        Place::Config => push_words("config", to),
        Place::DataTable(n) => push_number(alloc, "data ", n, to),
        Place::MeshTable(n) => push_number(alloc, "mesh ", n, to),
        Place::Participant(n) => push_number(alloc, "participant ", n, to),
        Place::Receives(part, n) => push_of_participant(alloc, part, " receives ", n, to),
        Place::Write(part, n) => push_of_participant(alloc, part, " write ", n, to),
        Place::Read(part, n) => push_of_participant(alloc, part, " read ", n, to),
        Place::Map(part, n) => push_of_participant(alloc, part, " map ", n, to),
        Place::Watch(part, n) => push_of_participant(alloc, part, " watch ", n, to),
        Place::Action(part, n) => push_of_participant(alloc, part, " action ", n, to),
        Place::Scheme(n) => push_number(alloc, "scheme ", n, to),
        Place::Exchange(scheme, n) => push_of_scheme(alloc, scheme, " exchange ", n, to),
        Place::Measure(scheme, n) => push_of_scheme(alloc, scheme, " measure ", n, to),
        Place::Acceleration(scheme) => push_acceleration(alloc, scheme, to),
        Place::Case(_) => push_case(name, to),
    }
}

/// Appends words.
fn push_words(words: &str, to: &mut Vec<u8>) -> Result<(), Memory>
    ensures { OnOk result (to.new.items ≡ to.old.items ++ words.now) }
{
    to.extend_from_slice(words.as_bytes())?;
    Ok(())
}

/// Appends words and a number.
fn push_number(alloc: Global, words: &str, number: u32, to: &mut Vec<u8>) -> Result<(), Memory>
    ensures { OnOk result (to.new.items ≡ to.old.items ++ numbered words.now number) }
{
    let part = format!(in alloc; "{words}{number}")?;
    to.extend_from_slice(part.as_bytes())?;
    Ok(())
}

/// Appends the place of an entry of a participant.
fn push_of_participant(
    alloc: Global,
    part: u32,
    words: &str,
    number: u32,
    to: &mut Vec<u8>,
) -> Result<(), Memory>
    ensures { OnOk result (to.new.items ≡ to.old.items ++ of_participant part words.now number) }
{
    push_number(alloc, "participant ", part, to)?;
    push_number(alloc, words, number, to)?;
    Ok(())
}

/// Appends the place of an entry of a scheme.
fn push_of_scheme(
    alloc: Global,
    scheme: u32,
    words: &str,
    number: u32,
    to: &mut Vec<u8>,
) -> Result<(), Memory>
    ensures { OnOk result (to.new.items ≡ to.old.items ++ of_scheme scheme words.now number) }
{
    push_number(alloc, "scheme ", scheme, to)?;
    push_number(alloc, words, number, to)?;
    Ok(())
}

fn push_acceleration(alloc: Global, scheme: u32, to: &mut Vec<u8>) -> Result<(), Memory>
    ensures { OnOk result (to.new.items ≡ to.old.items ++ (numbered (codes "scheme ") scheme ++ codes " acceleration")) }
{
    push_number(alloc, "scheme ", scheme, to)?;
    push_words(" acceleration", to)?;
    Ok(())
}

fn push_case(name: &str, to: &mut Vec<u8>) -> Result<(), Memory>
    ensures { OnOk result (to.new.items ≡ to.old.items ++ (codes "case " ++ name.now)) }
{
    push_words("case ", to)?;
    push_words(name, to)?;
    Ok(())
}
