use super::BASE;
use cpl_config::read_config;
use mesh_rules::entries::{EntrySpot, entries};
use std::alloc::{AllocError, Global};
use std::test::Fail;

const PLACES: &str = "Config;DataTable(1);DataTable(2);MeshTable(1);MeshTable(2);\
    Participant(1);Receives(1, 1);Write(1, 1);Read(1, 1);Map(1, 1);\
    Participant(2);Receives(2, 1);Write(2, 1);Read(2, 1);Map(2, 1);Watch(2, 1);\
    Scheme(1);Exchange(1, 1);Exchange(1, 2);Measure(1, 1);Acceleration(1);";

fn places(alloc: Global, spots: &[EntrySpot]) -> Result<String, AllocError> {
    let mut text = String::new(alloc);
    for spot in spots {
        let place = spot.place;
        text.push_str(format!(in alloc; "{place:?};")?.as_str())?;
    }
    Ok(text)
}

#[test]
fn entries_stand_in_the_order_of_their_places(rt: HostRuntime) -> Result<(), Fail> {
    let alloc = rt.alloc();
    let config = read_config(alloc, BASE.as_bytes())?;
    let spots = entries(alloc, &config)?;
    assert_eq!(rt; places(alloc, &spots)?.as_str(), PLACES);
    Ok(())
}
