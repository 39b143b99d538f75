//! The entries of a configuration in the order of their places, and the rules on names, meshes,
//! mappings, data and actions.
#![tactic(auto)]

pub mod actions;
pub mod declared_names;
pub mod end;
pub mod entries;
pub mod laws;
pub mod mappings;
pub mod meshes;
pub mod named;

pub use actions::is_wrong_action;
pub use declared_names::names_nothing;
pub use end::has_no_end;
pub use entries::{At, EntrySpot};
pub use laws::{
    each_table_is_found_by_its_name, entries_rise_with_their_places,
    entries_stand_where_their_tables_stand, name_stands_for_one_table,
};
pub use mappings::{is_unmapped, is_wrongly_mapped};
pub use meshes::{has_no_provider, is_off_mesh, is_written_twice, is_wrongly_received};
