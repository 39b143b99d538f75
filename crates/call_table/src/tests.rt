use crate::api_table;

/// Of each call the phases that allow it, from the first one on the left.
const ALLOWED: [u8; 18] = [
    0b1000000, // set_vertex
    0b1000000, // set_vertices
    0b1111111, // vertex_count
    0b1111111, // mesh_dimensions
    0b1111111, // data_dimensions
    0b1000000, // requires_initial_data
    0b0010100, // requires_writing_checkpoint
    0b0010100, // requires_reading_checkpoint
    0b0010100, // is_ongoing
    0b0010100, // is_window_complete
    0b0010100, // max_step
    0b0010000, // read_data
    0b1010000, // write_data
    0b1000000, // begin_initialize
    0b0010000, // begin_advance
    0b1010101, // begin_finalize
    0b1111000, // stop
    0b0101000, // try_poll
];

#[test]
fn every_call_in_every_phase(rt: HostRuntime) {
    let table = api_table();
    for cell in 0..126 {
        let (call, phase) = (cell / 7, cell % 7);
        let wanted = ALLOWED[call] >> (6 - phase) & 1 == 1;
        assert_eq!(rt;
            table.verdict(call, phase),
            wanted,
            "call {call}, phase {phase}"
        );
    }
}
