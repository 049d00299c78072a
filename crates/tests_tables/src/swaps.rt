//! Cells that were swapped under their locks.

use tests_play_tables::swaps::names_swapped_cells;

#[test]
fn swapped_cells_are_noticed(rt: HostRuntime) {
    assert!(rt; names_swapped_cells(&rt, rt.alloc()) == Some(true));
}
