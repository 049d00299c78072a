//! The slots of the dictionary of server names.

use tests_play_data::slots::is_copied;

#[test]
fn a_copy_is_equal(rt: HostRuntime) {
    assert!(rt; is_copied(rt.alloc()) == Some(true));
}
