//! Lists that mostly have a single element.

use tests_play_data::lists::first_failing;

/// No element, one, which stands in the list itself, and more.
static LISTS: [&[u8]; 4] = [&[], &[7], &[7, 8], &[7, 8, 9]];

#[test]
fn lists_have_what_they_are_made_of(rt: HostRuntime) {
    assert_eq!(rt; first_failing(rt.alloc(), &LISTS), None);
}
