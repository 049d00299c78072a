//! The types that hold rows, and a stock beside one of them.

use tests_play_tables::holders::agree;
use tests_play_tables::stocks::stock_agrees;

#[test]
fn both_holders_of_rows_agree(rt: HostRuntime) {
    assert!(rt; agree(rt.alloc()) == Some(true));
}

#[test]
fn a_stock_and_rows_by_key_agree(rt: HostRuntime) {
    assert!(rt; stock_agrees(rt.alloc()) == Some(true));
}
