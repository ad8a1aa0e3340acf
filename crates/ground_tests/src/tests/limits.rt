//! The numbers again, as the language's tables of limits tell them.
use k42_limits::*;

#[test]
fn limits_of_a_system(rt: HostRuntime) {
    assert_eq!(rt; PROCESSORS, 8);
    assert_eq!(rt; OBJECTS, 16);
    assert_eq!(rt; CALLERS, 16);
    // 2^20 incarnations, counted from 0
    assert_eq!(rt; LAST_INCARNATION, (1 << 20) - 1);
}

#[test]
fn limits_of_a_pass(rt: HostRuntime) {
    assert_eq!(rt; PASS_ENTRIES, 1 << 58);
    assert_eq!(rt; PASS_GRACES, 1 << 27);
    // as many as sixteen passes draw
    assert_eq!(rt; LAST_STAMP, 1 << 62);
}

#[test]
fn limits_of_words_and_numbers(rt: HostRuntime) {
    assert_eq!(rt; PAGES, 1_024);
    assert_eq!(rt; AMOUNTS, 1 << 32);
    assert_eq!(rt; NAME_BYTES, 16);
    assert_eq!(rt; TEXT_BYTES, 32);
}

#[test]
fn limits_of_texts(rt: HostRuntime) {
    assert_eq!(rt; CALL_LINES, 65_536);
    assert_eq!(rt; SCRIPT_BYTES, 1 << 20);
    assert_eq!(rt; INPUT_BYTES, 16 << 20);
    assert_eq!(rt; LINE_FEED, 10);
    assert_eq!(rt; SPACE, 32);
}
