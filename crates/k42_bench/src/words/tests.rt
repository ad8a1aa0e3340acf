//! Which words are numbers, and what the last word says.
use crate::words::{keep_and_block_of, number_of};
use co_system::Keep;

#[test]
fn a_number_has_no_sign_and_no_leading_zero(rt: HostRuntime) {
    let cases = [
        ("0", Some(0)),
        ("7", Some(7)),
        ("1048576", Some(1_048_576)),
        ("4294967295", Some(4_294_967_295)),
        ("4294967296", None),
        ("04", None),
        ("00", None),
        ("+4", None),
        ("-4", None),
        ("4x", None),
        ("", None),
    ];
    for (word, due) in cases {
        assert_eq!(rt; number_of(word), due);
    }
}

#[test]
fn entries_are_kept_and_an_activity_has_one_call_unless_the_last_words_say_else(rt: HostRuntime) {
    let cases: [(&[&str], Option<(Keep, u32)>); 8] = [
        (&[], Some((Keep::All, 1))),
        (&["keep"], Some((Keep::All, 1))),
        (&["unread"], Some((Keep::Sections, 1))),
        (&["none"], Some((Keep::Nothing, 1))),
        (&["none", "block"], Some((Keep::Nothing, 16))),
        (&["nothing"], None),
        (&["block"], None),
        (&["none", "none"], None),
    ];
    for (words, due) in cases {
        let mut given = Vec::new(rt.alloc());
        for word in words {
            let word = word.to_string(rt.alloc()).expect(&rt, "memory");
            given.push(word).expect(&rt, "memory");
        }
        assert!(rt; keep_and_block_of(given.as_slice()) == due);
    }
}
