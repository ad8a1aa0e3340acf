//! Names and texts, entries, and in which order the maps of one thread show what they hold.
use k42_kinds::{Act, Answer, DirectoryState, Entry, Name, Op, Page, PagesState, Reply, Text, To};
use std::test::Fail;

mod layouts;
mod plain;

#[test]
fn a_name_has_1_to_16_bytes_and_begins_with_a_letter(rt: HostRuntime) {
    let names: [&[u8]; 4] = [b"a", b"z_9", b"procs", b"abcdefghijklmnop"];
    for bytes in names {
        assert!(rt; Name::of(bytes).is_some(), "{bytes:?}");
    }
    let others: [&[u8]; 7] = [b"", b"9a", b"_a", b"A", b"aB", b"a b", b"abcdefghijklmnopq"];
    for bytes in others {
        assert!(rt; Name::of(bytes).is_none(), "{bytes:?}");
    }
}

#[test]
fn names_are_ordered_by_their_bytes(rt: HostRuntime) -> Result<(), Fail> {
    let pairs: [(&[u8], &[u8]); 4] = [(b"a", b"ab"), (b"a9", b"a_"), (b"a_", b"aa"), (b"az", b"b")];
    for (low, high) in pairs {
        let low = Name::of(low).ok_or("no name")?;
        let high = Name::of(high).ok_or("no name")?;
        assert!(rt;
            low < high && low == low && low != high,
            "{low:?} and {high:?}"
        );
    }
    Ok(())
}

#[test]
fn a_text_has_1_to_32_visible_bytes(rt: HostRuntime) {
    let texts: [&[u8]; 4] = [b"!", b"~", b"#A_9", b"abcdefghijklmnopqrstuvwxyz012345"];
    for bytes in texts {
        assert!(rt; Text::of(bytes).is_some(), "{bytes:?}");
    }
    let others: [&[u8]; 5] = [
        b"",
        b"a b",
        b"\x7f",
        b"\xe9",
        b"abcdefghijklmnopqrstuvwxyz0123456",
    ];
    for bytes in others {
        assert!(rt; Text::of(bytes).is_none(), "{bytes:?}");
    }
}

// All entries are kept until a system is closed.
const _: () = prove!(size_of::<Entry<Op, Reply>>() == 144);

#[test]
fn an_entry_stands_behind_the_others(rt: HostRuntime) -> Result<(), Fail> {
    let mut entries: Vec<Entry<Op, Reply>> = Vec::new(rt.alloc());
    for stamp in [1, 2, 3] {
        let entry = Entry {
            stamp,
            index: 0,
            caller: 0,
            object: 0,
            incarnation: 0,
            cell: 0,
            act: Act::Swap(To::Dead),
            answer: Answer::Gone,
            proc: 0,
            generation: None,
        };
        entry.push_onto(&mut entries)?;
    }
    assert!(rt; entries.iter().map(|entry| entry.stamp).eq([1, 2, 3]));
    Ok(())
}

#[test]
fn a_directory_shows_names_in_the_order_of_their_bytes(rt: HostRuntime) -> Result<(), Fail> {
    let texts: [&[u8]; 4] = [b"b", b"a_", b"aa", b"a"];
    let mut places = DirectoryState::new(rt.alloc());
    for (place, bytes) in texts.iter().enumerate() {
        places.insert(&Name::of(bytes).ok_or("no name")?, place as u64)?;
    }
    let in_order: [u64; 4] = [3, 1, 2, 0];
    assert!(rt; places.iter().map(|(_, place)| *place).eq(in_order));
    Ok(())
}

#[test]
fn pages_show_in_the_order_of_their_numbers(rt: HostRuntime) -> Result<(), Fail> {
    let text = Text::of(b"hi").ok_or("no text")?;
    let dirty = true;
    let page = Page { text, dirty };
    let mut pages = PagesState::new(rt.alloc());
    for number in [1023, 5, 0] {
        pages.insert(number, &page)?;
    }
    let in_order: [u16; 3] = [0, 5, 1023];
    assert!(rt; pages.iter().map(|(number, _)| *number).eq(in_order));
    assert_eq!(rt; pages.dirty(), 3);
    Ok(())
}
