//! Which entries the words show, and which words are none.
use super::{Counted, LAWFUL, run, words_in};
use crate::program::view_main;
use crate::words::window_of;
use k42_input::Status;
use k42_io::MemSink;
use record_picture::Window;
use std::test::Fail;

const USAGE_LINE: &[u8] = b"usage: k42-view [FROM COUNT] < input > record.svg\n";

/// How a picture of the lawful record ends that shows no entry.
const EMPTY_END: &[u8] = b"<text class='v' x='8' y='20'>lawful 2</text>\n\
<rect class='l' width='100%' height='68' y='66'/><text x='8' y='92'>a</text><text x='8' y='107'>processor 0</text>\n\
</svg>\n";

/// How one ends that shows the second entry alone.
const SECOND_END: &[u8] = b"<text class='v' x='8' y='20'>lawful 2</text>\n\
<rect class='l' width='100%' height='68' y='66'/><text x='8' y='92'>a</text><text x='8' y='107'>processor 0</text>\n\
<g class='o0' transform='translate(130,71)'><title>2 a 5 hits get = 5 @0</title><use href='#box'/><text class='n' x='4' y='11'>hits</text><text class='k' x='142' y='11'>2</text><text x='4' y='26'>  get</text><text x='4' y='40'>= 5</text></g>\n\
</svg>\n";

#[test]
fn two_numbers_name_a_window(rt: HostRuntime) -> Result<(), Fail> {
    let cases = [
        ("", 0, 2_000),
        ("1 2000", 0, 2_000),
        ("2 1", 1, 1),
        ("4294967295 7", 4_294_967_294, 7),
    ];
    for (line, before, count) in cases {
        let words = words_in(rt.alloc(), line)?;
        let window = Window { before, count };
        assert_eq!(rt; window_of(&words), Some(window), "of {line}");
    }
    Ok(())
}

#[test]
fn other_words_read_nothing(rt: HostRuntime) -> Result<(), Fail> {
    let cases = [
        "5",
        "1 2001",
        "1 0",
        "0 5",
        "01 5",
        "1 05",
        "+1 5",
        "4294967296 5",
        "1 2 3",
        "one two",
    ];
    for line in cases {
        let words = words_in(rt.alloc(), line)?;
        let mut source = Counted { reads: 0 };
        let mut sink = MemSink::new(rt.alloc(), 4096, 4096, Vec::new(rt.alloc()))?;
        let status = view_main(rt.alloc(), &words, &mut source, &mut sink);
        assert_eq!(rt; status, Status::Usage, "of {line}");
        assert_eq!(rt; sink.taken(), USAGE_LINE, "of {line}");
        assert_eq!(rt; source.reads, 0, "of {line}");
    }
    Ok(())
}

#[test]
fn a_window_behind_the_last_entry_shows_no_box(rt: HostRuntime) -> Result<(), Fail> {
    let ran = run(rt.alloc(), "3 2000", LAWFUL)?;
    assert_eq!(rt; ran.status, Status::Ok);
    assert!(rt; ran.text.ends_with(EMPTY_END));
    Ok(())
}

#[test]
fn a_window_shows_the_entries_from_its_first_on(rt: HostRuntime) -> Result<(), Fail> {
    let ran = run(rt.alloc(), "2 5", LAWFUL)?;
    assert_eq!(rt; ran.status, Status::Ok);
    assert!(rt; ran.text.ends_with(SECOND_END));
    Ok(())
}
