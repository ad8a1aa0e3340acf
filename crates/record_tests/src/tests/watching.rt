//! Records of watch, unwatch and seen, from their texts: what each line may answer.
use super::conditions::has_text;
use super::judging::{Due, verdict};
use record_text::*;
use script_text::parse;
use std::alloc::Global;
use std::process::Abort;

/// A record of a script, and what is found of it.
type Case = (&'static str, &'static [u8], &'static [u8], Due);

/// The text is that of a record of the script, which is judged.
fn found_of(rt: &impl Abort, alloc: Global, script: &[u8], text: &[u8]) -> Due {
    let script = parse(alloc, script).expect(rt, "a script");
    assert!(rt; text.len() < 1 << 31);
    let record = read(alloc, &script, text).expect(rt, "a record");
    assert!(rt; has_text(&script, &record));
    let printed = print(alloc, &script, &record).expect(rt, "memory");
    assert!(rt; printed.as_slice() == text);
    verdict(rt, alloc, &script, &record)
}

const ROW: &[u8] = b"procs 1\n\
object hits counter shared\n\
worker a 0\n\
hits add 5\n\
watch hits\n\
hits add 1\n\
hits get\n\
hits seen\n\
swap hits spread\n\
hits seen\n\
unwatch hits\n\
hits seen\n";

const WATCHED_TWICE: &[u8] = b"procs 1\n\
object hits counter shared\n\
worker a 0\n\
watch hits\n\
hits add 1\n\
watch hits\n\
hits seen\n\
hits get\n\
hits seen\n";

const IN_A_BLOCK: &[u8] = b"procs 1\n\
object hits counter shared\n\
worker a 0\n\
watch hits\n\
begin\n\
hits add 1\n\
hits seen\n\
end\n";

const DESTROYED: &[u8] = b"procs 1\n\
object hits counter shared\n\
worker a 0\n\
watch hits\n\
destroy hits\n\
watch hits\n\
unwatch hits\n\
hits seen\n";

const OF_TWO: &[u8] = b"procs 1\n\
object hits counter shared\n\
worker a 0\n\
watch hits\n\
worker b 0\n\
watch hits\n\
hits seen\n";

const OF_EACH_KIND: &[u8] = b"procs 1\n\
object names directory spread\n\
object cache pages shared\n\
worker a 0\n\
unwatch names\n\
names seen\n\
watch names\n\
names bind x 1\n\
names seen\n\
cache seen\n\
watch cache\n\
cache dirty\n\
cache read 0\n\
cache seen\n\
names size\n\
names seen\n";

const CASES: [Case; 12] = [
    (
        "a count across an ordinary swap, and none behind an unwatch",
        ROW,
        b"k42 record 1\n\
        1 a 4 hits add 5 = ok @0\n\
        2 a 5 watch hits = done 1 @0\n\
        3 a 6 hits add 1 = ok @1\n\
        4 a 7 hits get = 6 @1\n\
        5 a 8 hits seen = 2 @1\n\
        6 a 9 swap hits spread = done 2 @1\n\
        7 a 10 hits seen = 2 @2\n\
        8 a 11 unwatch hits = done 3 @2\n\
        9 a 12 hits seen = none @3\n\
        end 9\n",
        None,
    ),
    (
        "one call too many",
        ROW,
        b"k42 record 1\n\
        1 a 4 hits add 5 = ok @0\n\
        2 a 5 watch hits = done 1 @0\n\
        3 a 6 hits add 1 = ok @1\n\
        4 a 7 hits get = 6 @1\n\
        5 a 8 hits seen = 3 @1\n\
        6 a 9 swap hits spread = done 2 @1\n\
        7 a 10 hits seen = 2 @2\n\
        8 a 11 unwatch hits = done 3 @2\n\
        9 a 12 hits seen = none @3\n\
        end 9\n",
        Some((6, 5)),
    ),
    (
        "one call too few",
        ROW,
        b"k42 record 1\n\
        1 a 4 hits add 5 = ok @0\n\
        2 a 5 watch hits = done 1 @0\n\
        3 a 6 hits add 1 = ok @1\n\
        4 a 7 hits get = 6 @1\n\
        5 a 8 hits seen = 1 @1\n\
        6 a 9 swap hits spread = done 2 @1\n\
        7 a 10 hits seen = 2 @2\n\
        8 a 11 unwatch hits = done 3 @2\n\
        9 a 12 hits seen = none @3\n\
        end 9\n",
        Some((6, 5)),
    ),
    (
        "a second watch starts anew",
        WATCHED_TWICE,
        b"k42 record 1\n\
        1 a 4 watch hits = done 1 @0\n\
        2 a 5 hits add 1 = ok @1\n\
        3 a 6 watch hits = done 2 @1\n\
        4 a 7 hits seen = 0 @2\n\
        5 a 8 hits get = 1 @2\n\
        6 a 9 hits seen = 1 @2\n\
        end 6\n",
        None,
    ),
    (
        "a second watch that goes on counting",
        WATCHED_TWICE,
        b"k42 record 1\n\
        1 a 4 watch hits = done 1 @0\n\
        2 a 5 hits add 1 = ok @1\n\
        3 a 6 watch hits = done 2 @1\n\
        4 a 7 hits seen = 1 @2\n\
        5 a 8 hits get = 1 @2\n\
        6 a 9 hits seen = 2 @2\n\
        end 6\n",
        Some((5, 5)),
    ),
    (
        "asked for in an activity",
        IN_A_BLOCK,
        b"k42 record 2\n\
        1 a 4 watch hits = done 1 @0 p0 g-\n\
        2 a 6 hits add 1 = ok @1 p0 g1\n\
        3 a 7 hits seen = 1 @1 p0 g1\n\
        end 3\n",
        None,
    ),
    (
        "an object that is dead",
        DESTROYED,
        b"k42 record 1\n\
        1 a 4 watch hits = done 1 @0\n\
        2 a 5 destroy hits = done 2 @1\n\
        3 a 6 watch hits = gone @2\n\
        4 a 7 unwatch hits = gone @2\n\
        5 a 8 hits seen = gone @2\n\
        end 5\n",
        None,
    ),
    (
        "a dead object that is watched",
        DESTROYED,
        b"k42 record 1\n\
        1 a 4 watch hits = done 1 @0\n\
        2 a 5 destroy hits = done 2 @1\n\
        3 a 6 watch hits = done 3 @2\n\
        4 a 7 unwatch hits = done 4 @3\n\
        5 a 8 hits seen = none @4\n\
        end 5\n",
        Some((4, 6)),
    ),
    (
        "a dead object that counts",
        DESTROYED,
        b"k42 record 1\n\
        1 a 4 watch hits = done 1 @0\n\
        2 a 5 destroy hits = done 2 @1\n\
        3 a 6 watch hits = gone @2\n\
        4 a 7 unwatch hits = gone @2\n\
        5 a 8 hits seen = 0 @2\n\
        end 5\n",
        Some((6, 5)),
    ),
    (
        "refused by another's watch",
        OF_TWO,
        b"k42 record 1\n\
        1 b 6 watch hits = busy 1 @0\n\
        2 a 4 watch hits = done 1 @0\n\
        3 b 7 hits seen = 0 @1\n\
        end 3\n",
        None,
    ),
    (
        "refused by a watch that nobody did",
        OF_TWO,
        b"k42 record 1\n\
        1 b 6 watch hits = busy 2 @1\n\
        2 a 4 watch hits = done 1 @0\n\
        3 b 7 hits seen = 0 @1\n\
        end 3\n",
        Some((2, 7)),
    ),
    (
        "each kind, watched by itself, and an unwatch where none is",
        OF_EACH_KIND,
        b"k42 record 1\n\
        1 a 5 unwatch names = done 1 @0\n\
        2 a 6 names seen = none @1\n\
        3 a 7 watch names = done 2 @1\n\
        4 a 8 names bind x 1 = ok @2\n\
        5 a 9 names seen = 1 @2\n\
        6 a 10 cache seen = none @0\n\
        7 a 11 watch cache = done 1 @0\n\
        8 a 12 cache dirty = 0 @1\n\
        9 a 13 cache read 0 = zero @1\n\
        10 a 14 cache seen = 2 @1\n\
        11 a 15 names size = 1 @2\n\
        12 a 16 names seen = 2 @2\n\
        end 12\n",
        None,
    ),
];

#[test]
fn a_watched_object_tells_its_calls(rt: HostRuntime) {
    for (shows, script, text, due) in &CASES {
        let found = found_of(&rt, rt.alloc(), script, text);
        assert!(rt; found == *due, "{}", *shows);
    }
}

/// A line that stands as the first entry of a record, and is that of no entry.
const MISSPELT: [(&'static str, &'static [u8]); 7] = [
    (
        "a watch of a layout",
        b"1 a 5 watch hits shared = done 1 @0\n",
    ),
    ("a watch of nothing", b"1 a 5 watch = done 1 @0\n"),
    (
        "a watch of an unknown object",
        b"1 a 5 watch wins = done 1 @0\n",
    ),
    ("a watch with a count", b"1 a 5 watch hits = 0 @0\n"),
    ("a count that is given one", b"1 a 8 hits seen 2 = 2 @0\n"),
    (
        "a count that was carried out",
        b"1 a 8 hits seen = done 1 @0\n",
    ),
    ("a count of an unknown object", b"1 a 8 wins seen = 2 @0\n"),
];

#[test]
fn other_lines_are_none_of_a_record(rt: HostRuntime) {
    let alloc = rt.alloc();
    let script = parse(alloc, ROW).expect(&rt, "a script");
    for (shows, line) in &MISSPELT {
        let pieces = [b"k42 record 1\n".as_slice(), line, b"end 1\n"];
        let text = pieces.concat(alloc).expect(&rt, "memory");
        assert!(rt; text.len() < 1 << 31);
        let end = read(alloc, &script, text.as_slice()).err();
        let due = RecordEnd::Misspelt { line: 2 };
        assert!(rt; end == Some(due), "{}", *shows);
    }
}
