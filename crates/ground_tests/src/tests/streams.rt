//! Fakes that fail at chosen calls, and the real streams at their ends.
ghost use Rattle.std.specs.Prelude.{◌≡◌, None};

use k42_io::*;
use std::test::Fail;

/// A sink that takes three bytes at most, and notes what it is handed and when it is flushed.
#[derive(Drop)]
struct Watched {
    largest: usize,
    written: usize,
    flushes: u32,
    written_at_flush: usize,
    broken: bool,
    faults: u64,
}

impl Watched {
    fn new(broken: bool) -> Watched
        ensures { result.faults ≡ 0 }
    {
        Watched {
            largest: 0,
            written: 0,
            flushes: 0,
            written_at_flush: 0,
            broken,
            faults: 0,
        }
    }
}

impl Sink for Watched {
    ghost taken = { λ _. None };

    ghost flushed = { λ w. w.written_at_flush ≡ w.written };

    ghost faults = { λ w. w.faults };

    fn write(&mut self, piece: &[u8]) -> Result<usize, Failed> {
        let count = piece.len().min(3);
        self.largest = self.largest.max(piece.len());
        self.written = self.written.saturating_add(count);
        Ok(count)
    }

    fn flush(&mut self) -> Result<(), Failed> {
        self.flushes = self.flushes.saturating_add(1);
        self.written_at_flush = self.written;
        if self.broken {
            self.faults += 1;
            return Err(Failed);
        }
        Ok(())
    }
}

#[test]
fn a_source_gives_pieces_and_fails_at_the_chosen_read(rt: HostRuntime) -> Result<(), Fail> {
    let bytes = b"abcdefg".to_vec(rt.alloc())?;
    let mut source = MemSource::new(bytes, 3, [2].to_vec(rt.alloc())?);
    let mut buf = [0u8; 5];
    assert_eq!(rt; source.read(&mut buf), Ok(3));
    assert_eq!(rt; source.read(&mut buf), Err(Failed));
    assert_eq!(rt; source.read(&mut buf), Ok(3));
    assert_eq!(rt; source.read(&mut buf), Ok(1));
    assert_eq!(rt; source.read(&mut buf), Ok(0));
    assert_eq!(rt; buf, *b"gef\0\0");
    Ok(())
}

#[test]
fn read_all_stops_one_past_the_limit(rt: HostRuntime) -> Result<(), Fail> {
    for (limit, want) in [(0, 1), (3, 4), (5, 6), (6, 6), (usize::MAX - 1, 6)] {
        for piece in [1, 4, 4096] {
            let bytes = b"abcdef".to_vec(rt.alloc())?;
            let mut source = MemSource::new(bytes, piece, Vec::new(rt.alloc()));
            let all = read_all(rt.alloc(), &mut source, limit)?;
            assert_eq!(rt;
                all.as_slice(),
                &b"abcdef"[..want],
                "at {limit} and {piece}"
            );
        }
    }
    Ok(())
}

#[test]
fn read_all_hands_on_each_failed_read(rt: HostRuntime) -> Result<(), Fail> {
    for (read, fails) in [(1, true), (2, true), (3, true), (4, true), (5, false)] {
        let bytes = b"abc".to_vec(rt.alloc())?;
        let mut source = MemSource::new(bytes, 1, [read].to_vec(rt.alloc())?);
        let ended = read_all(rt.alloc(), &mut source, 9);
        assert_eq!(rt; ended.err(), fails.then_some(ReadEnd::Failed), "at {read}");
    }
    Ok(())
}

#[test]
fn read_all_reads_a_quiet_source_whole(rt: HostRuntime) -> Result<(), Fail> {
    for (there, want, rest) in [(70_000, 70_000, 0), (1_048_580, 1_048_577, 3)] {
        let bytes = vec![in rt.alloc(); 7u8; there]?;
        let mut source = QuietSource::new(bytes);
        let all = read_all(rt.alloc(), &mut source, 1_048_576)?;
        assert_eq!(rt; all.len(), want);
        assert_eq!(rt; read_all(rt.alloc(), &mut source, 5)?.len(), rest);
    }
    Ok(())
}

#[test]
fn write_all_leaves_what_came_before_the_failed_write(rt: HostRuntime) -> Result<(), Fail> {
    let failing = [3].to_vec(rt.alloc())?;
    let mut sink = MemSink::new(rt.alloc(), 4096, 8, failing)?;
    let record = b"k42 record 1\n1 a 4 hits add 5 = ok @0\n";
    assert_eq!(rt; write_all(&mut sink, record), Err(Failed));
    assert_eq!(rt; sink.taken(), b"k42 record 1\n1 a".as_slice());
    Ok(())
}

#[test]
fn a_sink_in_memory_stores_no_more_than_its_room(rt: HostRuntime) -> Result<(), Fail> {
    let mut sink = MemSink::new(rt.alloc(), 5, 4, Vec::new(rt.alloc()))?;
    assert_eq!(rt; sink.write(b"k42 record"), Ok(4));
    assert!(rt; sink.taken() == b"k42 ".as_slice());
    assert_eq!(rt; write_all(&mut sink, b"record"), Ok(()));
    assert!(rt; sink.taken() == b"k42 r".as_slice());
    Ok(())
}

#[test]
fn a_quiet_sink_stores_no_more_than_its_room(rt: HostRuntime) -> Result<(), Fail> {
    let mut quiet = QuietSink::new(rt.alloc(), 5)?;
    assert_eq!(rt; quiet.write(b"k42 record"), Ok(10));
    assert!(rt; quiet.taken() == b"k42 r".as_slice());
    Ok(())
}

#[test]
fn a_sink_without_room_stores_nothing(rt: HostRuntime) -> Result<(), Fail> {
    let mut sink = MemSink::new(rt.alloc(), 0, 4, Vec::new(rt.alloc()))?;
    assert_eq!(rt; write_all(&mut sink, b"record"), Ok(()));
    assert!(rt; sink.taken().is_empty());
    Ok(())
}

#[test]
fn a_quiet_sink_without_room_stores_nothing(rt: HostRuntime) -> Result<(), Fail> {
    let mut quiet = QuietSink::new(rt.alloc(), 0)?;
    assert_eq!(rt; write_all(&mut quiet, b"record"), Ok(()));
    assert!(rt; quiet.taken().is_empty());
    Ok(())
}

#[test]
fn write_all_flushes_once_after_the_last_byte(rt: HostRuntime) {
    for (broken, want) in [(false, Ok(())), (true, Err(Failed))] {
        let mut sink = Watched::new(broken);
        assert_eq!(rt; write_all(&mut sink, b"abcdefg"), want);
        assert_eq!(rt;
            (sink.flushes, sink.written_at_flush, sink.largest),
            (1, 7, 7)
        );
    }
}

#[test]
fn write_all_hands_over_all_that_is_left_and_flushes_nothing_too(
    rt: HostRuntime,
) -> Result<(), Fail> {
    for there in [70_000, 0] {
        let bytes = vec![in rt.alloc(); 7u8; there]?;
        let mut sink = Watched::new(false);
        assert_eq!(rt; write_all(&mut sink, &bytes), Ok(()));
        assert_eq!(rt;
            (sink.flushes, sink.written_at_flush, sink.largest),
            (1, there, there)
        );
    }
    Ok(())
}

#[test]
fn standard_input_at_its_end_reads_nothing(rt: HostRuntime) {
    let mut source = InputSource::new(rt.stdin());
    assert_eq!(rt; source.read(&mut [0; 1]), Ok(0));
}

#[test]
fn standard_output_takes_a_line(rt: HostRuntime) {
    let mut sink = OutputSink::new(rt.stdout());
    assert_eq!(rt; write_all(&mut sink, b"a line\n"), Ok(()));
    assert_eq!(rt; sink.write(b""), Ok(0));
}
