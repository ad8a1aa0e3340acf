//! What no clause says: which text these definitions come to for a record of two workers.
use record_picture::{COLUMNS, Verdict, Window, draw};
use record_text::read;
use script_text::parse;
use std::alloc::Global;
use std::process::Abort;

const SCRIPT: &[u8] = b"procs 2\n\
object hits counter shared\n\
object cache pages spread\n\
worker ann 0\n\
begin\n\
hits add 7\n\
cache write 3 <\"&'>\n\
end\n\
swap hits spread\n\
hits get\n\
worker bob 1\n\
swap hits shared\n\
destroy cache\n\
cache read 3\n";

const RECORD: &[u8] = b"k42 record 2\n\
1 ann 6 hits add 7 = ok @0 p0 g4\n\
2 bob 12 swap hits shared = busy 1 @0 p1 g-\n\
3 ann 7 cache write 3 <\"&'> = ok @0 p0 g4\n\
4 ann 9 swap hits spread = done 1 @0 p0 g-\n\
5 bob 13 destroy cache = done 1 @0 p1 g-\n\
6 ann 10 hits get = 7 @1 p0 g5\n\
7 bob 14 cache read 3 = gone @1 p1 g5\n\
end 7\n";

/// What stands behind the style.
const WHOLE: &[u8] = b"<rect width='100%' height='100%' fill='#fff'/>\n\
<text class='v' x='8' y='20'>lawful 7</text>\n\
<rect class='l' width='100%' height='68' y='66'/><text x='8' y='92'>ann</text><text x='8' y='107'>processor 0</text>\n\
<rect class='l' width='100%' height='68' y='138'/><text x='8' y='164'>bob</text><text x='8' y='179'>processor 1</text>\n\
<rect class='f' x='130' y='68' width='146' height='64' rx='4'/>\n\
<rect class='f' x='130' y='68' width='450' height='64' rx='4'/>\n\
<rect class='f' x='890' y='68' width='146' height='64' rx='4'/>\n\
<rect class='f' x='1042' y='140' width='146' height='64' rx='4'/>\n\
<g class='o0'><text x='586' y='38'>hits <tspan x='586' y='51'>1: spread</tspan></text><path class='s' d='M659 56V208'/></g>\n\
<g class='o1'><text x='738' y='38'>cache <tspan x='738' y='51'>1: dead</tspan></text><path class='s' d='M811 56V208'/></g>\n\
<g class='o0' transform='translate(130,71)'><title>1 ann 6 hits add 7 = ok @0 p0 g4</title><use href='#box'/><text class='n' x='4' y='11'>hits</text><text class='k' x='142' y='11'>1</text><text x='4' y='26'>  add 7</text><text x='4' y='40'>= ok</text><text x='4' y='57'>g4</text></g>\n\
<g class='o0' transform='translate(282,143)'><title>2 bob 12 swap hits shared = busy 1 @0 p1 g-</title><use href='#box'/><text class='n' x='4' y='11'>hits</text><text class='k' x='142' y='11'>2</text><text x='4' y='26'> swap  shared</text><text x='4' y='40'>= busy 1</text><use href='#busy'/></g>\n\
<g class='o1' transform='translate(434,71)'><title>3 ann 7 cache write 3 &lt;&quot;&amp;&apos;&gt; = ok @0 p0 g4</title><use href='#box'/><text class='n' x='4' y='11'>cache</text><text class='k' x='142' y='11'>3</text><text x='4' y='26'>  write 3 &lt;&quot;&amp;&apos;&gt;</text><text x='4' y='40'>= ok</text><text x='4' y='57'>g4</text></g>\n\
<g class='o0' transform='translate(586,71)'><title>4 ann 9 swap hits spread = done 1 @0 p0 g-</title><use href='#box'/><text class='n' x='4' y='11'>hits</text><text class='k' x='142' y='11'>4</text><text x='4' y='26'> swap  spread</text><text x='4' y='40'>= done 1</text></g>\n\
<g class='o1' transform='translate(738,143)'><title>5 bob 13 destroy cache = done 1 @0 p1 g-</title><use href='#box'/><text class='n' x='4' y='11'>cache</text><text class='k' x='142' y='11'>5</text><text x='4' y='26'> destroy </text><text x='4' y='40'>= done 1</text></g>\n\
<g class='o0' transform='translate(890,71)'><title>6 ann 10 hits get = 7 @1 p0 g5</title><use href='#box'/><text class='n' x='4' y='11'>hits</text><text class='k' x='142' y='11'>6</text><text x='4' y='26'>  get</text><text x='4' y='40'>= 7</text><text x='4' y='57'>g5</text></g>\n\
<g class='o1' transform='translate(1042,143)'><title>7 bob 14 cache read 3 = gone @1 p1 g5</title><use href='#box'/><text class='n' x='4' y='11'>cache</text><text class='k' x='142' y='11'>7</text><text x='4' y='26'>  read 3</text><text x='4' y='40'>= gone</text><use href='#gone'/><text x='4' y='57'>g5</text></g>\n\
</svg>\n";

const FAULTY: &[u8] = b"<rect width='100%' height='100%' fill='#fff'/>\n\
<text class='v' x='8' y='20'>line 4: rule 6, the swap would not have been answered so</text>\n\
<rect class='l' width='100%' height='68' y='66'/><text x='8' y='92'>ann</text><text x='8' y='107'>processor 0</text>\n\
<rect class='l' width='100%' height='68' y='138'/><text x='8' y='164'>bob</text><text x='8' y='179'>processor 1</text>\n\
<rect class='f' x='130' y='68' width='298' height='64' rx='4'/>\n\
<g class='o0'><text x='434' y='38'>hits <tspan x='434' y='51'>1: spread</tspan></text><path class='s' d='M507 56V208'/></g>\n\
<g class='o0' transform='translate(130,143)'><title>2 bob 12 swap hits shared = busy 1 @0 p1 g-</title><use href='#box'/><text class='n' x='4' y='11'>hits</text><text class='k' x='142' y='11'>2</text><text x='4' y='26'> swap  shared</text><text x='4' y='40'>= busy 1</text><use href='#busy'/></g>\n\
<g class='o1' transform='translate(282,71)'><title>3 ann 7 cache write 3 &lt;&quot;&amp;&apos;&gt; = ok @0 p0 g4</title><use href='#box'/><text class='n' x='4' y='11'>cache</text><text class='k' x='142' y='11'>3</text><text x='4' y='26'>  write 3 &lt;&quot;&amp;&apos;&gt;</text><text x='4' y='40'>= ok</text><text x='4' y='57'>g4</text></g>\n\
<g class='o0' transform='translate(434,71)'><title>4 ann 9 swap hits spread = done 1 @0 p0 g-</title><use href='#box'/><text class='n' x='4' y='11'>hits</text><text class='k' x='142' y='11'>4</text><text x='4' y='26'> swap  spread</text><text x='4' y='40'>= done 1</text></g>\n\
<rect class='x' width='150' height='68' rx='4' x='280' y='66'/><rect class='y' y='28' x='431' width='152' height='216'/>\n\
</svg>\n";

const WATCHED: &[u8] = b"procs 1\n\
object hits counter spread\n\
worker ann 0\n\
watch hits\n\
hits get\n\
hits seen\n\
unwatch hits\n";

const WATCHES: &[u8] = b"k42 record 1\n\
1 ann 4 watch hits = done 1 @0\n\
2 ann 5 hits get = 0 @1\n\
3 ann 6 hits seen = 1 @1\n\
4 ann 7 unwatch hits = done 2 @1\n\
end 4\n";

/// A swap's label says what it was to, also where the layout is kept.
const LAYERS: &[u8] = b"<rect width='100%' height='100%' fill='#fff'/>\n\
<text class='v' x='8' y='20'>lawful 4</text>\n\
<rect class='l' width='100%' height='68' y='66'/><text x='8' y='92'>ann</text><text x='8' y='107'>processor 0</text>\n\
<g class='o0'><text x='130' y='38'>hits <tspan x='130' y='51'>1: watch</tspan></text><path class='s' d='M203 56V136'/></g>\n\
<g class='o0'><text x='586' y='38'>hits <tspan x='586' y='51'>2: unwatch</tspan></text><path class='s' d='M659 56V136'/></g>\n\
<g class='o0' transform='translate(130,71)'><title>1 ann 4 watch hits = done 1 @0</title><use href='#box'/><text class='n' x='4' y='11'>hits</text><text class='k' x='142' y='11'>1</text><text x='4' y='26'> watch </text><text x='4' y='40'>= done 1</text></g>\n\
<g class='o0' transform='translate(282,71)'><title>2 ann 5 hits get = 0 @1</title><use href='#box'/><text class='n' x='4' y='11'>hits</text><text class='k' x='142' y='11'>2</text><text x='4' y='26'>  get</text><text x='4' y='40'>= 0</text></g>\n\
<g class='o0' transform='translate(434,71)'><title>3 ann 6 hits seen = 1 @1</title><use href='#box'/><text class='n' x='4' y='11'>hits</text><text class='k' x='142' y='11'>3</text><text x='4' y='26'>  seen</text><text x='4' y='40'>= 1</text></g>\n\
<g class='o0' transform='translate(586,71)'><title>4 ann 7 unwatch hits = done 2 @1</title><use href='#box'/><text class='n' x='4' y='11'>hits</text><text class='k' x='142' y='11'>4</text><text x='4' y='26'> unwatch </text><text x='4' y='40'>= done 2</text></g>\n\
</svg>\n";

fn drawn(
    rt: &impl Abort,
    alloc: Global,
    script: &[u8],
    record: &[u8],
    verdict: Verdict,
    window: Window,
) -> Vec<u8> {
    let script = parse(alloc, script).expect(rt, "a script");
    assert!(rt; record.len() < 1 << 31);
    let written = read(alloc, &script, record).expect(rt, "a record");
    assert!(rt; window.count <= COLUMNS);
    draw(alloc, &script, &written, verdict, window).expect(rt, "memory")
}

#[test]
fn lanes_frames_swaps_and_boxes_are_drawn_in_their_places(rt: HostRuntime) {
    let window = Window {
        before: 0,
        count: COLUMNS,
    };
    let picture = drawn(&rt, rt.alloc(), SCRIPT, RECORD, Verdict::Lawful, window);
    assert!(rt; picture.as_slice().ends_with(WHOLE));
}

#[test]
fn the_faulty_entry_of_a_window_is_framed_and_those_behind_it_are_greyed(rt: HostRuntime) {
    let verdict = Verdict::Unlawful { line: 4, rule: 6 };
    let window = Window {
        before: 1,
        count: 3,
    };
    let picture = drawn(&rt, rt.alloc(), SCRIPT, RECORD, verdict, window);
    assert!(rt; picture.as_slice().ends_with(FAULTY));
}

#[test]
fn a_watch_and_an_unwatch_have_lines_of_their_own(rt: HostRuntime) {
    let window = Window {
        before: 0,
        count: COLUMNS,
    };
    let picture = drawn(&rt, rt.alloc(), WATCHED, WATCHES, Verdict::Lawful, window);
    assert!(rt; picture.as_slice().ends_with(LAYERS));
}
