//! Calls, swaps and freed rows as events of the machine, each with the state that is due.
ghost use Rattle.std.specs.Prelude.{◌≡◌, ◌<◌, ◌≤◌, nat_lt, map, length, [], ◌∷◌};
ghost use Rattle.std.specs.Bool.{OnTrue};
ghost use Rattle.std.specs.List.{All, list_all};
ghost use Rattle.phase_core.specs.Event.{event_seen, caller_of, NamesObjects};
ghost use Rattle.phase_core.specs.State.{new_phases, of_two, IsPlan};
ghost use Rattle.phase_core.specs.Sound.{IsSound};
ghost use Rattle.phase_tests.specs.Plans.{plan_of};

use gen_core::GenEvent;
use k42_limits::{LAST_INCARNATION, LIVE_LAYOUTS};
use k42_shapes::Shape;
use phase_core::{LocalEntry, ObjectPlan, PhaseEvent, PhaseState, Place, SwapAt, apply, has_room};
use std::alloc::Global;
use std::process::Abort;

mod listed;

fn turning(event: &GenEvent) -> u32
    ensures { result ≡ caller_of (event_seen (PhaseEvent.Turn event.now)) }
{
    match *event {
        GenEvent::Enter(c) => c,
        GenEvent::Leave(c) => c,
        GenEvent::TakeRole(c) => c,
        GenEvent::LookAhead(c) => c,
        GenEvent::Flip(c) => c,
        GenEvent::Look(c) => c,
        GenEvent::GiveRole(c) => c,
    }
}

fn caller_of(event: &PhaseEvent) -> u32
    ensures { result ≡ caller_of (event_seen event.now) }
{
    match event {
        PhaseEvent::Turn(event) => turning(event),
        PhaseEvent::TakeRole(c, _) => *c,
        PhaseEvent::LookUp(c, _) => *c,
        PhaseEvent::RootLoad(c, _) => *c,
        PhaseEvent::Install(c, _) => *c,
        PhaseEvent::Knock(c, _) => *c,
        PhaseEvent::StepOut(c) => *c,
        PhaseEvent::EndCall(c) => *c,
        PhaseEvent::Begin(c, _) => *c,
        PhaseEvent::Interpose(c) => *c,
        PhaseEvent::Block(c) => *c,
        PhaseEvent::Move(c) => *c,
        PhaseEvent::TurnOver(c, _) => *c,
        PhaseEvent::Unblock(c) => *c,
        PhaseEvent::Open(c) => *c,
        PhaseEvent::Clear(c) => *c,
        PhaseEvent::Free(c, _) => *c,
    }
}

fn are_below(notes: &[(u32, u32)], objects: usize) -> bool
    ensures { result ≡ list_all (λ note. nat_lt note.0 objects) notes.now }
{
    notes.iter().all(|note| (note.0 as usize) < objects)
}

#[tactic(auto, using(phase_core::proofs::Notes::named_all))]
fn are_named(notes: &[(u32, u32)], objects: usize) -> bool
    ensures { OnTrue result (All (λ note. note.0 < objects) notes.now) }
{
    are_below(notes, objects)
}

fn names_objects(event: &PhaseEvent, objects: usize) -> bool
    ensures { OnTrue result (NamesObjects objects (event_seen event.now)) }
{
    match event {
        PhaseEvent::TakeRole(_, notes) => are_named(notes, objects),
        PhaseEvent::LookUp(_, o) => (*o as usize) < objects,
        PhaseEvent::RootLoad(_, o) => (*o as usize) < objects,
        PhaseEvent::Install(_, o) => (*o as usize) < objects,
        PhaseEvent::Knock(_, o) => (*o as usize) < objects,
        PhaseEvent::Begin(_, o) => (*o as usize) < objects,
        PhaseEvent::Free(_, o) => (*o as usize) < objects,
        _ => true,
    }
}

// Whether the event is one of the state's callers and objects, and was possible.
fn does(state: &mut PhaseState, event: &PhaseEvent) -> bool
    requires { IsSound state.old }
    ensures { IsSound state.new }
{
    let callers = state.callers.len();
    let objects = state.objects.len();
    if caller_of(event) as usize >= callers || !names_objects(event, objects) {
        return false;
    }
    has_room(state, event) && apply(state, event)
}

// An event, with its notes in a constant.
#[derive(Clone, Copy)]
enum Step {
    Turn(GenEvent),
    TakeRole(u32, &'static [(u32, u32)]),
    LookUp(u32, u32),
    RootLoad(u32, u32),
    Install(u32, u32),
    Knock(u32, u32),
    StepOut(u32),
    EndCall(u32),
    Begin(u32, u32),
    Interpose(u32),
    Block(u32),
    Move(u32),
    TurnOver(u32, u32),
    Unblock(u32),
    Open(u32),
    Clear(u32),
    Free(u32, u32),
}

fn event(rt: &impl Abort, alloc: Global, step: Step) -> PhaseEvent {
    match step {
        Step::Turn(event) => PhaseEvent::Turn(event),
        Step::TakeRole(c, notes) => {
            let notes = notes.to_vec(alloc).expect(rt, "memory");
            PhaseEvent::TakeRole(c, notes)
        }
        Step::LookUp(c, o) => PhaseEvent::LookUp(c, o),
        Step::RootLoad(c, o) => PhaseEvent::RootLoad(c, o),
        Step::Install(c, o) => PhaseEvent::Install(c, o),
        Step::Knock(c, o) => PhaseEvent::Knock(c, o),
        Step::StepOut(c) => PhaseEvent::StepOut(c),
        Step::EndCall(c) => PhaseEvent::EndCall(c),
        Step::Begin(c, o) => PhaseEvent::Begin(c, o),
        Step::Interpose(c) => PhaseEvent::Interpose(c),
        Step::Block(c) => PhaseEvent::Block(c),
        Step::Move(c) => PhaseEvent::Move(c),
        Step::TurnOver(c, layout) => PhaseEvent::TurnOver(c, layout),
        Step::Unblock(c) => PhaseEvent::Unblock(c),
        Step::Open(c) => PhaseEvent::Open(c),
        Step::Clear(c) => PhaseEvent::Clear(c),
        Step::Free(c, o) => PhaseEvent::Free(c, o),
    }
}

// How many of the steps are answered as they are listed, up to the first that is not.
fn answered(rt: &impl Abort, alloc: Global, state: &mut PhaseState, steps: &[(Step, bool)]) -> usize
    requires { IsSound state.old }
    ensures { IsSound state.new }
{
    let mut count = 0;
    for (step, possible) in steps {
        let event = event(rt, alloc, *step);
        if does(state, &event) != *possible {
            return count;
        }
        count += 1;
    }
    count
}

// An object at each of the layouts, all of these shapes.
fn plans(rt: &impl Abort, alloc: Global, shapes: &[Shape], layouts: &[u32]) -> Vec<ObjectPlan>
    ensures { result.items ≡ map (plan_of shapes.now) layouts.now }
{
    let mut plans = Vec::new(alloc);
    for layout in layouts {
        let shapes = shapes.to_vec(alloc).expect(rt, "memory");
        let layout = *layout;
        plans
            .push(ObjectPlan { shapes, layout })
            .expect(rt, "memory");
    }
    plans
}

// A state in which nobody has entered.
fn start_of(
    rt: &impl Abort,
    alloc: Global,
    procs: u32,
    shapes: &[Shape],
    layouts: &[u32],
    homes: &[u32],
) -> PhaseState
    requires { IsPlan procs (map (plan_of shapes.now) layouts.now) homes.now }
    ensures new { result ≡ new_phases procs (map (plan_of shapes.now) layouts.now) homes.now }
    ensures sound { IsSound result }
{
    let plans = plans(rt, alloc, shapes, layouts);
    let homes = homes.to_vec(alloc).expect(rt, "memory");
    PhaseState::new(alloc, procs, plans, homes).expect(rt, "memory")
}

// The same of objects that are shared, spread, or dead.
fn start(rt: &impl Abort, alloc: Global, procs: u32, layouts: &[u32], homes: &[u32]) -> PhaseState
    requires { IsPlan procs (map of_two layouts.now) homes.now }
    ensures new { result ≡ new_phases procs (map of_two layouts.now) homes.now }
    ensures sound { IsSound result }
{
    start_of(rt, alloc, procs, &[Shape::One, Shape::Each], layouts, homes)
}

fn place(state: &PhaseState, c: usize) -> Option<Place> {
    match state.callers.get(c) {
        Some(caller) => Some(caller.place),
        None => None,
    }
}

fn swap(state: &PhaseState, c: usize) -> Option<SwapAt> {
    match state.callers.get(c) {
        Some(caller) => Some(caller.swap),
        None => None,
    }
}

fn entry(state: &PhaseState, o: usize, p: usize) -> Option<LocalEntry> {
    match state.objects.get(o) {
        Some(object) => object.entries.get(p).copied(),
        None => None,
    }
}

// A caller is at this place, and its swap here.
fn expect_caller(rt: &impl Abort, state: &PhaseState, c: usize, at: Place, swaps: SwapAt) {
    assert!(rt; place(state, c) == Some(at));
    assert!(rt; swap(state, c) == Some(swaps));
}

// The count, the incarnation, the layout and the number of freed rows of an object.
fn numbers(state: &PhaseState, o: usize) -> Option<(u32, u32, u32, u32)> {
    match state.objects.get(o) {
        Some(object) => Some((
            object.count,
            object.incarnation,
            object.layout,
            object.freed,
        )),
        None => None,
    }
}

// A caller misses an empty entry.
const MISSED: &[(Step, bool)] = &[
    (Step::Turn(GenEvent::Enter(0)), true),
    (Step::LookUp(0, 0), true),
];

// And installs it.
const INSTALLED: &[(Step, bool)] = &[(Step::Install(0, 0), true)];

// A swap begins, and may not block before a grace.
const INTERPOSED: &[(Step, bool)] = &[
    (Step::Begin(1, 0), true),
    (Step::Interpose(1), true),
    (Step::Block(1), false),
];

// The next call finds the mediator.
const KNOCKED: &[(Step, bool)] = &[
    (Step::EndCall(0), true),
    (Step::LookUp(0, 0), true),
    (Step::Knock(0, 0), true),
];

#[test]
fn a_call_is_direct_until_a_swap_interposes_and_then_counted(rt: HostRuntime) {
    let alloc = rt.alloc();
    let mut state = start(&rt, alloc, 1, &[0], &[0, 0]);
    assert!(rt; answered(&rt, alloc, &mut state, MISSED) == 2);
    assert!(rt; place(&state, 0) == Some(Place::Missed(0, 0)));
    assert!(rt; answered(&rt, alloc, &mut state, INSTALLED) == 1);
    assert!(rt; place(&state, 0) == Some(Place::Direct(0, 0)));
    assert!(rt; answered(&rt, alloc, &mut state, INTERPOSED) == 3);
    let mediator = LocalEntry {
        tag: 2,
        layout: 0,
        cell: 0,
        incarnation: 0,
    };
    assert!(rt; entry(&state, 0, 0) == Some(mediator));
    assert!(rt; answered(&rt, alloc, &mut state, KNOCKED) == 3);
    assert!(rt; place(&state, 0) == Some(Place::Tracked(0, 0)));
    assert!(rt; numbers(&state, 0) == Some((1, 0, 0, 0)));
}

// Caller 1 is in the row as caller 0 begins a swap, and a grace waits for it.
const CALL_UNDER_A_SWAP: &[(Step, bool)] = &[
    (Step::Turn(GenEvent::Enter(1)), true),
    (Step::LookUp(1, 0), true),
    (Step::Install(1, 0), true),
    (Step::Begin(0, 0), true),
    (Step::Interpose(0), true),
    (Step::Interpose(0), true),
    (Step::TakeRole(0, &[(0, 0)]), true),
    (Step::Turn(GenEvent::LookAhead(0)), true),
    (Step::Turn(GenEvent::Flip(0)), true),
    (Step::Turn(GenEvent::LookAhead(0)), true),
    (Step::Turn(GenEvent::Flip(0)), true),
    (Step::Turn(GenEvent::Look(0)), true),
    (Step::Turn(GenEvent::Look(0)), true),
    (Step::Block(0), false),
];

// It leaves, comes back by the mediator, and the object is blocked and not moved.
const COUNTED_BEFORE_THE_MOVE: &[(Step, bool)] = &[
    (Step::EndCall(1), true),
    (Step::Turn(GenEvent::Leave(1)), true),
    (Step::Turn(GenEvent::Look(0)), true),
    (Step::Turn(GenEvent::Enter(1)), true),
    (Step::LookUp(1, 0), true),
    (Step::Knock(1, 0), true),
    (Step::Turn(GenEvent::GiveRole(0)), true),
    (Step::Block(0), true),
    (Step::Move(0), true),
    (Step::TurnOver(0, 1), false),
];

// Once it is out the state may be moved, and it is not let in.
const MOVED_AND_KNOCKED: &[(Step, bool)] = &[
    (Step::StepOut(1), true),
    (Step::Move(0), true),
    (Step::LookUp(1, 0), true),
    (Step::Knock(1, 0), true),
];

// The object is turned over and opened, and the next call is in its new row.
const OPENED: &[(Step, bool)] = &[
    (Step::TurnOver(0, 1), true),
    (Step::StepOut(1), true),
    (Step::Clear(0), false),
    (Step::Open(0), true),
    (Step::Open(0), true),
    (Step::Clear(0), true),
    (Step::LookUp(1, 0), true),
    (Step::Install(1, 0), true),
];

// The former row is freed once its reader has left.
const FREED: &[(Step, bool)] = &[
    (Step::TakeRole(0, &[(0, 1)]), true),
    (Step::Turn(GenEvent::LookAhead(0)), true),
    (Step::Turn(GenEvent::Flip(0)), true),
    (Step::Turn(GenEvent::LookAhead(0)), true),
    (Step::Turn(GenEvent::Flip(0)), true),
    (Step::Turn(GenEvent::Look(0)), true),
    (Step::Turn(GenEvent::Look(0)), true),
    (Step::Free(0, 0), false),
    (Step::EndCall(1), true),
    (Step::Turn(GenEvent::Leave(1)), true),
    (Step::Turn(GenEvent::Look(0)), true),
    (Step::Free(0, 0), true),
    (Step::Turn(GenEvent::GiveRole(0)), true),
];

// A second swap takes the object to its end, and a third is refused.
const SWAPPED_AGAIN: &[(Step, bool)] = &[
    (Step::Begin(0, 0), true),
    (Step::Interpose(0), true),
    (Step::Interpose(0), true),
    (Step::TakeRole(0, &[(0, 1)]), true),
    (Step::Turn(GenEvent::LookAhead(0)), true),
    (Step::Turn(GenEvent::Flip(0)), true),
    (Step::Turn(GenEvent::LookAhead(0)), true),
    (Step::Turn(GenEvent::Flip(0)), true),
    (Step::Turn(GenEvent::Look(0)), true),
    (Step::Turn(GenEvent::Look(0)), true),
    (Step::Turn(GenEvent::GiveRole(0)), true),
    (Step::Block(0), true),
    (Step::Move(0), true),
    (Step::TurnOver(0, 2), true),
    (Step::Open(0), true),
    (Step::Open(0), true),
    (Step::Clear(0), true),
    (Step::Begin(1, 0), true),
];

// A swap of one processor is given up after its state was moved.
const GIVEN_UP: &[(Step, bool)] = &[
    (Step::Begin(0, 0), true),
    (Step::Interpose(0), true),
    (Step::TakeRole(0, &[(0, 0)]), true),
    (Step::Turn(GenEvent::LookAhead(0)), true),
    (Step::Turn(GenEvent::Flip(0)), true),
    (Step::Turn(GenEvent::Look(0)), true),
    (Step::Turn(GenEvent::GiveRole(0)), true),
    (Step::Block(0), true),
    (Step::Move(0), true),
    (Step::Unblock(0), true),
    (Step::Open(0), true),
    (Step::Clear(0), true),
    (Step::Unblock(0), false),
];

// Each stage of a whole swap goes as listed.

fn begin_under_a_call(rt: &impl Abort, alloc: Global, state: &mut PhaseState)
    requires { IsSound state.old }
    ensures { IsSound state.new }
{
    assert!(rt; answered(rt, alloc, state, CALL_UNDER_A_SWAP) == 14);
    assert!(rt; swap(state, 0) == Some(SwapAt::Draining(0)));
}

fn block_under_a_call(rt: &impl Abort, alloc: Global, state: &mut PhaseState)
    requires { IsSound state.old }
    ensures { IsSound state.new }
{
    assert!(rt; answered(rt, alloc, state, COUNTED_BEFORE_THE_MOVE) == 10);
    assert!(rt; swap(state, 0) == Some(SwapAt::Blocking(0)));
    assert!(rt; place(state, 1) == Some(Place::Tracked(0, 0)));
}

fn move_and_let_nobody_in(rt: &impl Abort, alloc: Global, state: &mut PhaseState)
    requires { IsSound state.old }
    ensures { IsSound state.new }
{
    assert!(rt; answered(rt, alloc, state, MOVED_AND_KNOCKED) == 4);
    assert!(rt; swap(state, 0) == Some(SwapAt::Moved(0)));
    assert!(rt; place(state, 1) == Some(Place::Blocked(0)));
}

fn open_the_next_row(rt: &impl Abort, alloc: Global, state: &mut PhaseState)
    requires { IsSound state.old }
    ensures { IsSound state.new }
{
    assert!(rt; answered(rt, alloc, state, OPENED) == 8);
    assert!(rt; place(state, 1) == Some(Place::Direct(0, 1)));
    assert!(rt; numbers(state, 0) == Some((0, 1, 1, 0)));
}

fn free_the_former_row(rt: &impl Abort, alloc: Global, state: &mut PhaseState)
    requires { IsSound state.old }
    ensures { IsSound state.new }
{
    assert!(rt; answered(rt, alloc, state, FREED) == 13);
    assert!(rt; numbers(state, 0) == Some((0, 1, 1, 1)));
}

fn swap_again(rt: &impl Abort, alloc: Global, state: &mut PhaseState)
    requires { IsSound state.old }
    ensures { IsSound state.new }
{
    assert!(rt; answered(rt, alloc, state, SWAPPED_AGAIN) == 18);
    assert!(rt; swap(state, 1) == Some(SwapAt::Refused(0)));
    assert!(rt; numbers(state, 0) == Some((0, 2, 2, 1)));
}

#[test]
fn a_swap_on_two_processors_goes_to_its_end_under_a_caller(rt: HostRuntime) {
    let alloc = rt.alloc();
    let mut state = start(&rt, alloc, 2, &[0], &[0, 1]);
    begin_under_a_call(&rt, alloc, &mut state);
    block_under_a_call(&rt, alloc, &mut state);
    move_and_let_nobody_in(&rt, alloc, &mut state);
    open_the_next_row(&rt, alloc, &mut state);
    free_the_former_row(&rt, alloc, &mut state);
    swap_again(&rt, alloc, &mut state);
}

#[test]
fn a_swap_that_is_given_up_leaves_the_row_as_it_was(rt: HostRuntime) {
    let alloc = rt.alloc();
    let mut state = start(&rt, alloc, 1, &[1], &[0]);
    assert!(rt; answered(&rt, alloc, &mut state, GIVEN_UP) == 13);
    assert!(rt; swap(&state, 0) == Some(SwapAt::Idle));
    assert!(rt; numbers(&state, 0) == Some((0, 0, 1, 0)));
    let empty = LocalEntry {
        tag: 0,
        layout: 0,
        cell: 0,
        incarnation: 0,
    };
    assert!(rt; entry(&state, 0, 0) == Some(empty));
}

// The one object of a new state goes to its last incarnation.
fn age(state: &mut PhaseState)
    requires { state.old ≡ new_phases 1 (of_two 0 ∷ []) (0 ∷ []) }
    ensures { IsSound state.new }
{
    let object = &mut state.objects[0];
    object.incarnation = LAST_INCARNATION;
    object.entries[0] = LocalEntry {
        tag: 0,
        layout: 0,
        cell: 0,
        incarnation: LAST_INCARNATION,
    };
}

#[test]
fn a_swap_is_refused_at_the_last_incarnation(rt: HostRuntime) {
    let mut state = start(&rt, rt.alloc(), 1, &[0], &[0]);
    age(&mut state);
    assert!(rt; does(&mut state, &PhaseEvent::Begin(0, 0)));
    assert!(rt; swap(&state, 0) == Some(SwapAt::Refused(0)));
}

// A swap of one processor moves its object.
const MOVED: &[(Step, bool)] = &[
    (Step::Begin(0, 0), true),
    (Step::Interpose(0), true),
    (Step::TakeRole(0, &[(0, 0)]), true),
    (Step::Turn(GenEvent::LookAhead(0)), true),
    (Step::Turn(GenEvent::Flip(0)), true),
    (Step::Turn(GenEvent::Look(0)), true),
    (Step::Turn(GenEvent::GiveRole(0)), true),
    (Step::Block(0), true),
    (Step::Move(0), true),
];

// It ends, and the next one begins.
const BEGUN_AGAIN: &[(Step, bool)] = &[
    (Step::Open(0), true),
    (Step::Clear(0), true),
    (Step::Begin(0, 0), true),
];

// A swap to the layout, and how the one behind it begins; none where it may not turn over.
fn turned(rt: &impl Abort, alloc: Global, shapes: &[Shape], layout: u32) -> Option<SwapAt>
    requires { length shapes.now ≤ LIVE_LAYOUTS }
{
    let mut state = start_of(rt, alloc, 1, shapes, &[0], &[0]);
    assert!(rt; answered(rt, alloc, &mut state, MOVED) == 9);
    if !does(&mut state, &PhaseEvent::TurnOver(0, layout)) {
        return None;
    }
    assert!(rt; answered(rt, alloc, &mut state, BEGUN_AGAIN) == 3);
    assert!(rt; numbers(&state, 0) == Some((0, 1, layout, 0)));
    swap(&state, 0)
}

const THREE: [Shape; 3] = [Shape::One, Shape::Each, Shape::Groups(2)];

const FOUR: [Shape; 4] = [Shape::One, Shape::Each, Shape::Groups(2), Shape::Groups(4)];

#[test]
fn a_swap_goes_to_each_layout_that_its_object_has_and_to_no_other(rt: HostRuntime) {
    let alloc = rt.alloc();
    let begun = Some(SwapAt::Begun(0));
    let refused = Some(SwapAt::Refused(0));
    assert!(rt; turned(&rt, alloc, &THREE, 2) == begun);
    assert!(rt; turned(&rt, alloc, &THREE, 3) == refused);
    assert!(rt; turned(&rt, alloc, &THREE, 4) == None);
    assert!(rt; turned(&rt, alloc, &FOUR, 3) == begun);
    assert!(rt; turned(&rt, alloc, &FOUR, 4) == refused);
    assert!(rt; turned(&rt, alloc, &FOUR, 5) == None);
    let most = [Shape::Groups(8); LIVE_LAYOUTS];
    assert!(rt; turned(&rt, alloc, &most, 14) == begun);
    assert!(rt; turned(&rt, alloc, &most, 15) == refused);
    assert!(rt; turned(&rt, alloc, &most, 16) == None);
}

// The last of five processors misses an object in pairs, and installs what it found.
const INSTALLED_IN_A_GROUP: &[(Step, bool)] = &[
    (Step::Turn(GenEvent::Enter(0)), true),
    (Step::LookUp(0, 0), true),
    (Step::RootLoad(0, 0), true),
    (Step::Install(0, 0), true),
];

#[test]
fn an_entry_leads_to_the_cell_of_its_group(rt: HostRuntime) {
    let alloc = rt.alloc();
    let mut state = start_of(&rt, alloc, 5, &THREE, &[2], &[4]);
    assert!(rt; answered(&rt, alloc, &mut state, INSTALLED_IN_A_GROUP) == 4);
    let third = LocalEntry {
        tag: 1,
        layout: 2,
        cell: 2,
        incarnation: 0,
    };
    assert!(rt; entry(&state, 0, 4) == Some(third));
}
