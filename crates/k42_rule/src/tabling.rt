//! The steps of a call on the tables.
ghost use Rattle.std.specs.Prelude.{◌≡◌};
ghost use Rattle.phase_core.specs.Effects.{place_found};
ghost use Rattle.phase_core.specs.Stages.{object_of, row_of};
ghost use Rattle.k42_board.specs.Protocol as protocol;
ghost use Rattle.k42_board.specs.Stepping.{MayStep, HasStepped};
ghost use Rattle.k42_board.specs.Tabling.{entry_in, layout_told};

use crate::pass::Pass;
use crate::sys::Sys;
use k42_board::{
    direct_word, empty_word, end_word, entry_layout, incarnation_in, install_word, is_blocked,
    knock_word, layout_in, look_up_word, root_word, step_out_word, tag_in,
};
use k42_kinds::Layout;
use phase_core::Place;

/// Where the entry of an object leads.
fn place_at(object: u32, word: u64) -> Place
    ensures { result ≡ place_found (entry_in word).tag object (entry_in word).incarnation }
{
    let incarnation = incarnation_in(word);
    match tag_in(word) {
        0 => Place::Missed(object, incarnation),
        1 => Place::Direct(object, incarnation),
        _ => Place::AtMediator(object),
    }
}

/// The layout that a direct entry tells.
fn layout_at(word: u64) -> Option<u32>
    ensures { result ≡ layout_told (entry_in word) }
{
    if tag_in(word) == 1 {
        Some(entry_layout(word))
    } else {
        None
    }
}

/// The object of a call that the mediator does not count.
pub(crate) fn object_in(place: &Place) -> u32
    ensures { result ≡ object_of place.now }
{
    match *place {
        Place::Out => 0,
        Place::Missed(object, _)
        | Place::Direct(object, _)
        | Place::Tracked(object, _)
        | Place::AtMediator(object)
        | Place::Blocked(object) => object,
    }
}

/// The row of a call that is inside one.
pub(crate) fn row_in(place: &Place) -> u32
    ensures { result ≡ row_of place.now }
{
    match *place {
        Place::Missed(_, incarnation)
        | Place::Direct(_, incarnation)
        | Place::Tracked(_, incarnation) => incarnation,
        Place::Out | Place::AtMediator(_) | Place::Blocked(_) => 0,
    }
}

/// Reads where its processor's entry of the object leads.
pub fn look_up_step<L: Layout>(sys: &Sys<L>, pass: &mut Pass<L>, object: u32) -> u64
    requires { MayStep L.Layout sys.now (protocol.look_up object) pass.old }
    ensures { HasStepped L.Layout sys.now (protocol.look_up object) pass.old result pass.new }
{
    let home = pass.home as usize;
    let found = look_up_word(&sys.board, &mut pass.seat, home, object as usize);
    pass.place = place_at(object, found);
    pass.layout = layout_at(found);
    found
}

/// Reads the object's word for the layout of the row that it missed.
pub fn root_step<L: Layout>(sys: &Sys<L>, pass: &mut Pass<L>, object: u32) -> u64
    requires { MayStep L.Layout sys.now (protocol.load_root object) pass.old }
    ensures { HasStepped L.Layout sys.now (protocol.load_root object) pass.old result pass.new }
{
    let found = root_word(&sys.board, &mut pass.seat, object as usize);
    pass.layout = Some(layout_in(found));
    found
}

/// Ends a call that the mediator does not count.
pub fn end_call<L: Layout>(sys: &Sys<L>, pass: &mut Pass<L>) -> u64
    requires { MayStep L.Layout sys.now protocol.end_call pass.old }
    ensures { HasStepped L.Layout sys.now protocol.end_call pass.old result pass.new }
{
    let home = pass.home as usize;
    let object = object_in(&pass.place) as usize;
    let found = end_word(&sys.board, &mut pass.seat, home, object);
    pass.place = Place::Out;
    pass.layout = None;
    found
}

/// Leads its processor's entry of the object to a cell, where it is still empty as it was.
pub fn install_step<L: Layout>(sys: &Sys<L>, pass: &mut Pass<L>, object: u32, cell: u32) -> u64
    requires { MayStep L.Layout sys.now (protocol.install object cell) pass.old }
    ensures { HasStepped L.Layout sys.now (protocol.install object cell) pass.old result pass.new }
{
    let home = pass.home as usize;
    let incarnation = row_in(&pass.place);
    let layout = pass.layout.unwrap_or(0);
    let old = empty_word(incarnation);
    let new = direct_word(layout, cell, incarnation);
    let found = install_word(
        &sys.board,
        &mut pass.seat,
        home,
        object as usize,
        cell,
        old,
        new,
    );
    if found == old {
        pass.place = Place::Direct(object, incarnation);
    } else {
        pass.place = Place::Out;
        pass.layout = None;
    }
    found
}

/// Knocks at the mediator, which counts the caller, and lets it in unless the swap blocks.
pub fn knock_step<L: Layout>(sys: &Sys<L>, pass: &mut Pass<L>, object: u32) -> u64
    requires { MayStep L.Layout sys.now (protocol.knock object) pass.old }
    ensures { HasStepped L.Layout sys.now (protocol.knock object) pass.old result pass.new }
{
    let found = knock_word(&sys.board, &mut pass.seat, object as usize);
    if is_blocked(found) {
        pass.place = Place::Blocked(object);
        pass.layout = None;
    } else {
        pass.place = Place::Tracked(object, incarnation_in(found));
        pass.layout = Some(layout_in(found));
    }
    found
}

/// Is no longer counted at the mediator.
pub fn step_out<L: Layout>(sys: &Sys<L>, pass: &mut Pass<L>) -> u64
    requires { MayStep L.Layout sys.now protocol.step_out pass.old }
    ensures { HasStepped L.Layout sys.now protocol.step_out pass.old result pass.new }
{
    let object = object_in(&pass.place) as usize;
    let found = step_out_word(&sys.board, &mut pass.seat, object);
    pass.place = Place::Out;
    pass.layout = None;
    found
}
