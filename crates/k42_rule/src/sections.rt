//! The history in sections: the passes give what they have kept, once their clocks are raised to one stamp.
ghost use Rattle.std.specs.Prelude.{◌≡◌, ◌+◌, ◌*◌, ◌≤◌, ◌++◌, length, map, max, vec_len, vec_capacity, MatchOption};
ghost use Rattle.k42_limits.specs.declared.TheConstants.{PASS_ENTRIES};
ghost use Rattle.k42_places.specs.Places.{EachPlace};
ghost use Rattle.k42_stamp.specs.Merging.{entries_in};
ghost use Rattle.k42_board.specs.Seen.{IsOf};
ghost use Rattle.k42_board.specs.Skipping.{greatest_clock};
ghost use Rattle.k42_board.specs.declared.keep.Keep.TheVariants as keeps;
ghost use Rattle.k42_rule.specs.Finishing.{logged_in, views_of};
ghost use Rattle.k42_rule.specs.Sections.{AreCut, HasParts, MayGiveSection, TellsStamp, given_all, rests_in, sectioned, skipped, skipped_on};

use crate::pass::Pass;
use crate::sys::Sys;
use atomic_table::Seat;
use k42_board::{Content, View, skip_to, tell_clock};
use k42_kinds::Layout;
use k42_log::Log;
use std::alloc::Global;

/// A seat that tells of a stamp.
#[derive(Drop)]
pub struct Telling<P: Drop, O, R> {
    seat: Seat<Option<Content<P, O, R>>, View<P, O, R>>,
    stamp: u64,
}

fn tell<L: Layout>(sys: &Sys<L>, pass: &mut Pass<L>) -> Telling<L::Part, L::Op, L::Reply>
    requires ours { IsOf sys.now pass.old }
    ensures same { pass.new ≡ pass.old }
    ensures tells { TellsStamp sys.now result }
    ensures clock { result.stamp ≡ pass.old.view.taker.clock }
{
    Telling {
        stamp: pass.clock,
        seat: tell_clock(&sys.board, &mut pass.seat),
    }
}

fn skip<L: Layout>(sys: &Sys<L>, pass: &mut Pass<L>, telling: Telling<L::Part, L::Op, L::Reply>)
    requires ours { IsOf sys.now pass.old }
    requires tells { TellsStamp sys.now telling }
    ensures { pass.new ≡ skipped telling.stamp pass.old }
{
    let Telling { seat, stamp } = telling;
    skip_to(&sys.board, &mut pass.seat, seat);
    pass.clock = pass.clock.max(stamp);
}

/// Each pass skips to what it is told and tells the next of its own clock.
fn skip_on<L: Layout>(
    sys: &Sys<L>,
    passes: &mut [Pass<L>],
    telling: Telling<L::Part, L::Op, L::Reply>,
) -> Telling<L::Part, L::Op, L::Reply>
    requires ours { EachPlace (λ c pass. IsOf sys.now pass) passes.old }
    requires tells { TellsStamp sys.now telling }
    ensures passes { passes.new ≡ skipped_on telling.stamp passes.old }
    ensures tells { TellsStamp sys.now result }
    ensures greatest { result.stamp ≡ max (greatest_clock (views_of passes.old)) telling.stamp }
{
    let Some((pass, others)) = passes.split_first_mut() else {
        return telling;
    };
    skip(sys, pass, telling);
    let own = tell(sys, pass);
    skip_on::<L>(sys, others, own)
}

/// A seat that tells of the first clock, where there is a pass.
fn tell_first<L: Layout>(
    sys: &Sys<L>,
    passes: &mut [Pass<L>],
) -> Option<Telling<L::Part, L::Op, L::Reply>>
    requires ours { EachPlace (λ c pass. IsOf sys.now pass) passes.old }
    ensures same { passes.new ≡ passes.old }
    ensures cases { MatchOption result (length passes.old ≡ 0) (λ telling. TellsStamp sys.now telling × (telling.stamp ≤ greatest_clock (views_of passes.old))) }
{
    let first = passes.first_mut()?;
    Some(tell(sys, first))
}

/// The clocks of the passes are raised to the greatest of them.
fn raise_clocks<L: Layout>(sys: &Sys<L>, passes: &mut [Pass<L>])
    requires ours { EachPlace (λ c pass. IsOf sys.now pass) passes.old }
    ensures { passes.new ≡ map (skipped (greatest_clock (views_of passes.old))) passes.old }
{
    let Some(telling) = tell_first(sys, passes) else {
        return;
    };
    // Behind the last pass the greatest clock is told, to which all skip when they are told again.
    let greatest = skip_on(sys, passes, telling);
    skip_on(sys, passes, greatest);
}

/// The passes give what they have drawn since the last section, in their order.
fn give_rests<L: Layout>(
    alloc: Global,
    passes: &mut [Pass<L>],
    logs: &mut Vec<Log<L::Op, L::Reply>>,
)
    requires keeps { EachPlace (λ c pass. pass.keep.what ≡ keeps.Sections) passes.old }
    requires room { vec_len logs.old + length passes.old ≤ vec_capacity logs.old }
    ensures logs { logged_in logs.new.items ≡ logged_in logs.old.items ++ rests_in passes.old }
    ensures few { entries_in (rests_in passes.old) ≤ length passes.old * PASS_ENTRIES }
    ensures parts { EachPlace (λ c pass. HasParts pass) passes.old }
    ensures passes { passes.new ≡ map given_all passes.old }
{
    if let Some((pass, others)) = passes.split_first_mut() {
        logs.push_reserved(pass.give_rest(alloc));
        give_rests::<L>(alloc, others, logs);
    }
}

/// The passes give a section: what they have drawn since the last one, in their order, and nothing that they draw from now
/// on is as early.
pub fn give_section<L: Layout>(
    sys: &Sys<L>,
    alloc: Global,
    passes: &mut [Pass<L>],
    logs: &mut Vec<Log<L::Op, L::Reply>>,
)
    requires may { MayGiveSection sys.now passes.old }
    requires room { vec_len logs.old + length passes.old ≤ vec_capacity logs.old }
    ensures logs { logged_in logs.new.items ≡ logged_in logs.old.items ++ rests_in passes.old }
    ensures few { entries_in (rests_in passes.old) ≤ length passes.old * PASS_ENTRIES }
    ensures cut { AreCut passes.old }
    ensures passes { passes.new ≡ sectioned passes.old }
{
    raise_clocks(sys, passes);
    give_rests::<L>(alloc, passes, logs);
}
