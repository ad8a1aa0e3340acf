//! Waiting for a grace.
ghost use Rattle.k42_board.specs.Gracing.{MayTakeRole};
ghost use Rattle.k42_board.specs.Seen.{IsPassOf, IsSamePass};
ghost use Rattle.k42_board.specs.Stepping.{layouts_in};
ghost use Rattle.k42_quiesce.specs.Gracing.{HasGraced};
ghost use Rattle.k42_quiesce.specs.Quiet.{IsQuiet};

use crate::steps::{Grace, GraceStep};
use crossbeam_utils::Backoff;
use k42_kinds::Layout;
use k42_rule::{Pass, Sys};
use std::sync::Wait;

/// Steps a grace until it is quiet.
pub fn grace<L: Layout, R: Wait>(rt: &R, sys: &Sys<L>, pass: &mut Pass<L>)
    requires ours { IsPassOf sys.now pass.old }
    requires may { MayTakeRole pass.old.view }
    ensures ours { IsPassOf sys.now pass.new }
    ensures same { IsSamePass pass.old pass.new }
    ensures quiet { IsQuiet (layouts_in L.Layout sys.now) sys.now.layouts pass.new.seat pass.new.view }
    ensures graced { HasGraced (layouts_in L.Layout sys.now) sys.now.layouts pass.old.seat pass.old.view pass.new.view }
{
    let mut grace = Grace::new();
    let backoff = Backoff::new();
    for _ in rt.forever() {
        if grace.step(sys, pass) == GraceStep::Quiet {
            return;
        }
        backoff.snooze();
    }
    unreachable!()
}
