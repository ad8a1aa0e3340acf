//! What each step of a swap tells its pass.
use crate::cell::Content;
use crate::view::View;
use atomic_table::Play;

pub(crate) struct ChangeEntry;

impl<P: Drop, O, R> Play<Option<Content<P, O, R>>, View<P, O, R>> for ChangeEntry {
    ghost use Rattle.k42_board.specs.Log.{took};
    ghost use Rattle.k42_board.specs.Steps.{Tells};
    ghost use Rattle.k42_board.specs.Swapping.{changed_view};
    ghost use Rattle.k42_board.specs.declared.view.StepName.TheVariants as steps;

    ghost then = { λ step. Tells (λ found v. took steps.ChangeEntry step.word found (changed_view v)) step };
}

pub(crate) struct Block;

impl<P: Drop, O, R> Play<Option<Content<P, O, R>>, View<P, O, R>> for Block {
    ghost use Rattle.k42_board.specs.Log.{took};
    ghost use Rattle.k42_board.specs.Steps.{Tells};
    ghost use Rattle.k42_board.specs.Swapping.{blocked_view};
    ghost use Rattle.k42_board.specs.declared.view.StepName.TheVariants as steps;

    ghost then = { λ step. Tells (λ found v. took steps.Block step.word found (blocked_view v)) step };
}

pub(crate) struct Move;

impl<P: Drop, O, R> Play<Option<Content<P, O, R>>, View<P, O, R>> for Move {
    ghost use Rattle.k42_board.specs.Log.{took};
    ghost use Rattle.k42_board.specs.Steps.{TellsWith};
    ghost use Rattle.k42_board.specs.Swapping.{CountFound, moved_view};
    ghost use Rattle.k42_board.specs.declared.view.StepName.TheVariants as steps;

    ghost then = { λ step. TellsWith (λ found v. took steps.Move step.word found (moved_view found v)) CountFound step };
}

pub(crate) struct TurnOver;

impl<P: Drop, O, R> Play<Option<Content<P, O, R>>, View<P, O, R>> for TurnOver {
    ghost use Rattle.k42_board.specs.Log.{took};
    ghost use Rattle.k42_board.specs.Steps.{Tells};
    ghost use Rattle.k42_board.specs.Swapping.{turned_view};
    ghost use Rattle.k42_board.specs.declared.view.StepName.TheVariants as steps;

    ghost then = { λ step. Tells (λ found v. took steps.TurnOver step.word found (turned_view v)) step };
}

pub(crate) struct Clear;

impl<P: Drop, O, R> Play<Option<Content<P, O, R>>, View<P, O, R>> for Clear {
    ghost use Rattle.k42_board.specs.Log.{took};
    ghost use Rattle.k42_board.specs.Steps.{TellsWith};
    ghost use Rattle.k42_board.specs.Swapping.{ClearFound, cleared_view};
    ghost use Rattle.k42_board.specs.declared.view.StepName.TheVariants as steps;

    ghost then = { λ step. TellsWith (λ found v. took steps.Clear step.word found (cleared_view v)) ClearFound step };
}
