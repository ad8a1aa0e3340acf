//! What each step on a lock or a slot tells its pass.
use crate::cell::Content;
use crate::view::View;
use atomic_table::Play;
use std::marker::{Brand, PhantomData};

/// What a pass knows of parts once it has taken a cell. It hangs on the declared layouts, so the call picks it.
pub trait Known<P, O, R> {
    ghost use Rattle.k42_board.specs.declared.view.PassView.{PassView};

    ghost known: { PassView P O R → Type 0 };
}

impl<P, O, R> Known<P, O, R> for Brand {
    ghost known = { λ v. Unit {0} };
}

pub(crate) struct Lock;

impl<P: Drop, O, R> Play<Option<Content<P, O, R>>, View<P, O, R>> for Lock {
    ghost use Rattle.k42_board.specs.Log.{took};
    ghost use Rattle.k42_board.specs.Steps.{TellsWith};
    ghost use Rattle.k42_board.specs.Taking.{LockFound, cell_at_lock, locked_view};
    ghost use Rattle.k42_board.specs.declared.view.StepName.TheVariants as steps;

    ghost then = { λ step. TellsWith (λ found v. took steps.Lock step.word found (locked_view (cell_at_lock step.word) found v)) (LockFound (cell_at_lock step.word)) step };
}

pub(crate) struct LockQuietly;

impl<P: Drop, O, R> Play<Option<Content<P, O, R>>, View<P, O, R>> for LockQuietly {
    ghost use Rattle.k42_board.specs.Steps.{TellsWith};
    ghost use Rattle.k42_board.specs.Taking.{LockFound, cell_at_lock, tried_view};

    ghost then = { λ step. TellsWith (tried_view step.word (cell_at_lock step.word)) (LockFound (cell_at_lock step.word)) step };
}

pub(crate) struct Unlock;

impl<P: Drop, O, R> Play<Option<Content<P, O, R>>, View<P, O, R>> for Unlock {
    ghost use Rattle.k42_board.specs.Log.{took};
    ghost use Rattle.k42_board.specs.Steps.{Tells};
    ghost use Rattle.k42_board.specs.Taking.{cell_at_lock, unlocked_view};
    ghost use Rattle.k42_board.specs.declared.view.StepName.TheVariants as steps;

    ghost then = { λ step. Tells (λ found v. took steps.Unlock step.word 0 (unlocked_view (cell_at_lock step.word) v)) step };
}

pub(crate) struct Lift;

impl<P: Drop, O, R> Play<Option<Content<P, O, R>>, View<P, O, R>> for Lift {
    ghost use Rattle.k42_board.specs.Taking.{Lifts};

    ghost then = { Lifts };
}

pub(crate) struct GiveBack<K>(PhantomData<K>);

impl<P: Drop, O, R, K: Known<P, O, R>> Play<Option<Content<P, O, R>>, View<P, O, R>>
    for GiveBack<K> {
    ghost use Rattle.k42_board.specs.Taking.{GivesBackKnown};

    ghost then = { GivesBackKnown K.known };
}

pub(crate) struct Reach;

impl<P: Drop, O, R> Play<Option<Content<P, O, R>>, View<P, O, R>> for Reach {
    ghost use Rattle.k42_board.specs.Taking.{Reaches};

    ghost then = { Reaches };
}

pub(crate) struct PutBack;

impl<P: Drop, O, R> Play<Option<Content<P, O, R>>, View<P, O, R>> for PutBack {
    ghost use Rattle.k42_board.specs.Taking.{Puts};

    ghost then = { Puts };
}
