//! What each step on the tables tells its pass.
use crate::cell::Content;
use crate::view::View;
use atomic_table::Play;

pub(crate) struct LookUp;

impl<P: Drop, O, R> Play<Option<Content<P, O, R>>, View<P, O, R>> for LookUp {
    ghost use Rattle.k42_board.specs.Log.{took};
    ghost use Rattle.k42_board.specs.Steps.{TellsWith};
    ghost use Rattle.k42_board.specs.Tabling.{EntryFound, entry_object, looked_up_view};
    ghost use Rattle.k42_board.specs.declared.view.StepName.TheVariants as steps;

    ghost then = { λ step. TellsWith (λ found v. took steps.LookUp step.word found (looked_up_view (entry_object step.word) found v)) (EntryFound (entry_object step.word)) step };
}

pub(crate) struct LoadRoot;

impl<P: Drop, O, R> Play<Option<Content<P, O, R>>, View<P, O, R>> for LoadRoot {
    ghost use Rattle.k42_board.specs.Log.{took};
    ghost use Rattle.k42_board.specs.Steps.{TellsWith};
    ghost use Rattle.k42_board.specs.Tabling.{RootFound, word_object, rooted_view};
    ghost use Rattle.k42_board.specs.declared.view.StepName.TheVariants as steps;

    ghost then = { λ step. TellsWith (λ found v. took steps.LoadRoot step.word found (rooted_view found v)) (RootFound (word_object step.word)) step };
}

pub(crate) struct EndCall;

impl<P: Drop, O, R> Play<Option<Content<P, O, R>>, View<P, O, R>> for EndCall {
    ghost use Rattle.k42_board.specs.Log.{took};
    ghost use Rattle.k42_board.specs.Steps.{Tells};
    ghost use Rattle.k42_board.specs.Tabling.{ended_view};
    ghost use Rattle.k42_board.specs.declared.view.StepName.TheVariants as steps;

    ghost then = { λ step. Tells (λ found v. took steps.EndCall step.word found (ended_view v)) step };
}

pub(crate) struct StepOut;

impl<P: Drop, O, R> Play<Option<Content<P, O, R>>, View<P, O, R>> for StepOut {
    ghost use Rattle.k42_board.specs.Log.{took};
    ghost use Rattle.k42_board.specs.Steps.{Tells};
    ghost use Rattle.k42_board.specs.Tabling.{ended_view};
    ghost use Rattle.k42_board.specs.declared.view.StepName.TheVariants as steps;

    ghost then = { λ step. Tells (λ found v. took steps.StepOut step.word found (ended_view v)) step };
}

pub(crate) struct Install;

impl<P: Drop, O, R> Play<Option<Content<P, O, R>>, View<P, O, R>> for Install {
    ghost use Rattle.k42_board.specs.Log.{took};
    ghost use Rattle.k42_board.specs.Steps.{Tells};
    ghost use Rattle.k42_board.specs.Tabling.{entry_object, installed_view};
    ghost use Rattle.k42_board.specs.declared.view.StepName.TheVariants as steps;

    ghost then = { λ step. Tells (λ found v. took steps.Install step.word found (installed_view (entry_object step.word) found v)) step };
}

pub(crate) struct Knock;

impl<P: Drop, O, R> Play<Option<Content<P, O, R>>, View<P, O, R>> for Knock {
    ghost use Rattle.k42_board.specs.Log.{took};
    ghost use Rattle.k42_board.specs.Steps.{TellsWith};
    ghost use Rattle.k42_board.specs.Tabling.{ObjectFound, word_object, knocked_view};
    ghost use Rattle.k42_board.specs.declared.view.StepName.TheVariants as steps;

    ghost then = { λ step. TellsWith (λ found v. took steps.Knock step.word found (knocked_view (word_object step.word) found v)) (ObjectFound (word_object step.word)) step };
}

pub(crate) struct Begin;

impl<P: Drop, O, R> Play<Option<Content<P, O, R>>, View<P, O, R>> for Begin {
    ghost use Rattle.k42_board.specs.Log.{took};
    ghost use Rattle.k42_board.specs.Steps.{TellsWith};
    ghost use Rattle.k42_board.specs.Tabling.{ObjectFound, word_object, begun_view};
    ghost use Rattle.k42_board.specs.declared.view.StepName.TheVariants as steps;

    ghost then = { λ step. TellsWith (λ found v. took steps.Begin step.word found (begun_view (word_object step.word) found v)) (ObjectFound (word_object step.word)) step };
}
