//! What each step on the table tells its pass.
use crate::cell::Content;
use crate::view::View;
use atomic_table::{Join, Play, Split};

pub(crate) struct Enter;

impl<P: Drop, O, R> Play<Option<Content<P, O, R>>, View<P, O, R>> for Enter {
    ghost use Rattle.k42_board.specs.Generating.{entered_view, EnteredFound};
    ghost use Rattle.k42_board.specs.Log.{took};
    ghost use Rattle.k42_board.specs.Steps.{TellsWith};
    ghost use Rattle.k42_board.specs.declared.view.StepName.TheVariants as steps;

    ghost then = { λ step. TellsWith (λ found v. took steps.Enter step.word found (entered_view found v)) EnteredFound step };
}

pub(crate) struct Leave;

impl<P: Drop, O, R> Play<Option<Content<P, O, R>>, View<P, O, R>> for Leave {
    ghost use Rattle.k42_board.specs.Generating.{left_view};
    ghost use Rattle.k42_board.specs.Log.{took};
    ghost use Rattle.k42_board.specs.Steps.{Tells};
    ghost use Rattle.k42_board.specs.declared.view.StepName.TheVariants as steps;

    ghost then = { λ step. Tells (λ found v. took steps.Leave step.word found (left_view v)) step };
}

pub(crate) struct TakeRole;

impl<P: Drop, O, R> Play<Option<Content<P, O, R>>, View<P, O, R>> for TakeRole {
    ghost use Rattle.k42_board.specs.Gracing.{role_view, RoleFound};
    ghost use Rattle.k42_board.specs.Log.{took};
    ghost use Rattle.k42_board.specs.Steps.{TellsWith};
    ghost use Rattle.k42_board.specs.declared.view.StepName.TheVariants as steps;

    ghost then = { λ step. TellsWith (λ found v. took steps.TakeRole step.word found (role_view found v)) RoleFound step };
}

pub(crate) struct AskGeneration;

impl<P: Drop, O, R> Play<Option<Content<P, O, R>>, View<P, O, R>> for AskGeneration {
    ghost use Rattle.k42_board.specs.Gracing.{asked_view, GenerationFound};
    ghost use Rattle.k42_board.specs.Log.{took};
    ghost use Rattle.k42_board.specs.Steps.{TellsWith};
    ghost use Rattle.k42_board.specs.declared.view.StepName.TheVariants as steps;

    ghost then = { λ step. TellsWith (λ found v. took steps.AskGeneration step.word found (asked_view found v)) GenerationFound step };
}

pub(crate) struct Look;

impl<P: Drop, O, R> Play<Option<Content<P, O, R>>, View<P, O, R>> for Look {
    ghost use Rattle.k42_board.specs.Gracing.{looked_view, ExitsFound};
    ghost use Rattle.k42_board.specs.Log.{took};
    ghost use Rattle.k42_board.specs.Steps.{TellsWith};
    ghost use Rattle.k42_board.specs.declared.view.StepName.TheVariants as steps;

    ghost then = { λ step. TellsWith (λ found v. took steps.Look step.word found (looked_view found v)) ExitsFound step };
}

pub(crate) struct Flip;

impl<P: Drop, O, R> Play<Option<Content<P, O, R>>, View<P, O, R>> for Flip {
    ghost use Rattle.k42_board.specs.Gracing.{flipped_view};
    ghost use Rattle.k42_board.specs.Log.{took};
    ghost use Rattle.k42_board.specs.Steps.{Tells};
    ghost use Rattle.k42_board.specs.declared.view.StepName.TheVariants as steps;

    ghost then = { λ step. Tells (λ found v. took steps.Flip step.word found (flipped_view found v)) step };
}

pub(crate) struct GiveRole;

impl<P: Drop, O, R> Play<Option<Content<P, O, R>>, View<P, O, R>> for GiveRole {
    ghost use Rattle.k42_board.specs.Gracing.{given_view, RowsGiven};
    ghost use Rattle.k42_board.specs.Log.{took};
    ghost use Rattle.k42_board.specs.Steps.{TellsWith};
    ghost use Rattle.k42_board.specs.declared.view.StepName.TheVariants as steps;

    ghost then = { λ step. TellsWith (λ found v. took steps.GiveRole step.word 0 (given_view v)) RowsGiven step };
}

pub(crate) struct Free;

impl<P: Drop, O, R> Play<Option<Content<P, O, R>>, View<P, O, R>> for Free {
    ghost use Rattle.k42_board.specs.Freeing.{freed_view, MarkFound};
    ghost use Rattle.k42_board.specs.Log.{took};
    ghost use Rattle.k42_board.specs.Steps.{TellsWith};
    ghost use Rattle.k42_board.specs.Words.{freed_object};
    ghost use Rattle.k42_board.specs.declared.view.StepName.TheVariants as steps;

    ghost then = { λ step. TellsWith (λ found v. took steps.Free step.word found (freed_view (freed_object step.word) found v)) (MarkFound (freed_object step.word)) step };
}

pub(crate) struct TellClock;

impl<P, O, R> Split<View<P, O, R>> for TellClock {
    ghost use Rattle.k42_board.specs.Skipping.{clock_told};

    ghost left = { λ view. view };

    ghost right = { clock_told };
}

pub(crate) struct Skip;

impl<P, O, R> Join<View<P, O, R>> for Skip {
    ghost use Rattle.k42_board.specs.Skipping.{skipping};
    ghost use Rattle.k42_board.specs.declared.view.View.TheVariants.{Spent};

    ghost both = { skipping };

    ghost spent = { Spent };
}

pub struct Deal;

impl<P, O, R> Split<View<P, O, R>> for Deal {
    ghost use Rattle.k42_board.specs.Dealing.{dealer, dealt};

    ghost left = { dealer };

    ghost right = { dealt };
}

pub struct Gather;

impl<P, O, R> Join<View<P, O, R>> for Gather {
    ghost use Rattle.k42_board.specs.Dealing.{both_crews};
    ghost use Rattle.k42_board.specs.declared.view.View.TheVariants.{Spent};

    ghost both = { both_crews };

    ghost spent = { Spent };
}
