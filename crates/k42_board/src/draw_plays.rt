//! What the step that draws an entry tells its pass, and what a cell is told of it.
use crate::cell::Content;
use crate::view::View;
use atomic_table::{Play, Split};
use std::marker::{Brand, PhantomData};

/// What becomes of the pass. A draw names its entry, which no word has, so the call that draws picks it.
pub trait Said<P, O, R> {
    ghost use Rattle.k42_board.specs.declared.view.PassView.{PassView};

    ghost becomes: { PassView P O R → PassView P O R };
}

impl<P, O, R> Said<P, O, R> for Brand {
    ghost becomes = { λ v. v };
}

pub(crate) struct Draw<K>(PhantomData<K>);

impl<P: Drop, O, R, K: Said<P, O, R>> Play<Option<Content<P, O, R>>, View<P, O, R>> for Draw<K> {
    ghost use Rattle.k42_board.specs.Drawing.{HasSmallStamp};
    ghost use Rattle.k42_board.specs.Log.{took};
    ghost use Rattle.k42_board.specs.Steps.{TellsWith};
    ghost use Rattle.k42_board.specs.declared.view.StepName.TheVariants as steps;

    ghost then = { λ step. TellsWith (λ found v. took steps.Draw step.word 0 (K.becomes v)) (λ v found. HasSmallStamp (K.becomes v)) step };
}

pub(crate) struct Receipt;

impl<P, O, R> Split<View<P, O, R>> for Receipt {
    ghost use Rattle.k42_board.specs.Receipts.{telling, receipt};

    ghost left = { telling };

    ghost right = { receipt };
}
