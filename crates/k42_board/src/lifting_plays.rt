//! What a load that lifts a cell tells its pass, where the slot stays out.
use crate::cell::Content;
use crate::slot_plays::Known;
use crate::view::View;
use atomic_table::Play;
use std::marker::PhantomData;

pub(crate) struct LiftOut<K>(PhantomData<K>);

impl<P: Drop, O, R, K: Known<P, O, R>> Play<Option<Content<P, O, R>>, View<P, O, R>>
    for LiftOut<K> {
    ghost use Rattle.k42_board.specs.Lifted.{LiftsKnown};

    ghost then = { LiftsKnown K.known };
}
