//! The table.
use crate::cell::Cell;
use crate::setup::Setup;
use crate::view::View;
use atomic_table::{Seat, Table, TableRule};
use k42_kinds::{Kind, Layout};
use std::alloc::Global;
use std::marker::PhantomData;

pub struct Ruling<L> {
    layout: PhantomData<L>,
}

impl<L: Layout> TableRule<Option<Cell<L>>, View<L::Part, L::Op, L::Reply>, Setup<L>> for Ruling<L> {
    ghost use Rattle.std.specs.Prelude.{length};
    ghost use Rattle.k42_board.specs.Plan.{layouts_on};
    ghost use Rattle.k42_board.specs.Rule.{Ruled};
    ghost use Rattle.k42_board.specs.Views.{first_view};

    ghost holds = { λ key s. Ruled
        (layouts_on L.object L.shapes L.tag_of L.ways L.whole L.serves L.admitted L.act_of key.procs key.callers.items)
        key.layouts.items (length key.callers.items) s };

    ghost first = { λ key. first_view L.shapes key.procs key.layouts.items key.callers.items };
}

pub type Board<L> = Table<
    Option<Cell<L>>,
    View<<L as Layout>::Part, <L as Kind>::Op, <L as Kind>::Reply>,
    Setup<L>,
    Ruling<L>,
    Global,
>;

pub type BoardSeat<L> = Seat<
    Option<Cell<L>>,
    View<<L as Layout>::Part, <L as Kind>::Op, <L as Kind>::Reply>,
>;
