//! The steps on the words of the tables, for a seat alone.
ghost use Rattle.std.specs.Prelude.{◌≡◌, ◌<◌};
ghost use Rattle.phase_core.specs.Stages.{object_of};
ghost use Rattle.k42_board.specs.Protocol as protocol;
ghost use Rattle.k42_board.specs.Stepping.{MayTake, HasTaken};
ghost use Rattle.k42_board.specs.Tabling.{empty_before, direct_after};
ghost use Rattle.k42_board.specs.Views.{pass_in};

use crate::board::{Board, BoardSeat};
use crate::encoding::{SWAP, local_word, object_word};
use crate::table_plays::{Begin, EndCall, Install, Knock, LoadRoot, LookUp, StepOut};
use k42_kinds::Layout;

pub fn look_up_word<L: Layout>(
    board: &Board<L>,
    seat: &mut BoardSeat<L>,
    home: usize,
    object: usize,
) -> u64
    requires places { (home < 8) × ((pass_in seat.old.me.0).turn.proc ≡ home) × (object < 16) }
    requires may { MayTake L.Layout board.now.shared.table_id board.now.shared.key (protocol.look_up object) seat.old }
    ensures { HasTaken L.Layout board.now.shared.key (protocol.look_up object) seat.old result seat.new }
{
    board.shared.load::<LookUp>(seat, local_word(home, object))
}

pub fn root_word<L: Layout>(board: &Board<L>, seat: &mut BoardSeat<L>, object: usize) -> u64
    requires places { object < 16 }
    requires may { MayTake L.Layout board.now.shared.table_id board.now.shared.key (protocol.load_root object) seat.old }
    ensures { HasTaken L.Layout board.now.shared.key (protocol.load_root object) seat.old result seat.new }
{
    board.shared.load::<LoadRoot>(seat, object_word(object))
}

pub fn end_word<L: Layout>(
    board: &Board<L>,
    seat: &mut BoardSeat<L>,
    home: usize,
    object: usize,
) -> u64
    requires places { (home < 8) × ((pass_in seat.old.me.0).turn.proc ≡ home) × (object_of (pass_in seat.old.me.0).visitor.place ≡ object) × (object < 16) }
    requires may { MayTake L.Layout board.now.shared.table_id board.now.shared.key protocol.end_call seat.old }
    ensures { HasTaken L.Layout board.now.shared.key protocol.end_call seat.old result seat.new }
{
    board.shared.load::<EndCall>(seat, local_word(home, object))
}

pub fn install_word<L: Layout>(
    board: &Board<L>,
    seat: &mut BoardSeat<L>,
    home: usize,
    object: usize,
    cell: u32,
    old: u64,
    new: u64,
) -> u64
    requires places { (home < 8) × ((pass_in seat.old.me.0).turn.proc ≡ home) × (object < 16) }
    requires words { (old ≡ empty_before (pass_in seat.old.me.0)) × (new ≡ direct_after object (pass_in seat.old.me.0)) }
    requires may { MayTake L.Layout board.now.shared.table_id board.now.shared.key (protocol.install object cell) seat.old }
    ensures { HasTaken L.Layout board.now.shared.key (protocol.install object cell) seat.old result seat.new }
{
    board
        .shared
        .compare_exchange::<Install>(seat, local_word(home, object), old, new)
}

pub fn knock_word<L: Layout>(board: &Board<L>, seat: &mut BoardSeat<L>, object: usize) -> u64
    requires places { object < 16 }
    requires may { MayTake L.Layout board.now.shared.table_id board.now.shared.key (protocol.knock object) seat.old }
    ensures { HasTaken L.Layout board.now.shared.key (protocol.knock object) seat.old result seat.new }
{
    board
        .shared
        .fetch_add::<Knock>(seat, object_word(object), 1)
}

pub fn step_out_word<L: Layout>(board: &Board<L>, seat: &mut BoardSeat<L>, object: usize) -> u64
    requires places { (object < 16) × (object_of (pass_in seat.old.me.0).visitor.place ≡ object) }
    requires may { MayTake L.Layout board.now.shared.table_id board.now.shared.key protocol.step_out seat.old }
    ensures { HasTaken L.Layout board.now.shared.key protocol.step_out seat.old result seat.new }
{
    board
        .shared
        .fetch_sub::<StepOut>(seat, object_word(object), 1)
}

pub fn begin_word<L: Layout>(board: &Board<L>, seat: &mut BoardSeat<L>, object: usize) -> u64
    requires places { object < 16 }
    requires may { MayTake L.Layout board.now.shared.table_id board.now.shared.key (protocol.begin object) seat.old }
    ensures { HasTaken L.Layout board.now.shared.key (protocol.begin object) seat.old result seat.new }
{
    board
        .shared
        .fetch_or::<Begin>(seat, object_word(object), SWAP)
}
