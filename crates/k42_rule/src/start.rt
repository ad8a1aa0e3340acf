//! How a system starts.
ghost use Rattle.std.specs.Prelude.{◌≡◌, ◌<◌, ◌≤◌, ℕ, List, [], ◌∷◌, length, map, IfOk};
ghost use Rattle.k42_places.specs.Places.{EachPlace};
ghost use Rattle.crossbeam_queue.specs.SegTies.{IsSegPassOf};
ghost use Rattle.k42_board.specs.Dealing.{dealer};
ghost use Rattle.k42_board.specs.Queueing.{IsTied};
ghost use Rattle.k42_board.specs.Starting.{IsNewPass, AreDealt};
ghost use Rattle.k42_board.specs.Views.{new_pass, new_passes};
ghost use Rattle.k42_board.specs.Words.{many_words};
ghost use Rattle.k42_board.specs.declared.view.PassView.{PassView};
ghost use Rattle.k42_board.specs.declared.view.View.TheVariants.{Crew};

use crate::pass::{Pass, Walker};
use gen_core::GraceAt;
use k42_board::{Another, Board, BoardSeat, Deal, Keep, Line, Post};
use k42_kinds::Layout;
use k42_log::Log;
use k42_memory::Memory;
use phase_core::SwapAt;
use std::alloc::Global;

fn deal<L: Layout>(
    alloc: Global,
    board: &Board<L>,
    seat: &mut BoardSeat<L>,
    line: &Line<L::Part, L::Op, L::Reply>,
    root: &mut Post<L::Part, L::Op, L::Reply>,
    procs: u32,
    objects: usize,
    keep: Keep,
    number: u32,
    home: u32,
) -> Result<Pass<L>, Memory>
    requires ours { (seat.old.table_id ≡ board.now.shared.table_id) × (board.now.shared.table_id.words ≡ many_words) }
    requires few { (procs ≤ 8) × (home < 8) × (objects ≡ length board.now.shared.key.layouts.items) }
    requires post { IsSegPassOf line.now root.old × IsTied board.now.shared.table_id root.old.me.view.client }
    requires crew { (rest : List (PassView L.Part L.Op L.Reply)) × (seat.old.me ≡ (Crew (new_pass procs (map L.shapes board.now.shared.key.layouts.items) number home ∷ rest), [])) }
    ensures ours { (seat.new.table_id ≡ seat.old.table_id) × (seat.new.me ≡ (dealer seat.old.me.0, [])) }
    ensures post { IsSegPassOf line.now root.new × IsTied board.now.shared.table_id root.new.me.view.client }
    ensures dealt { IfOk result (λ pass. IsNewPass board.now.shared.table_id line.now keep procs (map L.shapes board.now.shared.key.layouts.items) number home pass) }
{
    let post = line.another::<Another>(root);
    let own = board.shared.split_seat::<Deal>(seat);
    let waits = Vec::from_elem(alloc, 0u32, procs as usize)?;
    let noted = Vec::from_elem(alloc, None, objects)?;
    let freeing = Vec::from_elem(alloc, (0u32, 0u32), objects)?;
    let rows = Vec::with_capacity(alloc, 64)?;
    Ok(Walker {
        seat: own,
        post,
        number,
        home,
        active: None,
        grace: GraceAt::Idle,
        coming: None,
        waits,
        place: phase_core::Place::Out,
        noted,
        freeing,
        swap: SwapAt::Idle,
        drawn: 0,
        clock: 0,
        keep,
        given: 0,
        since: 0,
        kept: Log::new(alloc, number, home, 0),
        graces: 0,
        base: None,
        last: None,
        turned: false,
        layout: None,
        handed: None,
        rows,
        granted: 0,
        _apart: [0; 16],
    })
}

pub(crate) fn deal_all<L: Layout>(
    alloc: Global,
    board: &Board<L>,
    seat: &mut BoardSeat<L>,
    line: &Line<L::Part, L::Op, L::Reply>,
    root: &mut Post<L::Part, L::Op, L::Reply>,
    procs: u32,
    objects: usize,
    keep: Keep,
    homes: &[u32],
) -> Result<Vec<Pass<L>>, Memory>
    requires ours { (seat.old.table_id ≡ board.now.shared.table_id) × (board.now.shared.table_id.words ≡ many_words) }
    requires few { (procs ≤ 8) × (objects ≡ length board.now.shared.key.layouts.items) }
    requires post { IsSegPassOf line.now root.old × IsTied board.now.shared.table_id root.old.me.view.client }
    requires crew { seat.old.me ≡ (Crew (new_passes procs (map L.shapes board.now.shared.key.layouts.items) 0 homes.now), []) }
    requires homes { (length homes.now ≤ 16) × EachPlace (λ c home. home < 8) homes.now }
    ensures { IfOk result (λ passes. AreDealt board.now.shared.table_id line.now keep procs (map L.shapes board.now.shared.key.layouts.items) homes.now passes.items) }
{
    let mut passes = Vec::with_capacity(alloc, homes.len())?;
    for (number, home) in homes.iter().enumerate() {
        let pass = deal(
            alloc,
            board,
            seat,
            line,
            root,
            procs,
            objects,
            keep,
            number as u32,
            *home,
        )?;
        passes.push(pass)?;
    }
    Ok(passes)
}
