//! A system.
ghost use Rattle.std.specs.Prelude.{◌≡◌, ◌<◌, ◌≤◌, Some, [], length, slice_get, slice_index_or, IfOk};
ghost use Rattle.k42_limits.specs.declared.TheConstants.{OBJECTS, PROCESSORS};
ghost use Rattle.k42_rule.specs.Finishing.{AreAtRest, AreLastLists, lists_in};
ghost use Rattle.k42_rule.specs.Opened.{IsOpened};
ghost use Rattle.k42_rule.specs.Tags.{HasTags, HaveTags};
ghost use Rattle.k42_board.specs.Plan.{layouts_of};
ghost use Rattle.k42_board.specs.Stepping.{layouts_in};
ghost use Rattle.k42_board.specs.Starting.{IsStart, IsStarted};

use crate::finish::{close, gather};
use crate::pass::{Pass, Walker};
use crate::start::deal_all;
use atomic_table::Table;
use k42_board::{Board, Keep, Lane, Line, Setup, first_slots, first_words, tie_root};
use k42_kinds::Layout;
use k42_memory::Memory;
use std::alloc::Global;
use std::marker::Model;

#[derive(Drop)]
pub struct Sys<L: Layout> {
    pub(crate) board: Board<L>,
    /// The layouts with which the objects were started.
    layouts: Vec<L>,
    pub(crate) procs: u32,
    keep: Keep,
    pub(crate) lane: Lane<L::Part, L::Op, L::Reply>,
}

impl<L: Layout> Model for Sys<L> {
    ghost use Rattle.std.specs.Prelude.{◌≡◌, ◌<◌, ◌≤◌, length, map};
    ghost use Rattle.k42_limits.specs.declared.TheConstants.{PROCESSORS};
    ghost use Rattle.k42_stamp.specs.Laws.{AreLaws};
    ghost use Rattle.k42_rule.specs.Tags.{HaveTags};
    ghost use Rattle.k42_board.specs.Plan.{layouts_on};
    ghost use Rattle.k42_board.specs.Seen.{SysSeen};
    ghost use Rattle.k42_board.specs.Words.{many_words, many_slots};

    ghost Value = { SysSeen L };

    ghost view = { λ s. record {
      table = s.board.shared.table_id;
      queue = s.lane.line;
      keep = s.keep;
      procs = s.board.shared.key.procs;
      layouts = s.board.shared.key.layouts.items;
      shapes = map L.shapes s.board.shared.key.layouts.items;
      callers = s.board.shared.key.callers.items;
    } };

    ghost invariant = { λ s. (s.board.shared.table_id.words ≡ many_words) × (s.board.shared.table_id.slots ≡ many_slots)
        × (s.layouts.items ≡ s.board.shared.key.layouts.items) × (s.procs ≡ s.board.shared.key.procs)
        × (length s.layouts.items ≤ 16)
        × AreLaws (layouts_on L.object L.shapes L.tag_of L.ways L.whole L.serves L.admitted L.act_of s.board.shared.key.procs s.board.shared.key.callers.items)
        × (0 < length s.board.shared.key.callers.items)
        × (s.board.shared.key.procs ≤ PROCESSORS)
        × HaveTags L.shapes L.has_tag s.layouts.items };
}

impl<L: Layout> Sys<L> {
    /// A system with the declared layouts, and a pass for each caller on its processor, which keeps its entries so.
    pub fn start(
        alloc: Global,
        layouts: Vec<L>,
        procs: u32,
        callers: Vec<u32>,
        keep: Keep,
    ) -> Result<(Sys<L>, Vec<Pass<L>>), Memory>
        requires start { IsStart L.shapes L.tag_of layouts.items procs callers.items }
        requires tags { HaveTags L.shapes L.has_tag layouts.items }
        ensures started { IfOk result (λ made. IsStarted layouts.items procs callers.items made.0 made.1.items) }
        ensures keeps { IfOk result (λ made. made.0.keep ≡ keep) }
        ensures opened { IfOk result (λ made. IsOpened
            (layouts_of L.Layout procs callers.items)
            layouts.items callers.items) }
    {
        let Ok((line, mut root)) = Line::<L::Part, L::Op, L::Reply>::with_rule(alloc) else {
            return Err(Memory);
        };
        let lane = Lane { line };
        let words = first_words(alloc, layouts.as_slice())?;
        let slots = first_slots(alloc)?;
        let setup = Setup {
            procs,
            layouts,
            callers,
        };
        let Ok((board, mut seat)) = Table::new(alloc, words.as_slice(), slots, &setup) else {
            return Err(Memory);
        };
        let objects = setup.layouts.len();
        tie_root(&lane.line, &mut root, &seat);
        let passes = deal_all(
            alloc,
            &board,
            &mut seat,
            &lane.line,
            &mut root,
            procs,
            objects,
            keep,
            setup.callers.as_slice(),
        )?;
        let Setup { layouts, .. } = setup;
        let sys = Sys {
            board,
            layouts,
            procs,
            keep,
            lane,
        };
        Ok((sys, passes))
    }

    /// Ends the system, and drops what its passes have kept. The lists that they have drawn are those of a state that
    /// meets the whole invariant, in which everybody rests.
    pub fn finish(self, mut passes: Vec<Pass<L>>)
        requires { AreAtRest self passes.items }
        ensures { AreLastLists (layouts_in L.Layout self) self.layouts (length self.callers) (lists_in passes.items) }
    {
        let Sys { board, .. } = self;
        let Walker { mut seat, .. } = passes.remove(0);
        gather(&board, &mut seat, passes);
        close(board, seat);
    }

    pub fn procs(&self) -> u32
        ensures is { result ≡ self.now.procs }
        ensures few { result ≤ PROCESSORS }
    {
        self.procs
    }

    pub fn objects(&self) -> u32
        ensures is { result ≡ length self.now.layouts }
        ensures few { result ≤ OBJECTS }
    {
        self.layouts.len() as u32
    }

    /// Which of their entries its passes keep.
    pub fn keep(&self) -> Keep
        ensures { result ≡ self.now.keep }
    {
        self.keep
    }

    /// The layout with which the object was started.
    pub fn declared(&self, object: u32) -> L
        requires { object < length self.now.layouts }
        ensures is { slice_get self.now.layouts object ≡ Some result }
        ensures shapes { slice_index_or self.now.shapes object [] ≡ L.shapes result }
        ensures tags { HasTags L.shapes L.has_tag result }
    {
        self.layouts[object as usize]
    }
}
