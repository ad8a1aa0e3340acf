//! Systems, and the passes that are taken from their lists and given back in the end.
ghost use Rattle.std.specs.Prelude.{◌≡◌, ◌+◌, ◌<◌, ◌≤◌, ◌^◌, ◌++◌, ◌∷◌, [], ◌↔◌, true, length, map, vec_items, vec_len, vec_capacity, IfOk, IfSome, IsSome, OnOk};
ghost use Rattle.std.specs.Option.{option_to_list};
ghost use Rattle.gen_core.specs.State.{IsPlan};
ghost use Rattle.k42_kinds.specs.declared.operation.KindName.TheVariants.{Counter};
ghost use Rattle.k42_kinds.specs.Operations.{layout_number};
ghost use Rattle.k42_board.specs.Starting.{IsStart, IsStarted};
ghost use Rattle.k42_board.specs.declared.keep.Keep.TheVariants as keeps;
ghost use Rattle.k42_rule.specs.Finishing.{kept_in, logged_in};
ghost use Rattle.k42_rule.specs.Tags.{HaveTags};
ghost use Rattle.table_crews.specs.Ready.{HoldsNoCell, HoldNoCells, rests_at, rest_from};

use co_any::AnyLayout;
use k42_kinds::{Entry, KindName, Layout, LayoutName, Packed, PackedReply};
use k42_log::Log;
use k42_memory::Memory;
use k42_rule::{Keep, Pass, Sys, give_logs};
use std::alloc::Global;

/// A pass of a system of any layouts.
pub type Walk = Pass<AnyLayout>;

/// Starts a system. Its passes hold no cell.
pub fn start<L: Layout>(
    alloc: Global,
    layouts: Vec<L>,
    procs: u32,
    callers: Vec<u32>,
    keep: Keep,
) -> Result<(Sys<L>, Vec<Pass<L>>), Memory>
    requires start { IsStart L.shapes L.tag_of layouts.items procs callers.items }
    requires tags { HaveTags L.shapes L.has_tag layouts.items }
    ensures started { IfOk result (λ made. IsStarted layouts.items procs callers.items made.0 made.1.items) }
    ensures free { IfOk result (λ made. HoldNoCells made.0 made.1.items) }
    ensures callers { IfOk result (λ made. length made.0.callers ≡ length callers.items) }
    ensures keeps { IfOk result (λ made. made.0.keep ≡ keep) }
{
    let (sys, passes) = Sys::start(alloc, layouts, procs, callers, keep)?;
    Ok((sys, passes))
}

/// Starts a system of one counter, which keeps all entries.
#[tactic(auto, using(crate::proofs::PassLists::any_tags))]
pub fn start_counter(
    alloc: Global,
    layout: LayoutName,
    procs: u32,
    callers: Vec<u32>,
) -> Result<(Sys<AnyLayout>, Vec<Walk>), Memory>
    requires { IsPlan procs callers.items }
    ensures started { IfOk result (λ made. IsStarted (record { kind = Counter; tag = layout_number layout } ∷ []) procs callers.items made.0 made.1.items) }
    ensures free { IfOk result (λ made. HoldNoCells made.0 made.1.items) }
    ensures callers { IfOk result (λ made. length made.0.callers ≡ length callers.items) }
    ensures keeps { IfOk result (λ made. made.0.keep ≡ keeps.All) }
{
    let layouts = vec![in alloc; AnyLayout::of(KindName::Counter, layout)]?;
    start(alloc, layouts, procs, callers, Keep::All)
}

/// Takes the last pass out of the list, if there is one.
pub fn last<L: Layout>(sys: &Sys<L>, passes: &mut Vec<Pass<L>>) -> Option<Pass<L>>
    requires free { HoldNoCells sys.now passes.old.items }
    ensures taken { passes.old.items ≡ passes.new.items ++ option_to_list result }
    ensures some { IsSome result ↔ (0 < length passes.old.items) }
    ensures free { HoldNoCells sys.now passes.new.items }
    ensures out { IfSome result (λ pass. HoldsNoCell sys.now pass) }
{
    passes.pop()
}

/// Whether the pass is that of the caller with the number, and nothing of it is under way.
fn rests<L: Layout>(pass: &Pass<L>, number: usize) -> bool
    ensures { result ≡ rests_at number pass.now }
{
    pass.caller() as usize == number && pass.is_idle()
}

/// Whether the passes, from one number on, are those of the callers in their order, at rest.
fn rest<L: Layout>(passes: &[Pass<L>], first: usize) -> bool
    requires { first + length passes.now < 2 ^ 64 }
    ensures { result ≡ rest_from first passes.now }
{
    let Some((pass, others)) = passes.split_first() else {
        return true;
    };
    rests::<L>(pass, first) && rest::<L>(others, first + 1)
}

/// What the logs say, as lists.
fn read_all<O: Packed, R: PackedReply>(
    alloc: Global,
    logs: &[Log<O, R>],
    lists: &mut Vec<Vec<Entry<O, R>>>,
) -> Result<(), Memory>
    requires room { vec_len lists.old + length logs.now ≤ vec_capacity lists.old }
    ensures { OnOk result (map vec_items lists.new.items ≡ map vec_items lists.old.items ++ logged_in logs.now) }
{
    let Some((log, others)) = logs.split_first() else {
        return Ok(());
    };
    lists.push_reserved(log.unread().collect(alloc)?);
    read_all(alloc, others, lists)
}

/// The lists that the passes of all callers have kept. There are none where a pass is not in its place, or has something under way.
pub fn finish<L: Layout>(
    alloc: Global,
    sys: Sys<L>,
    mut passes: Vec<Pass<L>>,
) -> Result<Option<Vec<Vec<Entry<L::Op, L::Reply>>>>, Memory>
    requires many { length passes.items ≡ length sys.callers }
    requires free { HoldNoCells sys passes.items }
    ensures rest { IfOk result (λ lists. IsSome lists ↔ (rest_from 0 passes.items ≡ true)) }
    ensures lists { IfOk result (λ lists. IfSome lists (λ drawn. map vec_items drawn.items ≡ kept_in passes.items)) }
{
    if !rest::<L>(passes.as_slice(), 0) {
        return Ok(None);
    }
    let mut logs = Vec::with_capacity(alloc, passes.len())?;
    give_logs::<L>(alloc, passes.as_mut_slice(), &mut logs);
    sys.finish(passes);
    let mut lists = Vec::with_capacity(alloc, logs.len())?;
    read_all(alloc, logs.as_slice(), &mut lists)?;
    Ok(Some(lists))
}
