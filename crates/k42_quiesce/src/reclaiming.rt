//! Rows are freed once a grace is quiet.
ghost use Rattle.std.specs.Prelude.{◌≡◌, ◌<◌, length, take};
ghost use Rattle.k42_stamp.specs.Laws.{AreLaws};
ghost use Rattle.k42_board.specs.Gracing.{HasGiven};
ghost use Rattle.k42_board.specs.Seen.{IsPassOf, IsSamePass};
ghost use Rattle.k42_board.specs.Stepping.{AlwaysIn, layouts_in};
ghost use Rattle.k42_quiesce.specs.Reclaiming.{MayReclaim, Sweeps, Reclaims, AreFreed, AreRowsFreed, IsSwapFreed, reclaimed_view};

use crate::emptying::empty_row;
use k42_kinds::Layout;
use k42_rule::{Pass, Sys, free, give_role, layouts_are_lawful};

/// Frees what the grace noted of one object, and answers how many rows that are.
fn sweep<L: Layout>(sys: &Sys<L>, pass: &mut Pass<L>, object: u32) -> u32
    requires ours { IsPassOf sys.now pass.old }
    requires laws { AreLaws (layouts_in L.Layout sys.now) }
    requires there { (object < length sys.now.layouts) × (object < 16) }
    requires may { MayReclaim pass.old.view }
    ensures same { IsSamePass pass.old pass.new }
    ensures one { result < 2 }
    ensures sweeps { Sweeps sys.now.procs object result pass.old.view pass.new.view }
{
    let Some(number) = pass.noted(object) else {
        return 0;
    };
    let found = free(sys, pass, object);
    if found >= u64::from(number) {
        return 0;
    }
    // The mark is short by one row.
    empty_row(sys, pass, object, found as u32);
    1
}

/// Frees what the grace of the pass noted, gives its role back, and answers how many rows it has freed. These rows' parts
/// are dropped. It does not wait.
pub fn reclaim<L: Layout>(sys: &Sys<L>, pass: &mut Pass<L>) -> u32
    requires ours { IsPassOf sys.now pass.old }
    requires may { MayReclaim pass.old.view }
    ensures same { HasGiven pass.old pass.new }
    ensures knows { pass.new.view ≡ reclaimed_view pass.old.view pass.new.view }
    ensures freed { Reclaims sys.now.procs (length sys.now.layouts) pass.old.view.visitor.noted pass.old.view.log pass.new.view.log result }
    ensures marks { AlwaysIn L.Layout sys.now pass.new (AreFreed pass.old.view.visitor.noted) }
    ensures rows { AlwaysIn L.Layout sys.now pass.new (AreRowsFreed (take pass.old.view.granted pass.old.view.rows)) }
    ensures swap { AlwaysIn L.Layout sys.now pass.new (IsSwapFreed pass.new.view) }
{
    layouts_are_lawful(sys);
    let mut count = 0;
    for object in 0..sys.objects() {
        count += sweep(sys, pass, object);
    }
    give_role(sys, pass);
    count
}
