//! The look-up, and the end of a call.
ghost use Rattle.std.specs.Prelude.{◌≡◌, true, false};
ghost use Rattle.k42_board.specs.Log.{last_found, with_log};
ghost use Rattle.k42_board.specs.Protocol as protocol;
ghost use Rattle.k42_board.specs.Seen.{IsOf, IsPassOf, IsSamePass, is_tracked};
ghost use Rattle.k42_board.specs.Stepping.{MayStep, HasStepped, AlwaysIn};
ghost use Rattle.k42_board.specs.Tabling.{entry_in, ended_view};
ghost use Rattle.k42_tables.specs.Entries.{entered_by, LeadsTo, IfDirect};
ghost use Rattle.k42_tables.specs.Serving.{IsServed, MayFinish};

use crate::answers::Entered;
use crate::laws::cells_inside_are_open;
use k42_board::{entry_cell, tag_in};
use k42_kinds::Layout;
use k42_rule::{Pass, Sys, end_call, look_up_step, rows_inside_are_present, step_out};

/// Where the entry of this word leads.
fn entered_at(word: u64) -> Entered
    ensures { result ≡ entered_by (entry_in word) }
{
    match tag_in(word) {
        0 => Entered::Missed,
        1 => Entered::Direct {
            cell: entry_cell(word),
        },
        _ => Entered::Mediated,
    }
}

/// Reads where its processor's entry of the object leads, and goes there.
pub fn look_up<L: Layout>(sys: &Sys<L>, pass: &mut Pass<L>, object: u32) -> Entered
    requires ours { IsPassOf sys.now pass.old }
    requires may { MayStep L.Layout sys.now (protocol.look_up object) pass.old }
    ensures answered { result ≡ entered_by (entry_in (last_found pass.new.view.log)) }
    ensures there { LeadsTo result object pass.new.view.visitor.place }
    ensures served { IfDirect result (λ cell. AlwaysIn L.Layout sys.now pass.new (IsServed object cell pass.new.view)) }
    ensures stepped { HasStepped L.Layout sys.now (protocol.look_up object) pass.old (last_found pass.new.view.log) pass.new }
{
    rows_inside_are_present(sys);
    cells_inside_are_open(sys);
    entered_at(look_up_step(sys, pass, object))
}

/// Ends a direct or a tracked call.
pub fn finish_call<L: Layout>(sys: &Sys<L>, pass: &mut Pass<L>)
    requires ours { IsOf sys.now pass.old }
    requires may { MayFinish pass.old.view }
    ensures same { IsSamePass pass.old pass.new }
    ensures knows { pass.new.view ≡ with_log pass.new.view.log (ended_view pass.old.view) }
    ensures direct { is_tracked pass.old.view.visitor.place ≡ false
        → HasStepped L.Layout sys.now protocol.end_call pass.old (last_found pass.new.view.log) pass.new }
    ensures tracked { is_tracked pass.old.view.visitor.place ≡ true
        → HasStepped L.Layout sys.now protocol.step_out pass.old (last_found pass.new.view.log) pass.new }
{
    if pass.inside().tracked {
        step_out(sys, pass);
    } else {
        end_call(sys, pass);
    }
}
