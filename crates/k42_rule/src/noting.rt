//! What a pass notes as it takes the role.
ghost use Rattle.std.specs.Prelude.{◌≡◌, ◌≤◌, ◌<◌, true, length};
ghost use Rattle.k42_kinds.specs.Rows.{made_from};
ghost use Rattle.k42_limits.specs.declared.TheConstants.{LAST_INCARNATION};
ghost use Rattle.k42_places.specs.Places.{EachPlace};
ghost use Rattle.phase_core.specs.Stages.{may_take};
ghost use Rattle.k42_board.specs.Noting.{after_rows, due_of};

use crate::begun::incarnation_at;
use k42_board::{LastBegin, Row};
use phase_core::SwapAt;

/// One more than the newest of the rows that are of the object.
fn after_rows(rows: &[Row], object: u32) -> Option<u32>
    requires { EachPlace (λ place row. row.incarnation < LAST_INCARNATION) rows.now }
    ensures { result ≡ after_rows rows.now object }
{
    let mut note = None;
    let mut at = rows.len();
    while at > 0 {
        at -= 1;
        let row = rows[at];
        if row.object == object {
            note = Some((row.incarnation + 1).max(note.unwrap_or(0)));
        }
    }
    note
}

fn note_due(swap: SwapAt, last: Option<LastBegin>, rows: &[Row], object: u32) -> Option<u32>
    requires may { may_take swap ≡ true }
    requires rows { EachPlace (λ place row. row.incarnation < LAST_INCARNATION) rows.now }
    ensures { result ≡ due_of swap last rows.now object }
{
    match swap {
        SwapAt::Interposed(own) if own == object => Some(incarnation_at(&last)),
        _ => after_rows(rows, object),
    }
}

/// Each object gets the number that is due.
pub(crate) fn note_all(
    noted: &mut [Option<u32>],
    swap: SwapAt,
    last: Option<LastBegin>,
    rows: &[Row],
)
    requires few { length noted.old ≤ 16 }
    requires may { may_take swap ≡ true }
    requires rows { EachPlace (λ place row. row.incarnation < LAST_INCARNATION) rows.now }
    ensures { noted.new ≡ made_from (due_of swap last rows.now) 0 (length noted.old) }
{
    for object in 0..noted.len() {
        noted[object] = note_due(swap, last, rows, object as u32);
    }
}
