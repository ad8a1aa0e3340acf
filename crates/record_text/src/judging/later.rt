//! What later lines say about how far an object can have come.
ghost use Rattle.std.specs.Prelude.{◌≡◌, ◌<◌, ℕ, IfOk, All};
ghost use Rattle.record_text.specs.Referee.Seen as seen;
ghost use Rattle.record_text.specs.Referee.Seen.{IsPlaced, AreLeast};

use super::marks::Marks;
use crate::record::RecordLine;
use k42_memory::Memory;
use std::alloc::Global;

fn least(one: u32, other: u32) -> u32
    ensures { result ≡ seen.least one other }
{
    if one < other { one } else { other }
}

/// For each line the least incarnation that its worker saw of its object later.
pub fn least_later(alloc: Global, lines: &[RecordLine]) -> Result<Vec<u32>, Memory>
    requires { All IsPlaced lines.now }
    ensures { IfOk result (λ later. AreLeast lines.now later.items) }
{
    let mut marks = Marks::new(u32::MAX);
    let mut later = vec![in alloc; u32::MAX; lines.len()]?;
    for place in (0..lines.len()).rev() {
        let line = &lines[place];
        let mark = marks.get(line.worker, line.object);
        later[place] = mark;
        marks.set(line.worker, line.object, least(line.incarnation, mark));
    }
    Ok(later)
}
