//! The first words and slots of a table.
ghost use Rattle.std.specs.Prelude.{◌≡◌, ◌≤◌, length, IfOk};
ghost use Rattle.k42_shapes.specs.Shapes.{IsLiveTag};
ghost use Rattle.k42_places.specs.Places.{EachPlace};
ghost use Rattle.k42_board.specs.Starting.{AreFirstWords, AreFirstSlots};
ghost use Rattle.k42_board.specs.Words.{many_slots};

use crate::cell::Content;
use crate::encoding::object_word;
use atomic_table::Badge;
use k42_kinds::Layout;
use k42_memory::Memory;
use std::alloc::Global;

pub fn first_words<L: Layout>(alloc: Global, layouts: &[L]) -> Result<Vec<u64>, Memory>
    requires few { length layouts.now ≤ 16 }
    requires live { EachPlace (λ o layout. IsLiveTag (L.shapes layout) (L.tag_of layout)) layouts.now }
    ensures { IfOk result (λ words. AreFirstWords L.tag_of layouts.now (length layouts.now) words.items) }
{
    let mut words = Vec::from_elem(alloc, 0u64, 1056)?;
    for (object, layout) in layouts.iter().enumerate() {
        words[object_word(object)] = u64::from(layout.tag()) << 28;
    }
    Ok(words)
}

pub fn first_slots<P: Drop, O, R>(alloc: Global) -> Result<Vec<Option<Content<P, O, R>>>, Memory>
    ensures { IfOk result (λ slots. (length slots.items ≡ many_slots) × AreFirstSlots slots.items) }
{
    let mut slots = Vec::new(alloc);
    for slot in 0..320u32 {
        slots.push(Some(Content {
            badge: Badge::blank(),
            number: slot % 40 * 8 + slot / 40,
            closed: false,
            last: 0,
            part: None,
        }))?;
    }
    Ok(slots)
}
