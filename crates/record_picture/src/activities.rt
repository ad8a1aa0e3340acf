//! Which lines of a worker belong to one activity, as its frames need to know.
ghost use Rattle.std.specs.Prelude.{◌≡◌, IfOk};
ghost use Rattle.record_picture.specs.Activities.{joins};

use k42_items::Items;
use k42_memory::Memory;
use script_text::Item;
use std::alloc::Global;

/// Which of a worker's lines that ask something go on with the activity of the line before them.
pub fn joins_of(alloc: Global, items: &[Item]) -> Result<Items<bool>, Memory>
    ensures { IfOk result (λ all. all ≡ joins items.now) }
{
    let mut all = Items::new(alloc);
    let mut block = false;
    let mut joined = false;
    for item in items {
        match item {
            Item::Begin => {
                block = true;
                joined = false;
            }
            Item::End => {
                block = false;
                joined = false;
            }
            Item::Line(_) => {
                all.push(joined)?;
                joined = block;
            }
        }
    }
    Ok(all)
}
