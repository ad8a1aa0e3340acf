//! What is done where no entry is kept.
use crate::bench::{Done, run};
use crate::load::{Load, Ops};
use co_system::Keep;
use k42_kinds::{KindName, LayoutName};
use k42_memory::Memory;

#[test]
fn without_entries_each_thread_makes_its_calls_and_the_object_has_what_they_left(
    rt: HostRuntime,
) -> Result<(), Memory> {
    let kinds = [KindName::Counter, KindName::Directory, KindName::Pages];
    for kind in kinds {
        for ops in [Ops::Near, Ops::Mix] {
            for calls in [7, 104] {
                let load = Load {
                    kind,
                    layout: LayoutName::Shared,
                    ops,
                    threads: 2,
                    calls,
                    block: 1,
                    swaps: 3,
                    keep: Keep::Nothing,
                };
                let due = Done {
                    calls: 2 * calls as usize,
                    swaps: 3,
                    whole: true,
                };
                assert_eq!(rt; run(&rt, rt.alloc(), &load)?, Some(due));
            }
        }
    }
    Ok(())
}
