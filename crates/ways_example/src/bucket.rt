//! The tokens of one bucket.
ghost use Rattle.std.specs.Prelude.{◌≡◌, ◌≤◌, ◌<◌, ◌%◌, ◌^◌, [], ◌∷◌, IfOk, IfSome};
ghost use Rattle.k42_board.specs.declared.keep.Keep.TheVariants.{All};
ghost use Rattle.k42_crews.specs.Ready.{AreFree};
ghost use Rattle.co_limiter.specs.GivenIn.{given_at, given_in, mortal_bucket};

mod crew;

use crate::ends::{ask, begin, end};
use crate::questions::Take;
use crate::turns::Turns;
use co_limiter::{Bucket, BucketOp, BucketReply, Level, histories_are_limited};
use crew::work_all;
use k42_choice::{Mortal, MortalState};
use k42_clustered::Clustered;
use k42_copies::{AnyCopies, Spaced};
use k42_kinds::{Act, Answer, Entry};
use k42_memory::Memory;
use k42_runtime::{Pass, System};
use std::alloc::Global;
use std::sync::Wait;
use std::thread::Threads;

/// The tokens that an entry of the only object was given.
fn tokens(entry: &Entry<BucketOp, BucketReply>) -> u64
    ensures { result ≡ given_at 0 entry.now }
{
    if entry.object != 0 {
        return 0;
    }
    match (&entry.act, &entry.answer) {
        (Act::Call(BucketOp::Take(amount)), Answer::Replied(BucketReply::Granted)) => {
            u64::from(*amount)
        }
        _ => 0,
    }
}

/// The tokens that all of them were given, modulo 2^64.
fn all_tokens(entries: &[Entry<BucketOp, BucketReply>]) -> u64
    ensures { result ≡ given_in 0 entries.now % 2 ^ 64 }
{
    let mut sum = 0u64;
    for entry in entries {
        sum = sum.wrapping_add(tokens(entry));
    }
    sum
}

/// How many tokens the calls were given, and how many entries the history has. No time has brought any.
fn granted<L: Clustered<State = MortalState<Level>, Op = BucketOp, Reply = BucketReply>>(
    alloc: Global,
    system: System<L>,
    passes: Vec<Pass<L>>,
    bucket: &Bucket,
    layout: L,
) -> Result<Option<(u64, usize)>, Memory>
    requires free { AreFree system passes.items }
    requires keeps { system.plan.keep ≡ All }
    requires object { system.plan.objects ≡ layout ∷ [] }
    requires bucket { L.object layout ≡ mortal_bucket bucket.now }
    requires still { bucket.now.rate ≡ 0 }
    ensures limited { IfOk result (λ told. IfSome told (λ it. it.0 ≤ bucket.now.capacity)) }
{
    let Some(entries) = end(alloc, system, passes)? else {
        return Ok(None);
    };
    histories_are_limited::<L>();
    Ok(Some((all_tokens(&entries), entries.len())))
}

/// The same of a bucket of which four threads take tokens, while a fifth has it kept in one way after another. In the end it
/// refuses another token.
pub(crate) fn run_bucket<R: Threads + Wait + Sync>(
    rt: &R,
    alloc: Global,
    bucket: &Bucket,
    turns: &Turns<BucketOp>,
) -> Result<Option<(u64, usize)>, Memory>
    requires still { bucket.now.rate ≡ 0 }
    requires some { 0 < turns.now.ways }
    requires few { turns.now.ways ≤ 4 }
    ensures limited { IfOk result (λ told. IfSome told (λ it. it.0 ≤ bucket.now.capacity)) }
{
    let layout = Mortal {
        layout: AnyCopies {
            kind: *bucket,
            spaced: Spaced::Together,
        },
        dead: false,
    };
    let Some((system, mut passes)) = begin(alloc, layout)? else {
        return Ok(None);
    };
    work_all(rt, alloc, &system, turns, passes.as_mut_slice())?;
    let Some(Some(false)) = ask(
        rt,
        alloc,
        &system,
        passes.as_mut_slice(),
        &Take { amount: 1 },
    )?
    else {
        return Ok(None);
    };
    granted(alloc, system, passes, bucket, layout)
}
