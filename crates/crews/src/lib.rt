//! Workers that run to their end, each in a thread of its own where one can be made.
#![tactic(auto)]

ghost use Rattle.std.specs.Prelude.{◌≡◌, ◌<◌, length};
ghost use Rattle.std.specs.Fork.{AcceptsEach, ChangesEach};

use std::thread;
use std::thread::Threads;

/// Runs a job on each worker, and gives the workers back in the same order.
///
/// ```
/// let counts = run_each(&rt, counts, &|i, count: &mut u64| *count += i as u64);
/// ```
pub fn run_each<W: Send, F: Fn(usize, &mut W) + Sync, R: Threads + Sync>(
    rt: &R,
    mut workers: Vec<W>,
    job: &F,
) -> Vec<W>
    requires some { 0 < length workers.items }
    requires accepts { AcceptsEach F.Fn job.now workers.items }
    ensures changes { ChangesEach F.Fn job.now workers.items result.items }
    ensures len { length result.items ≡ length workers.items }
{
    let count = workers.len();
    thread::for_each_mut(rt, workers.as_mut_slice(), count, job);
    workers
}
