//! The workers of a script as tasks on one thread: state machines that are held up and go on.
#![tactic(auto)]

mod lines;
mod rounds;
mod running;
mod tasks;

pub use running::{run_tasks, tasks_of};
pub use tasks::{TaskAt, TaskCause, TaskStep, WorkerTask};
