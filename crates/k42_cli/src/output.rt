//! What a run of the program leaves: its text, its status and its history.
ghost use Rattle.std.specs.Prelude.{◌≡◌, None, IfOk};
ghost use Rattle.k42_input.specs.Dues as dues;

use co_system::History;
use k42_input::{Status, refusal_line};
use k42_memory::Memory;
use script_text::ScriptFault;
use std::alloc::Global;

/// What is to be written, the status that goes with it, and the history of the run, if there was one.
#[derive(Drop)]
pub struct Output {
    pub status: Status,
    pub text: Vec<u8>,
    pub history: Option<History>,
}

/// What a refused script has to answer.
pub fn refusal(alloc: Global, fault: &ScriptFault) -> Result<Output, Memory>
    ensures status { IfOk result (λ output. output.status ≡ Status.Refused) }
    ensures text { IfOk result (λ output. output.text.items ≡ dues.refusal_line fault.now) }
    ensures unkept { IfOk result (λ output. output.history ≡ None) }
{
    Ok(Output {
        status: Status::Refused,
        text: refusal_line(alloc, fault)?,
        history: None,
    })
}
