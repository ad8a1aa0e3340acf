//! The one line with which a program answers a script that is refused.
ghost use Rattle.std.specs.Prelude.{◌≡◌, IfOk};
ghost use Rattle.k42_input.specs.Dues as dues;

use k42_memory::Memory;
use script_text::ScriptFault;
use std::alloc::Global;

/// The line that tells the fault of a script.
pub fn refusal_line(alloc: Global, fault: &ScriptFault) -> Result<Vec<u8>, Memory>
    ensures { IfOk result (λ text. text.items ≡ dues.refusal_line fault.now) }
{
    let mut text = Vec::new(alloc);
    text.extend_from_slice(b"line ")?;
    let number = fault.line.to_string(alloc)?;
    text.extend_from_slice(number.as_bytes())?;
    text.extend_from_slice(b": ")?;
    text.extend_from_slice(fault.cause.word().as_bytes())?;
    text.push(b'\n')?;
    Ok(text)
}
