//! What can be found of a record, as a status and as a line.
ghost use Rattle.std.specs.Prelude.{◌≡◌, IfOk};
ghost use Rattle.k42_input.specs.Verdicts as verdicts;

use crate::status::Status;
use k42_memory::Memory;
use std::alloc::Global;

/// The rule that a record is spelled as records are.
pub const SPELLING_RULE: u32 = 11;

/// What is found of a record.
#[derive(Clone, Copy, Debug, PartialEq, Eq)]
pub enum Verdict {
    /// It is lawful, and has so many entries.
    Lawful(usize),
    /// Its first line, from 1, that breaks a rule, and the rule.
    Unlawful(u32, u32),
}

impl Verdict {
    /// The status that goes with it.
    pub fn status(&self) -> Status
        ensures { result ≡ verdicts.status_of self.now }
    {
        match self {
            Verdict::Lawful(_) => Status::Ok,
            Verdict::Unlawful(_, _) => Status::Unlawful,
        }
    }

    /// The line that tells it.
    pub fn text(&self, alloc: Global) -> Result<Vec<u8>, Memory>
        ensures { IfOk result (λ text. text.items ≡ verdicts.verdict_line self.now) }
    {
        let mut text = Vec::new(alloc);
        match self {
            Verdict::Lawful(entries) => {
                text.extend_from_slice(b"lawful ")?;
                text.extend_from_slice(entries.to_string(alloc)?.as_bytes())?;
            }
            Verdict::Unlawful(line, rule) => {
                text.extend_from_slice(b"line ")?;
                text.extend_from_slice(line.to_string(alloc)?.as_bytes())?;
                text.extend_from_slice(b": rule ")?;
                text.extend_from_slice(rule.to_string(alloc)?.as_bytes())?;
            }
        }
        text.push(b'\n')?;
        Ok(text)
    }
}
