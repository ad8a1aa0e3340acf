/// What was found of a record.
#[derive(Clone, Copy, Debug, PartialEq, Eq)]
pub enum Verdict {
    Lawful,
    /// The first line, from 1, that breaks a rule, and the number of the rule.
    Unlawful { line: u32, rule: u32 },
}
