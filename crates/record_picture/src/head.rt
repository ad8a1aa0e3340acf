//! The head of the document: its size, its style, and the verdict in words.
ghost use Rattle.std.specs.Prelude.{◌≡◌, ◌++◌, OnOk};
ghost use Rattle.record_picture.specs.Head as drawn;
ghost use Rattle.record_picture.specs.Verdicts.{rule_words as words_of_rule, verdict_text};

use crate::measures::{height_of, width_of};
use crate::pieces::{put_fixed, put_numbered};
use crate::style::put_style;
use crate::verdict::Verdict;
use k42_memory::Memory;

fn rule_words(rule: u32) -> &'static [u8]
    ensures { result.now ≡ words_of_rule rule }
{
    match rule {
        2 => b", the stamp is not the number of the entry",
        8 => b", not the next line of its worker, or lines are missing at the end",
        5 => b", the object would not have replied so",
        6 => b", the swap would not have been answered so",
        7 => b", no such swap of another worker was under way",
        21 => b", not the processor of the worker, or the generation is out of step",
        _ => b"",
    }
}

fn put_verdict(out: &mut Vec<u8>, verdict: Verdict, entries: u64) -> Result<(), Memory>
    ensures { OnOk result (out.new.items ≡ out.old.items ++ verdict_text verdict entries) }
{
    match verdict {
        Verdict::Lawful => put_numbered(out, b"lawful ", entries),
        Verdict::Unlawful { line, rule } => {
            put_numbered(out, b"line ", u64::from(line))?;
            put_numbered(out, b": rule ", u64::from(rule))?;
            put_fixed(out, rule_words(rule))
        }
    }
}

#[tactic(auto, unfolding(crate::specs::Head::opening))]
fn put_opening(out: &mut Vec<u8>, columns: u32, lanes: u32) -> Result<(), Memory>
    ensures { OnOk result (out.new.items ≡ out.old.items ++ drawn.opening columns lanes) }
{
    put_numbered(
        out,
        b"<svg xmlns='http://www.w3.org/2000/svg' width='",
        width_of(columns),
    )?;
    put_numbered(out, b"' height='", height_of(lanes))?;
    put_fixed(out, b"'>\n")
}

#[tactic(auto, unfolding(crate::specs::Head::verdict_line))]
fn put_verdict_line(out: &mut Vec<u8>, verdict: Verdict, entries: u64) -> Result<(), Memory>
    ensures { OnOk result (out.new.items ≡ out.old.items ++ drawn.verdict_line verdict entries) }
{
    put_fixed(
        out,
        b"<rect width='100%' height='100%' fill='#fff'/>\n<text class='v' x='8' y='20'>",
    )?;
    put_verdict(out, verdict, entries)?;
    put_fixed(out, b"</text>\n")
}

/// Adds the head of a picture of so many columns and lanes.
#[tactic(auto, unfolding(crate::specs::Head::head))]
pub fn put_head(
    out: &mut Vec<u8>,
    verdict: Verdict,
    entries: u64,
    columns: u32,
    lanes: u32,
) -> Result<(), Memory>
    ensures { OnOk result (
        out.new.items ≡ out.old.items ++ drawn.head verdict entries columns lanes) }
{
    put_opening(out, columns, lanes)?;
    put_style(out)?;
    put_verdict_line(out, verdict, entries)
}
