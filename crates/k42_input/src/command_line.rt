//! The words of the command line, as both programs take them from the system.
ghost use Rattle.std.specs.Prelude.{◌≡◌, [], ◌∷◌, drop, map, Some, string_bytes, IfOk};
ghost use Rattle.std.specs.Vec.Iter.{into_iter_items};
ghost use Rattle.k42_input.specs.CommandLine.{words_said};

use k42_memory::Memory;
use std::alloc::Global;
use std::env::Args;
use std::io;
use std::io::ErrorKind;

/// The words behind the first, which is the program's name.
fn words_behind_name(alloc: Global, args: Args) -> Result<Vec<String>, Memory>
    ensures { IfOk result (λ words. words.items ≡ drop 1 (into_iter_items args)) }
{
    let mut left = args;
    let mut words = Vec::new(alloc);
    let _name = left.next();
    while let Some(word) = left.next() {
        words.push(word)?;
    }
    Ok(words)
}

/// One empty word.
fn one_empty_word(alloc: Global) -> Result<Vec<String>, Memory>
    ensures { IfOk result (λ words. map string_bytes words.items ≡ [] ∷ []) }
{
    let mut words = Vec::new(alloc);
    words.push(String::new(alloc))?;
    Ok(words)
}

/// The words of a program, by what the system answers where it is asked for them.
pub fn words_of(alloc: Global, said: io::Result<Args>) -> Result<Vec<String>, Memory>
    ensures { IfOk result (λ words. words_said said ≡ Some (map string_bytes words.items)) }
{
    match said {
        Ok(args) => words_behind_name(alloc, args),
        Err(error) => match error.kind() {
            ErrorKind::OutOfMemory => Err(Memory),
            _ => one_empty_word(alloc),
        },
    }
}
