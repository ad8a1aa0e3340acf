//! Tokens and numbers, from which lines are made.
ghost use Rattle.std.specs.Prelude.{◌≡◌, ◌∷◌, ◌++◌, [], OnOk};
ghost use Rattle.std.specs.Fmt.{decimal};
ghost use Rattle.record_text.specs.Tokens.{behind_spaces};

use k42_limits::SPACE;
use k42_memory::Memory;
use script_text::put_digits;

/// Adds a token.
pub fn put_token(out: &mut Vec<u8>, token: &[u8]) -> Result<(), Memory>
    ensures { OnOk result (out.new.items ≡ out.old.items ++ behind_spaces (token.now ∷ [])) }
{
    out.push(SPACE)?;
    out.extend_from_slice(token)?;
    Ok(())
}

/// Adds a number as a token.
pub fn put_number(out: &mut Vec<u8>, number: u64) -> Result<(), Memory>
    ensures { OnOk result (out.new.items ≡ out.old.items ++ behind_spaces (decimal number ∷ [])) }
{
    out.push(SPACE)?;
    put_digits(out, number)
}

/// Adds a token that is a mark and a number.
pub fn put_marked(out: &mut Vec<u8>, mark: u8, number: u32) -> Result<(), Memory>
    ensures { OnOk result (
        out.new.items ≡ out.old.items ++ behind_spaces ((mark ∷ decimal number) ∷ [])) }
{
    out.push(SPACE)?;
    out.push(mark)?;
    put_digits(out, u64::from(number))
}
