//! A number is written in decimal digits.
ghost use Rattle.std.specs.Prelude.{◌≡◌, ◌++◌, OnOk};
ghost use Rattle.std.specs.Fmt.{decimal};

use itoa::Buffer;
use k42_memory::Memory;

/// Adds the decimal digits of a number.
pub fn put_digits(out: &mut Vec<u8>, number: u64) -> Result<(), Memory>
    ensures { OnOk result (out.new.items ≡ out.old.items ++ decimal number) }
{
    // A single digit needs no buffer, and most numbers of a record but places and lines have one.
    if number < 10 {
        out.push(b'0' + number as u8)?;
        return Ok(());
    }
    out.extend_from_slice(Buffer::new().format(number).as_bytes())?;
    Ok(())
}
