//! The words of the command line, and the window that they ask for.
ghost use Rattle.std.specs.Prelude.{◌≡◌, ◌≤◌, map, string_bytes, IfSome};
ghost use Rattle.record_picture.specs.declared.window.TheConstants.{COLUMNS};
ghost use Rattle.script_text.specs.Numbers.{number_within};
ghost use Rattle.k42_view.specs.Words as asked;

use record_picture::{COLUMNS, Window};
use script_text::number_up_to;

/// The number of the first entry that is shown is at most this.
const MOST_FROM: u32 = 4_294_967_295;

/// The number from 1 to `most` that the word spells.
fn number_in(word: &str, most: u32) -> Option<u32>
    ensures number { result ≡ number_within 1 most word.now }
    ensures range { IfSome result (λ number. (1 ≤ number) × (number ≤ most)) }
{
    match number_up_to(word.as_bytes(), u64::from(most)) {
        None | Some(0) => None,
        Some(number) => Some(number as u32),
    }
}

/// So many entries from one on, as two words say.
fn window_from(from: &str, count: &str) -> Option<Window>
    ensures window { result ≡ asked.window_from from.now count.now }
    ensures few { IfSome result (λ window. window.count ≤ COLUMNS) }
{
    let from = number_in(from, MOST_FROM)?;
    let count = number_in(count, COLUMNS)?;
    Some(Window {
        before: from - 1,
        count,
    })
}

/// The window that the words ask for, if they ask for one.
pub fn window_of(words: &[String]) -> Option<Window>
    ensures window { result ≡ asked.window_of (map string_bytes words.now) }
    ensures few { IfSome result (λ window. window.count ≤ COLUMNS) }
{
    match words {
        [] => Some(Window {
            before: 0,
            count: COLUMNS,
        }),
        [from, count] => window_from(from.as_str(), count.as_str()),
        _ => None,
    }
}
