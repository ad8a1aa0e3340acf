//! Records: what came of a script's lines, in the order of the history, as a value and as text.
#![tactic(auto)]

mod ending;
mod history;
mod judging;
mod laws;
mod printing;
mod reading;
mod record;
mod version;

pub use ending::{CheckEnd, RecordEnd};
pub use history::{lines_of, numbers_of_all};
pub use judging::check;
pub use laws::{
    a_record_is_its_lines, a_text_has_one_history, alike_histories_have_one_text,
    first_faults_are_one, lawful_records_have_no_fault, printed_is_read, read_is_printed,
    rules_make_records_lawful, the_first_foreign_line_is_refused, two_records_have_two_texts,
};
pub use printing::{print, print_history, put_act, put_answer, put_line};
pub use reading::read;
pub use record::{Extra, Record, RecordLine};
