//! Scripts: what the workers of a run do to its objects, as text and as a value.
#![tactic(auto)]

mod accepted_laws;
mod digits;
mod fault;
mod form;
mod form_laws;
mod forms;
mod generating;
mod laws;
mod lines;
mod names;
mod numbers;
mod offences;
mod parsing;
mod reading;
mod script;
mod tokens;

pub use accepted_laws::a_line_is_accepted_where_it_may_stand;
pub use digits::put_digits;
pub use fault::{ParseEnd, ScriptCause, ScriptFault};
pub use form_laws::{
    a_form_adds_what_it_says, a_skipped_line_changes_nothing, a_space_parts_tokens,
    an_act_is_spelled_once, an_item_is_added_to_the_last_worker, spaced_tokens_are_tokens,
};
pub use generating::generate;
pub use laws::{
    a_worker_does_its_lines_in_order, first_offence_decides, lines_make_the_text,
    numbers_are_decimal,
};
pub use numbers::number_up_to;
pub use parsing::parse;
pub use script::{CallLine, Item, ObjectLine, Script, WorkerLines};
