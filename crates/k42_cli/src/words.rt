//! The words of the command line, and the form that they ask for.
ghost use Rattle.std.specs.Prelude.{◌≡◌, map, string_bytes, IfSome};
ghost use Rattle.script_text.specs.Numbers.{number_within};
ghost use Rattle.k42_cli.specs.Words as asked;

use script_text::number_up_to;

/// A load has 1 to this many steps.
const MOST_STEPS: u64 = 10_000;

/// How the workers of a script are run, and in which version their record is written.
#[derive(Clone, Copy, Debug, PartialEq, Eq)]
pub enum Way {
    /// On threads, in version 1.
    One,
    /// On threads, in version 2.
    Two,
    /// As tasks on one thread, in version 1.
    Tasks,
}

impl Way {
    ghost use Rattle.record_text.specs.Spelling.{IsVersion};

    /// The number that the record bears.
    pub fn version(self) -> u32
        ensures number { result ≡ asked.version_of self }
        ensures known { IsVersion result }
    {
        match self {
            Way::One | Way::Tasks => 1,
            Way::Two => 2,
        }
    }
}

/// What the words of the command line ask for.
#[derive(Clone, Copy, Debug, PartialEq, Eq)]
pub enum Form {
    /// Run a script in this way, and write its record.
    Run(Way),
    /// Judge a record by its script.
    Check,
    /// Run the generated script of so many steps, and sum its history up.
    Load(u32),
}

fn form_of_one(word: &str) -> Option<Form>
    ensures form { result ≡ asked.form_of_one word.now }
    ensures known { IfSome result asked.IsKnown }
{
    if word == "run" {
        Some(Form::Run(Way::One))
    } else if word == "check" {
        Some(Form::Check)
    } else {
        None
    }
}

/// The number of steps that the word says.
fn steps_in(word: &str) -> Option<u32>
    ensures steps { result ≡ number_within 1 asked.most_steps word.now }
    ensures range { IfSome result (λ steps. asked.IsKnown (Form.Load steps)) }
{
    match number_up_to(word.as_bytes(), MOST_STEPS) {
        None | Some(0) => None,
        Some(steps) => Some(steps as u32),
    }
}

/// The load of as many steps as the word says.
fn load_of(word: &str) -> Option<Form>
    ensures form { result ≡ asked.load_of word.now }
    ensures known { IfSome result asked.IsKnown }
{
    Some(Form::Load(steps_in(word)?))
}

/// A run in the way that the word says.
fn form_of_run(word: &str) -> Option<Form>
    ensures form { result ≡ asked.form_of_run word.now }
    ensures known { IfSome result asked.IsKnown }
{
    match word {
        "2" => Some(Form::Run(Way::Two)),
        "tasks" => Some(Form::Run(Way::Tasks)),
        _ => None,
    }
}

fn form_of_two(first: &str, second: &str) -> Option<Form>
    ensures form { result ≡ asked.form_of_two first.now second.now }
    ensures known { IfSome result asked.IsKnown }
{
    match first {
        "run" => form_of_run(second),
        "load" => load_of(second),
        _ => None,
    }
}

/// The form that the words are, if they are one that the program knows.
pub fn form_of(words: &[String]) -> Option<Form>
    ensures form { result ≡ asked.form_of (map string_bytes words.now) }
    ensures known { IfSome result asked.IsKnown }
{
    match words {
        [word] => form_of_one(word.as_str()),
        [first, second] => form_of_two(first.as_str(), second.as_str()),
        _ => None,
    }
}
