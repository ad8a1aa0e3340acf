//! A record is judged line by line: the first line that breaks a rule, and the rule.
ghost use Rattle.std.specs.Prelude.{◌≡◌, ◌<◌, ◌+◌, ◌^◌, ◌≤◌, [], ◌∷◌, ◌++◌, ℕ, true, List, All, Some, None, IfOk, Option, length, map, take, vec_len, slice_get};
ghost use Rattle.std.specs.Bool.{Decides};
ghost use Rattle.k42_limits.specs.declared.TheConstants.{CALLERS, OBJECTS};
ghost use Rattle.k42_kinds.specs.Legal.{IsLegalAmong, IsLegalRefusal};
ghost use Rattle.k42_kinds.specs.declared.operation.KindName.{KindName as Kinds};
ghost use Rattle.script_text.specs.Lawful.{call_lines};
ghost use Rattle.script_text.specs.declared.script.Item.{Item as Said};
ghost use Rattle.record_text.specs.Referee.Courses.{IsWalked, StandsAtLine, MayTell};
ghost use Rattle.record_text.specs.Referee.Judged.{CanTake, HasLegalForm};
ghost use Rattle.record_text.specs.Referee.Marks.{Shows};
ghost use Rattle.record_text.specs.Referee.Pasts.{IsWhole, IsPast, IsRefusable, AreKept, AreWalked, Stands};
ghost use Rattle.record_text.specs.Rules as table;
ghost use Rattle.record_text.specs.Rules.{Judges, IsNextLine, KeepsGenerations, HasAllLines, KeepsAt, BreaksFirst, all_rules, rule_number};
ghost use Rattle.record_text.specs.Referee.Seen as seen;
ghost use Rattle.record_text.specs.Referee.Seen.{IsPlaced, furthest_of};
ghost use Rattle.record_text.specs.Spelling.{HasText, HasSpelling};
ghost use Rattle.record_text.specs.Told.{told, told_generation};
ghost use Rattle.record_text.specs.declared.record.RecordLine.{RecordLine as Line};

mod course;
mod doers;
mod later;
mod marks;
mod object;
mod rule;

use crate::ending::CheckEnd;
use crate::record::{Extra, Record, RecordLine};
use course::Course;
use doers::Doers;
use k42_kinds::{Answer, Plain};
use k42_memory::Memory;
use later::least_later;
use marks::Marks;
use object::Object;
use rule::Rule;
use script_text::{Item, ObjectLine, Script, WorkerLines};
use std::alloc::Global;

/// What is known of all lines before the first of them is judged.
#[derive(Drop)]
pub struct Whole {
    pub doers: Doers,
    pub later: Vec<u32>,
}

/// What came of the lines so far.
#[derive(Drop)]
pub struct Past {
    pub objects: Vec<Object>,
    pub courses: Vec<Course>,
    /// How far each worker has seen each object's swaps to be.
    pub seen: Marks,
}

fn new_objects(alloc: Global, declared: &[ObjectLine]) -> Result<Vec<Object>, Memory>
    ensures { IfOk result (λ objects.
        AreKept (map (λ object. object.kind) declared.now) [] objects.items) }
{
    let mut objects = Vec::new(alloc);
    for object in declared {
        let plain = Plain { kind: object.kind };
        objects.push(Object::new(alloc, plain))?;
    }
    Ok(objects)
}

fn greatest(one: u32, other: u32) -> u32
    ensures { result ≡ seen.greatest one other }
{
    if one < other { other } else { one }
}

/// The further of the line's incarnation and of the number of its own swap.
fn reach_of(line: &RecordLine) -> u32
    ensures { result ≡ seen.reach_of line.now }
{
    match line.answer {
        Answer::Swapped(number) => greatest(line.incarnation, number),
        _ => line.incarnation,
    }
}

impl Whole {
    fn of(alloc: Global, lines: &[RecordLine]) -> Result<Whole, Memory>
        requires { All IsPlaced lines.now }
        ensures { IfOk result (λ whole. IsWhole lines.now whole) }
    {
        Ok(Whole {
            doers: Doers::of(alloc, lines)?,
            later: least_later(alloc, lines)?,
        })
    }

    /// Whether the swap of this number may have refused the line.
    fn refuses(&self, seen: &Marks, line: &RecordLine, place: usize, number: u32) -> bool
        requires placed { IsPlaced line.now }
        requires within { place < vec_len self.now.later }
        ensures { (lines : List Line) → IsWhole lines self.now →
            Shows seen.now (λ worker object. furthest_of worker object (take place lines)) →
            slice_get lines place ≡ Some line.now →
            Decides result (IsRefusable lines line.now place number) }
    {
        line.incarnation as u64 + 1 == number as u64
            && seen.get(line.worker, line.object) <= number
            && number as u64 <= self.later[place] as u64 + 1
            && self.doers.has_rival(line.worker, line.object, number)
    }

    /// Whether another's swap may have refused the line.
    fn may_refuse(&self, seen: &Marks, line: &RecordLine, place: usize) -> bool
        requires placed { IsPlaced line.now }
        requires within { place < vec_len self.now.later }
        ensures small { (number : ℕ) → line.now.answer ≡ Answer.Busy number → number < 2 ^ 32 }
        ensures refusable { (number : ℕ) (lines : List Line) →
            line.now.answer ≡ Answer.Busy number →
            IsWhole lines self.now →
            Shows seen.now (λ worker object. furthest_of worker object (take place lines)) →
            slice_get lines place ≡ Some line.now →
            Decides result (IsRefusable lines line.now place number) }
    {
        match line.answer {
            Answer::Busy(number) => self.refuses(seen, line, place, number),
            _ => false,
        }
    }
}

/// Whether the line tells what its object does next, which it then has done.
fn tells(
    objects: &mut Vec<Object>,
    alloc: Global,
    line: &RecordLine,
    refusable: bool,
) -> Result<bool, Memory>
    requires there { line.now.object < vec_len objects.old }
    requires taken { (object : Object) →
        slice_get objects.old.items line.now.object ≡ Some object → CanTake object line.now.act }
    ensures legal { IfOk result (λ legal. (kinds : List Kinds) (before after : List Line) →
        AreKept kinds before objects.old.items → HasLegalForm kinds line.now →
        ((number : ℕ) → line.now.answer ≡ Answer.Busy number →
        Decides refusable
        (IsLegalRefusal (map told before) (told line.now) (map told after) number)) →
        Decides legal (IsLegalAmong kinds (map told before) (told line.now) (map told after))) }
    ensures kept { IfOk result (λ legal. (kinds : List Kinds) (before : List Line) →
        legal ≡ true → AreKept kinds before objects.old.items →
        AreKept kinds (before ++ line.now ∷ []) objects.new.items) }
{
    let object = &mut objects[line.object as usize];
    object.judge(alloc, line, refusable)
}

fn lines_of(script: &Script, worker: usize) -> &WorkerLines
    requires { worker < length script.now.workers }
    ensures { slice_get script.now.workers worker ≡ Some result.now }
{
    &script.workers.as_slice()[worker]
}

/// Whether the line answers the next of its worker's.
fn follows(courses: &mut Vec<Course>, script: &Script, line: &RecordLine) -> bool
    requires worker { line.now.worker < length script.now.workers }
    requires size { vec_len courses.old ≡ length script.now.workers }
    ensures kept { (before : List Line) → AreWalked script.now before courses.old.items →
        AreWalked script.now before courses.new.items }
    ensures next { (before : List Line) → AreWalked script.now before courses.old.items →
        Decides result (IsNextLine script.now before line.now) }
    ensures stands { result ≡ true →
        Stands script.now line.now.worker courses.new.items }
{
    let worker = lines_of(script, line.worker as usize);
    let items = worker.items.as_slice();
    let course = &mut courses[line.worker as usize];
    course.walk(items);
    course.is_next(items, line)
}

fn generation_of(told: &Option<Extra>) -> Option<u32>
    ensures { result ≡ told_generation told.now }
{
    match told {
        Some(extra) => extra.generation,
        None => None,
    }
}

/// Whether the worker's next line may tell this processor and generation.
fn may_tell(course: &Course, proc: u32, told: &Option<Extra>) -> bool
    ensures { (items : List Said) (earlier : List (Option ℕ)) → IsWalked items earlier course.now →
        StandsAtLine items course.now → Decides result (MayTell items earlier proc told.now) }
{
    match told {
        Some(extra) => {
            extra.proc == proc
                && match extra.generation {
                    Some(generation) => course.allows(generation),
                    None => true,
                }
        }
        None => true,
    }
}

/// Whether the line may tell its processor and generation. Where it may, its worker has passed it.
fn passes(courses: &mut Vec<Course>, script: &Script, line: &RecordLine) -> bool
    requires worker { line.now.worker < length script.now.workers }
    requires size { vec_len courses.old ≡ length script.now.workers }
    requires stands { Stands script.now line.now.worker courses.old.items }
    ensures told { (before : List Line) → AreWalked script.now before courses.old.items →
        Decides result (KeepsGenerations script.now before line.now) }
    ensures kept { (before : List Line) → AreWalked script.now before courses.old.items →
        result ≡ true → AreWalked script.now (before ++ line.now ∷ []) courses.new.items }
{
    let worker = lines_of(script, line.worker as usize);
    let course = &mut courses[line.worker as usize];
    if !may_tell(course, worker.proc, &line.extra) {
        return false;
    }
    course.pass(generation_of(&line.extra));
    true
}

/// What a worker has seen of an object after one more line.
fn see(seen: &mut Marks, line: &RecordLine)
    requires placed { IsPlaced line.now }
    ensures { (before : List Line) →
        Shows seen.old (λ worker object. furthest_of worker object before) →
        Shows seen.new (λ worker object. furthest_of worker object (before ++ line.now ∷ [])) }
{
    let further = greatest(seen.get(line.worker, line.object), reach_of(line));
    seen.set(line.worker, line.object, further);
}

impl Past {
    fn new(alloc: Global, script: &Script) -> Result<Past, Memory>
        ensures { IfOk result (λ past. IsPast script.now [] past) }
    {
        Ok(Past {
            objects: new_objects(alloc, script.objects.as_slice())?,
            courses: vec![in alloc; Course::new(); script.workers.len()]?,
            seen: Marks::new(0),
        })
    }

    /// The first rule that the line at this place breaks. Where there is none, the line belongs to
    /// the past.
    fn judge(
        &mut self,
        alloc: Global,
        script: &Script,
        whole: &Whole,
        lines: &[RecordLine],
        place: usize,
    ) -> Result<Option<Rule>, Memory>
        requires there { place < length lines.now }
        requires placed { All IsPlaced lines.now }
        requires spelled { All (HasSpelling script.now) lines.now }
        requires whole { IsWhole lines.now whole.now }
        requires past { IsPast script.now (take place lines.now) self.old }
        ensures kept { IfOk result (λ broken. broken ≡ None →
            ((rule : table.Rule) → KeepsAt script.now lines.now place rule)
            × IsPast script.now (take (place + 1) lines.now) self.new) }
        ensures broken { IfOk result (λ broken. (rule : table.Rule) → broken ≡ Some rule →
            BreaksFirst (KeepsAt script.now lines.now place) all_rules (rule_number rule)) }
    {
        let line = &lines[place];
        if line.stamp != place as u64 + 1 {
            return Ok(Some(Rule::Stamps));
        }
        if !follows(&mut self.courses, script, line) {
            return Ok(Some(Rule::Order));
        }
        let refusable = whole.may_refuse(&self.seen, line, place);
        if !tells(&mut self.objects, alloc, line, refusable)? {
            return Ok(Some(Rule::of(line)));
        }
        if !passes(&mut self.courses, script, line) {
            return Ok(Some(Rule::Generations));
        }
        see(&mut self.seen, line);
        Ok(None)
    }
}

/// Whether no line of the worker is left.
fn is_done(course: &mut Course, items: &[Item]) -> bool
    ensures kept { (told : List (Option ℕ)) → IsWalked items.now told course.old →
        IsWalked items.now told course.new }
    ensures done { (told : List (Option ℕ)) → IsWalked items.now told course.old →
        Decides result (length (call_lines items.now) ≤ length told) }
{
    course.walk(items);
    course.at >= items.len()
}

/// Whether no line of any worker is left.
fn all_done(courses: &mut Vec<Course>, script: &Script) -> bool
    requires size { vec_len courses.old ≡ length script.now.workers }
    ensures { (lines : List Line) → AreWalked script.now lines courses.old.items →
        Decides result (HasAllLines script.now lines) }
{
    for worker in 0..script.workers.len() {
        let lines = lines_of(script, worker);
        let course = &mut courses[worker];
        if !is_done(course, lines.items.as_slice()) {
            return false;
        }
    }
    true
}

/// Whether the record is lawful for the script, or the first line that breaks a rule.
pub fn check(alloc: Global, script: &Script, lines: &Record) -> Result<(), CheckEnd>
    requires workers { length script.now.workers ≤ CALLERS }
    requires objects { length script.now.objects ≤ OBJECTS }
    requires spelled { HasText script.now lines.now }
    requires few { length lines.now.lines < 2 ^ 31 }
    ensures verdict { Judges script.now lines.now result }
{
    let lines = lines.lines.as_slice();
    let whole = Whole::of(alloc, lines)?;
    let mut past = Past::new(alloc, script)?;
    for place in 0..lines.len() {
        if let Some(rule) = past.judge(alloc, script, &whole, lines, place)? {
            return Err(CheckEnd::Unlawful {
                line: place as u32 + 2,
                rule: rule.number(),
            });
        }
    }
    if all_done(&mut past.courses, script) {
        Ok(())
    } else {
        Err(CheckEnd::Unlawful {
            line: lines.len() as u32 + 2,
            rule: Rule::Order.number(),
        })
    }
}
