//! A table, compiled once for many files: its sequences, each cut at its unbounded gaps into
//! stages.
//!
//! Of `41{0-1}42{3-*}43` anywhere there are two stages, `41{0-1}42` with a delay of three bytes and
//! `43`; in an EOF sequence the second one is the tail. The items are copied, so that a program
//! serves for as long as it is wanted. The stages of all sequences stand in one list, and a course
//! says which of them are those of its sequence. Beside them stand the literals of stages
//! (`filter`), which are looked for all at once. Those of stages that may begin at several offsets
//! from the beginning of a file have a filter of their own, so that what is looked for anywhere is
//! not slowed down by them.

ghost use Rattle.std.specs.Prelude.{◌≡◌, ◌≤◌, ◌<◌, ◌++◌, ◌∷◌, [], ℕ, All, List, IfOk, IfSome, OnOk, MatchOption, None, Some, length, map};
ghost use Rattle.sig_expr.specs.declared.item.Item.TheVariants.{Gap};
ghost use Rattle.sig_scan.specs.Courses.{AddsCourse, AreHeld, IsProgramOf, course_if, course_in};
ghost use Rattle.sig_scan.specs.Filters.{AreLiteralsOf};
ghost use Rattle.sig_scan.specs.Lengths.{IsBoundedItem};
ghost use Rattle.sig_scan.specs.Passes.{ArePast};
ghost use Rattle.sig_scan.specs.Scans.{AreFirst, IsFirst, IsShortCourse};
ghost use Rattle.sig_scan.specs.Stages.{CourseView, StageView, course_of, stages_of};
ghost use Rattle.std.specs.List.{slice_get};

use crate::filter::Filter;
use crate::lengths::span_of;
use crate::stage::{Stage, Tail};
use crate::state::State;
use sig_expr::Item;
use sig_table::{Position, Sequence, SigId, Table};
use std::alloc::{AllocError, Global};
use std::marker::Model;

// A sequence: the first offset at which it may begin, where its stages stand among those of the
// table, and its tail.
#[derive(Debug, Drop)]
struct Course {
    from: u16,
    first: usize,
    end: usize,
    tail: Option<Tail>,
}

// A table's sequences as stages and tails, in the order of the signatures.
#[derive(Debug, Drop)]
pub(crate) struct Program {
    stages: Vec<Stage>,
    // Of each sequence its signature, apart from its course, since each file asks for all of them.
    owners: Vec<usize>,
    courses: Vec<Course>,
    // Of each sequence, what is known of it at the beginning of a file.
    states: Vec<State>,
    // The literals of stages that may begin at several offsets from the beginning of a file, and of
    // those that may begin anywhere.
    early: Filter,
    late: Filter,
    keep: usize,
}

impl Model for Program {
    ghost use Rattle.std.specs.Prelude.{◌≡◌, length, map};
    ghost use Rattle.sig_scan.specs.Courses.{IsCompiled, ProgramView, course_in};
    ghost use Rattle.sig_scan.specs.Scans.{AreFirst};

    ghost Value = { ProgramView };

    ghost view = { λ p. record { owners = p.owners.items; courses = map (course_in p.stages.items) p.courses.items } };

    ghost invariant = { λ p. IsCompiled p.keep p.early p.late p.stages.items p.courses.items
        × (length p.owners.items ≡ length p.courses.items) × (length p.states.items ≡ length p.courses.items)
        × AreFirst (map (course_in p.stages.items) p.courses.items) p.states.items };
}

impl Program {
    // Compiles those signatures of a table that the file may hit. Of the others no sequence is
    // looked for.
    pub(crate) fn of(alloc: Global, table: &Table, may_hit: &[bool]) -> Result<Program, AllocError>
        requires { length may_hit.now ≡ length table.now.signatures }
        ensures { IfOk result (IsProgramOf table.now may_hit.now) }
    {
        let most = 2 * table.signature_count();
        let mut stages = Vec::with_capacity(alloc, most)?;
        let mut owners = Vec::with_capacity(alloc, most)?;
        let mut courses = Vec::with_capacity(alloc, most)?;
        for index in 0..table.signature_count() {
            for sequence in table.sequences_of(SigId(index as u16)) {
                let course = add_course(alloc, sequence, may_hit[index], &mut stages)?;
                courses.push(course)?;
                owners.push(index)?;
            }
        }
        let states = first_states(alloc, &stages, &courses)?;
        let early = filter_of(alloc, &stages, &owners, &courses, true)?;
        let late = filter_of(alloc, &stages, &owners, &courses, false)?;
        let keep = keep_of(&stages, &courses);
        Ok(Program {
            stages,
            owners,
            courses,
            states,
            early,
            late,
            keep,
        })
    }

    // How many bytes hold any word that is looked for: that of a stage, and that of a tail with
    // what may stand behind it.
    pub(crate) fn keep(&self) -> usize
        ensures holds { All (IsShortCourse result) self.now.courses }
        ensures few { result ≤ 65535 }
    {
        self.keep
    }

    // How many sequences there are.
    pub(crate) fn sequence_count(&self) -> usize
        ensures courses { result ≡ length self.now.courses }
        ensures owners { result ≡ length self.now.owners }
    {
        self.courses.len()
    }

    // What is known of each sequence at the beginning of a file: it waits for all of its course.
    pub(crate) fn first_states(&self) -> &[State]
        ensures count { length result.now ≡ length self.now.courses }
        ensures first { AreFirst self.now.courses result.now }
    {
        &self.states
    }

    // The stages of a sequence, in turn.
    pub(crate) fn stages_of(&self, sequence: usize) -> &[Stage]
        requires { sequence < length self.now.courses }
        ensures { (course : CourseView) → slice_get self.now.courses sequence ≡ Some course → result.now ≡ course.stages }
    {
        let course = &self.courses[sequence];
        &self.stages[course.first..course.end]
    }

    // The tail of a sequence, if it has one.
    pub(crate) fn tail_of(&self, sequence: usize) -> &Option<Tail>
        requires { sequence < length self.now.courses }
        ensures { (course : CourseView) → slice_get self.now.courses sequence ≡ Some course → result.now ≡ course.tail }
    {
        &self.courses[sequence].tail
    }

    // The signature of a sequence.
    pub(crate) fn signature_of(&self, sequence: usize) -> usize
        requires { sequence < length self.now.courses }
        ensures { slice_get self.now.owners sequence ≡ Some result }
    {
        self.owners[sequence]
    }

    // Finds for each sequence of a signature that the file may hit an offset before which no word
    // of the stage that it waits in begins, as far as the prefilters tell.
    pub(crate) fn look(
        &self,
        bytes: &[u8],
        base: u64,
        states: &[State],
        may_hit: &[bool],
        found: &mut [usize],
    )
        ensures { ArePast self.now.courses states.now bytes.now found.new }
    {
        found.fill(0);
        self.early.look(bytes, base, states, may_hit, found);
        self.late.look(bytes, base, states, may_hit, found);
    }
}

// Of each sequence the state in which it waits for all of its course.
fn first_states(
    alloc: Global,
    stages: &[Stage],
    courses: &[Course],
) -> Result<Vec<State>, AllocError>
    ensures count { IfOk result (λ states. length states.items ≡ length courses.now) }
    ensures first { IfOk result (λ states. AreFirst (map (course_in stages.now) courses.now) states.items) }
{
    let mut states = Vec::with_capacity(alloc, courses.len())?;
    for course in courses {
        states.push(first_state(course, stages))?;
    }
    Ok(states)
}

// The state in which a sequence waits for all of its course. A stage of no byte that may begin
// anywhere, as that of `*41`, ends where it begins, so the sequence waits behind it.
fn first_state(course: &Course, stages: &[Stage]) -> State
    ensures { IsFirst (course_in stages.now course.now) result }
{
    let from = usize::from(course.from);
    if from == 0 && course.first < course.end.min(stages.len()) {
        let stage = &stages[course.first];
        if stage.until.is_none() && stage.items.is_empty() {
            return State {
                done: 1,
                from: stage.delay as usize,
            };
        }
    }
    State { done: 0, from }
}

// The literals of all stages that may begin at several offsets from the beginning of a file, or of
// those that may begin anywhere.
fn filter_of(
    alloc: Global,
    stages: &[Stage],
    owners: &[usize],
    courses: &[Course],
    is_early: bool,
) -> Result<Filter, AllocError>
    requires { length owners.now ≡ length courses.now }
    ensures { IfOk result (AreLiteralsOf (map (course_in stages.now) courses.now)) }
{
    let mut filter = Filter::new(alloc)?;
    for (sequence, course) in courses.iter().enumerate() {
        for stage in course.first..course.end.min(stages.len()) {
            let done = stage - course.first;
            add_literal(
                &mut filter,
                &stages[stage],
                course,
                owners[sequence],
                sequence,
                done,
                is_early,
            )?;
        }
    }
    Ok(filter)
}

// Adds the literal of a stage, if it is one of these and has enough bytes. A stage that may begin
// at one offset alone is judged by a head.
fn add_literal(
    filter: &mut Filter,
    stage: &Stage,
    course: &Course,
    signature: usize,
    sequence: usize,
    done: usize,
    is_early: bool,
) -> Result<(), AllocError>
    ensures { (courses : List CourseView) → ((c : CourseView) → slice_get courses sequence ≡ Some c → slice_get c.stages done ≡ Some stage.now)
        → AreLiteralsOf courses filter.old → OnOk result (AreLiteralsOf courses filter.new) }
{
    let is_wanted = match stage.until {
        Some(until) => is_early && until != u32::from(course.from),
        None => !is_early,
    };
    if !is_wanted || stage.literal.text().len() < 4 {
        return Ok(());
    }
    filter.add(&stage.literal, stage.until, signature, sequence, done)
}

// The same of these stages and tails.
fn keep_of(stages: &[Stage], courses: &[Course]) -> usize
    requires { AreHeld 65535 stages.now courses.now }
    ensures holds { AreHeld result stages.now courses.now }
    ensures few { result ≤ 65535 }
{
    let mut longest: usize = 0;
    for stage in stages {
        longest = longest.max(span_of(&stage.items));
    }
    for course in courses {
        if let Some(tail) = &course.tail {
            longest = longest.max(tail.longest + tail.max as usize);
        }
    }
    longest
}

// The course of a sequence, and nothing to look for if its signature is not to be hit.
fn add_course(
    alloc: Global,
    sequence: &Sequence,
    may_hit: bool,
    stages: &mut Vec<Stage>,
) -> Result<Course, AllocError>
    ensures { IfOk result (λ course. AddsCourse stages.old.items stages.new.items course (course_if may_hit sequence.now)) }
{
    if may_hit {
        return add_stages(alloc, sequence, stages);
    }
    Ok(Course {
        from: 0,
        first: stages.len(),
        end: stages.len(),
        tail: None,
    })
}

// Adds the stages of a sequence to those of the sequences before it.
fn add_stages(
    alloc: Global,
    sequence: &Sequence,
    stages: &mut Vec<Stage>,
) -> Result<Course, AllocError>
    ensures { IfOk result (λ course. AddsCourse stages.old.items stages.new.items course (course_of sequence.now)) }
{
    let items = sequence.expr().items();
    let first = stages.len();
    match sequence.position() {
        Position::Bof { min, max } => {
            cut_whole(alloc, items, Some(u32::from(max)), stages)?;
            Ok(Course {
                from: min,
                first,
                end: stages.len(),
                tail: None,
            })
        }
        Position::Eof { min, max } => {
            let last = cut(alloc, items, None, stages)?.into_items();
            Ok(Course {
                from: 0,
                first,
                end: stages.len(),
                tail: Some(Tail::of(last, min, max)),
            })
        }
        Position::Variable => {
            cut_whole(alloc, items, None, stages)?;
            Ok(Course {
                from: 0,
                first,
                end: stages.len(),
                tail: None,
            })
        }
    }
}

// Adds all stages of the items.
fn cut_whole(
    alloc: Global,
    items: &[Item],
    until: Option<u32>,
    stages: &mut Vec<Stage>,
) -> Result<(), AllocError>
    ensures { OnOk result (stages.new.items ≡ stages.old.items ++ stages_of until [] items.now) }
{
    let last = cut(alloc, items, until, stages)?;
    stages.push(last)?;
    Ok(())
}

// Adds a stage for the items up to each unbounded gap, and gives the one of those behind the last
// gap.
fn cut(
    alloc: Global,
    items: &[Item],
    until: Option<u32>,
    stages: &mut Vec<Stage>,
) -> Result<Stage, AllocError>
    ensures { IfOk result (λ last. stages.new.items ++ last ∷ [] ≡ stages.old.items ++ stages_of until [] items.now) }
{
    let mut until = until;
    let mut begin = 0;
    for (i, item) in items.iter().enumerate() {
        if let Some(delay) = unbounded(item) {
            let stage = Stage::of(alloc, &items[begin..i], until, delay)?;
            stages.push(stage)?;
            until = None;
            begin = i + 1;
        }
    }
    Stage::of(alloc, &items[begin..], until, 0)
}

// The least length of a gap that has no greatest one.
fn unbounded(item: &Item) -> Option<u32>
    ensures { MatchOption result (IsBoundedItem item.now) (λ min. item.now ≡ Gap min None) }
{
    match item {
        Item::Gap { min, max } => match max {
            Some(_) => None,
            None => Some(*min),
        },
        Item::Byte(_) | Item::Any | Item::Alt(_) => None,
        Item::Range(_, _) | Item::Not(_) | Item::NotRange(_, _) => None,
    }
}
