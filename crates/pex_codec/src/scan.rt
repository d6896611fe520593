//! Goes through a file without its values: what is still to come of it, and what the first fields of each part open.

ghost use Rattle.std.specs.Prelude.{◌≡◌, ◌<◌, Decides, IfOk, Some, [], ◌∷◌, ◌++◌};
ghost use Rattle.pex_codec.specs.Opening.{IsOpened, Opens, OpensAs, Passes, PassesIf, debug_count_at, fixed_at, function_tasks, least_of, object_tasks, property_tasks, state_count_at, task, times_of, whole_file};
ghost use Rattle.pex_codec.specs.ScanSteps.{work_of, IsStep, Steps, StepsIf, SameStack};
ghost use Rattle.pex_codec.specs.Scanning.{times_at};
ghost use Rattle.pex_codec.specs.Scans.{stack_of, ScansOn};
ghost use Rattle.pex_codec.specs.Taking.{Takes};
ghost use Rattle.pex_codec.specs.declared.scan.Part.TheVariants as part;

use crate::cursor::{Cursor, FunctionHead, LinesHead, ObjectHead, PropertyHead, Taken};
use papy_base::Made;
use pex_values::{has_read, has_write};
use std::alloc::{AllocError, Global};

/// A part of a file.
#[derive(Clone, Copy)]
pub(crate) enum Part {
    Heading,
    Text,
    /// The string table.
    Strings,
    Debug,
    Lines,
    Line,
    Flags,
    Flag,
    Objects,
    Object,
    Variable,
    Properties,
    Property,
    States,
    State,
    Named,
    Function,
    /// The parameters or the locals of a function.
    Pairs,
    Pair,
    Code,
    Instruction,
    Operand,
    /// No bytes: whether an object whose data ends here has the size that its field says.
    Size { size_at: u32, size: u32 },
}

/// A part that comes so many times.
#[derive(Clone, Copy)]
pub(crate) struct Task {
    pub part: Part,
    pub left: u32,
}

impl Task {
    /// A part so many times.
    fn times(part: Part, left: u32) -> Task
        ensures { result ≡ task part left }
    {
        Task { part, left }
    }
}

/// Nothing is to come.
const NOTHING: Task = Task {
    part: Part::Operand,
    left: 0,
};

/// What the first fields of a part open: what is to come behind them, and the number of strings from there on.
#[derive(Clone, Copy)]
pub(crate) struct Opened {
    pub strings: u16,
    pub first: Task,
    pub second: Task,
    pub third: Task,
    pub fourth: Task,
}

impl Opened {
    /// Three tasks in this order.
    pub(crate) fn three(strings: u16, first: Task, second: Task, third: Task) -> Opened
        ensures { IsOpened result (third ∷ second ∷ first ∷ []) strings }
    {
        Opened {
            strings,
            first,
            second,
            third,
            fourth: NOTHING,
        }
    }

    /// A part so many times.
    pub(crate) fn one(strings: u16, part: Part, left: u32) -> Opened
        ensures { IsOpened result (task part left ∷ []) strings }
    {
        Opened::three(strings, Task::times(part, left), NOTHING, NOTHING)
    }
}

// ---- the first fields of each part, and what they open

/// Takes the first fields of a part, which tell what is to come behind them.
pub(crate) fn open(part: Part, strings: u16, cursor: &mut Cursor<'_>) -> Taken<Opened>
    ensures { Opens part strings result cursor.old cursor.new }
{
    match part {
        Part::Heading => then(strings, NOTHING, cursor.heading()),
        Part::Text => then(strings, NOTHING, cursor.string()),
        Part::Strings => string_table(cursor.u16()),
        Part::Debug => list(strings, Part::Lines, debug_count(cursor)),
        Part::Lines => lines(strings, cursor.lines_head(strings)),
        Part::Line => then(strings, NOTHING, cursor.u16()),
        Part::Flags => list(strings, Part::Flag, cursor.u16()),
        Part::Flag => then(strings, NOTHING, cursor.flag(strings)),
        Part::Objects => list(strings, Part::Object, cursor.u16()),
        Part::Object => object(strings, cursor.object_head(strings)),
        Part::Variable => then(strings, NOTHING, cursor.variable(strings)),
        Part::Properties => list(strings, Part::Property, cursor.u16()),
        Part::Property => property(strings, cursor.property_head(strings)),
        Part::States => list(strings, Part::State, cursor.u16()),
        Part::State => list(strings, Part::Named, state_count(strings, cursor)),
        Part::Named => then(strings, function_where(true), cursor.reference(strings)),
        Part::Function => function(strings, cursor.function_head(strings)),
        Part::Pairs => list(strings, Part::Pair, cursor.u16()),
        Part::Pair => then(strings, NOTHING, cursor.pair(strings)),
        Part::Code => list(strings, Part::Instruction, cursor.u16()),
        Part::Instruction => row(strings, Part::Operand, cursor.fixed(strings)),
        Part::Operand => then(strings, NOTHING, cursor.datum(strings)),
        Part::Size { size_at, size } => then(strings, NOTHING, cursor.size_form(size_at, size)),
    }
}

/// A task is to come behind what was taken.
fn then<T: Drop>(strings: u16, task: Task, taken: Taken<T>) -> Taken<Opened>
    ensures { OpensAs taken (λ _. task ∷ []) (λ _. strings) result }
{
    taken?;
    Ok(Opened::three(strings, task, NOTHING, NOTHING))
}

/// So many items are to come.
fn list(strings: u16, item: Part, count: Taken<u16>) -> Taken<Opened>
    ensures { OpensAs count (λ n. task item n ∷ []) (λ _. strings) result }
{
    Ok(Opened::one(strings, item, u32::from(count?)))
}

/// As `list`.
fn row(strings: u16, item: Part, count: Taken<u32>) -> Taken<Opened>
    ensures { OpensAs count (λ n. task item n ∷ []) (λ _. strings) result }
{
    Ok(Opened::one(strings, item, count?))
}

fn lines(strings: u16, head: Taken<LinesHead>) -> Taken<Opened>
    ensures { OpensAs head (λ h. task part.Line h.lines ∷ []) (λ _. strings) result }
{
    Ok(Opened::one(strings, Part::Line, u32::from(head?.lines)))
}

/// The number of strings in the table is how many there are from here on.
fn string_table(count: Taken<u16>) -> Taken<Opened>
    ensures { OpensAs count (λ n. task part.Text n ∷ []) (λ n. n) result }
{
    let count = count?;
    Ok(Opened::one(count, Part::Text, u32::from(count)))
}

/// Of how many functions line numbers follow.
#[tactic(auto, unfolding(crate::specs::Opening::debug_count_at))]
fn debug_count(cursor: &mut Cursor<'_>) -> Taken<u16>
    ensures { Takes (λ n. n) debug_count_at result cursor.old cursor.new }
{
    if cursor.debug_flag()? == 0 {
        return Ok(0);
    }
    cursor.u64()?;
    cursor.u16()
}

/// The name of a state, and of how many functions it is.
#[tactic(auto, unfolding(crate::specs::Opening::state_count_at))]
fn state_count(strings: u16, cursor: &mut Cursor<'_>) -> Taken<u16>
    ensures { Takes (λ n. n) (state_count_at strings) result cursor.old cursor.new }
{
    cursor.reference(strings)?;
    cursor.u16()
}

/// The variables, properties and states are to come, and whether the size is theirs.
fn object(strings: u16, head: Taken<ObjectHead>) -> Taken<Opened>
    ensures { OpensAs head object_tasks (λ _. strings) result }
{
    let head = head?;
    let ObjectHead { size_at, size, .. } = head;
    Ok(Opened {
        strings,
        first: Task::times(Part::Variable, u32::from(head.variables)),
        second: Task::times(Part::Properties, 1),
        third: Task::times(Part::States, 1),
        fourth: Task::times(Part::Size { size_at, size }, 1),
    })
}

/// The functions that the bits ask for are to come.
fn property(strings: u16, head: Taken<PropertyHead>) -> Taken<Opened>
    ensures { OpensAs head property_tasks (λ _. strings) result }
{
    let bits = head?.bits;
    let read = function_where(has_read(bits));
    let write = function_where(has_write(bits));
    Ok(Opened::three(strings, read, write, NOTHING))
}

/// A function where it is asked for.
fn function_where(asked: bool) -> Task
    ensures { result ≡ task part.Function (times_of asked) }
{
    let left = if asked { 1 } else { 0 };
    Task::times(Part::Function, left)
}

/// The parameters, locals and code are to come.
fn function(strings: u16, head: Taken<FunctionHead>) -> Taken<Opened>
    ensures { OpensAs head function_tasks (λ _. strings) result }
{
    let parameters = Task::times(Part::Pair, u32::from(head?.parameters));
    let locals = Task::times(Part::Pairs, 1);
    let code = Task::times(Part::Code, 1);
    Ok(Opened::three(strings, parameters, locals, code))
}

// ---- rows of operands and instructions, passed without a look at what is behind them

impl<'a> Cursor<'a> {
    /// So many operands.
    #[inline(always)]
    fn operands(&mut self, strings: u16, count: u8) -> Taken<()>
        ensures { Takes (λ _. strings) (times_at part.Operand count strings) result self.old self.new }
    {
        'operands: for _ in 0..count {
            self.datum(strings)?;
        }
        Ok(())
    }

    /// An opcode and the operands that it always has, and how many more follow.
    #[inline(always)]
    #[tactic(auto, unfolding(crate::specs::Opening::fixed_at))]
    pub(crate) fn fixed(&mut self, strings: u16) -> Taken<u32>
        ensures { Takes (λ n. n) (fixed_at strings) result self.old self.new }
    {
        let operation = self.opcode()?;
        self.operands(strings, operation.fixed)?;
        if operation.more {
            return self.count();
        }
        Ok(0)
    }

    /// Whether one of a part was passed: an operand, or an instruction that has no operands more.
    #[inline(always)]
    fn passes(&mut self, part: Part, strings: u16) -> bool
        ensures { PassesIf result part strings self.old self.new }
    {
        match part {
            Part::Operand => self.datum(strings).is_ok(),
            Part::Instruction => matches!(self.fixed(strings), Ok(0)),
            _ => false,
        }
    }
}

/// Passes what it can of a row, and says how many of so many are left.
pub(crate) fn pass_row(part: Part, strings: u16, count: u32, cursor: &mut Cursor<'_>) -> u32
    ensures { Passes part strings count cursor.old result cursor.new }
{
    let mut left = count;
    'row: while left > 0 {
        let mut ahead = *cursor;
        if !ahead.passes(part, strings) {
            return left;
        }
        *cursor = ahead;
        left -= 1;
    }
    left
}

// ---- the scan

/// What is still to come of a file.
#[derive(Drop)]
pub(crate) struct Scan {
    /// How many strings the table has, or 0 before it.
    pub(crate) strings: u16,
    /// What comes next.
    pub(crate) current: Task,
    /// What comes then, the last one first.
    pub(crate) below: Vec<Task>,
}

/// Puts a task on the stack, where there is something of it.
fn put(tasks: &mut Vec<Task>, task: Task) -> Result<(), AllocError>
    ensures { IfOk result (λ _. SameStack (tasks.old.items ++ (task ∷ [])) tasks.new.items) }
{
    if task.left > 0 {
        tasks.push(task)?;
    }
    Ok(())
}

/// Puts what is left of a part on the stack, and what it opened but for what comes first.
fn put_opened(tasks: &mut Vec<Task>, rest: Task, opened: &Opened) -> Result<(), AllocError>
    ensures { IfOk result (λ _. SameStack (tasks.old.items ++ (rest ∷ opened.now.fourth ∷ opened.now.third ∷ opened.now.second ∷ [])) tasks.new.items) }
{
    put(tasks, rest)?;
    put(tasks, opened.fourth)?;
    put(tasks, opened.third)?;
    put(tasks, opened.second)
}

impl Scan {
    /// A whole file is to come.
    pub(crate) fn new(alloc: Global) -> Made<Scan>
        ensures tasks { IfOk result (λ s. stack_of s ≡ whole_file) }
        ensures strings { IfOk result (λ s. s.strings ≡ 0) }
    {
        let below = vec![in alloc;
            Task::times(Part::Objects, 1),
            Task::times(Part::Flags, 1),
            Task::times(Part::Debug, 1),
            Task::times(Part::Strings, 1),
            Task::times(Part::Text, 3),
        ]?;
        Ok(Scan {
            strings: 0,
            current: Task::times(Part::Heading, 1),
            below,
        })
    }

    /// Goes on as far as the bytes are there. Where they end within an item, it stands before that.
    pub(crate) fn go_on(&mut self, cursor: &mut Cursor<'_>) -> Taken<()>
        ensures { ScansOn self.old result self.new cursor.old cursor.new }
    {
        'steps: while !self.is_done() {
            self.step(cursor)?;
        }
        Ok(())
    }

    /// Whether nothing is to come.
    fn is_done(&self) -> bool
        ensures { Decides result (work_of self.now ≡ 0) }
    {
        self.current.left == 0 && self.below.is_empty()
    }

    /// Does a part of what is to come. Where the bytes end within it, nothing is changed.
    fn step(&mut self, cursor: &mut Cursor<'_>) -> Taken<()>
        requires { 0 < work_of self.old }
        ensures { Steps result self.old cursor.old self.new cursor.new }
    {
        if self.current.left == 0 {
            self.next(cursor);
            return Ok(());
        }
        if let Part::Size { size_at, size } = self.current.part {
            return self.judge(size_at, size, cursor);
        }
        if self.pass(cursor) {
            return Ok(());
        }
        self.open(cursor)
    }

    /// What comes next where nothing is left of what came.
    fn next(&mut self, cursor: &Cursor<'_>)
        requires none { self.old.current.left ≡ 0 }
        requires some { 0 < work_of self.old }
        ensures { IsStep self.old cursor.now self.new cursor.now }
    {
        if let Some(task) = self.below.pop() {
            self.current = task;
        }
    }

    /// Judges the size of an object whose data ends here.
    fn judge(&mut self, size_at: u32, size: u32, cursor: &Cursor<'_>) -> Taken<()>
        requires some { 0 < self.old.current.left }
        requires part { self.old.current.part ≡ part.Size size_at size }
        ensures { Steps result self.old cursor.now self.new cursor.now }
    {
        let mut here = *cursor;
        here.size_form(size_at, size)?;
        self.current.left = 0;
        Ok(())
    }

    /// Passes what it can of a row, and says whether it passed anything.
    fn pass(&mut self, cursor: &mut Cursor<'_>) -> bool
        requires some { 0 < self.old.current.left }
        ensures { StepsIf result self.old cursor.old self.new cursor.new }
    {
        let mut ahead = *cursor;
        let Task { part, left } = self.current;
        let now = pass_row(part, self.strings, left, &mut ahead);
        if now == left {
            return false;
        }
        self.current.left = now;
        *cursor = ahead;
        true
    }

    /// Takes the first fields of the next part.
    fn open(&mut self, cursor: &mut Cursor<'_>) -> Taken<()>
        requires some { 0 < self.old.current.left }
        requires bytes { least_of self.old.current.part ≡ 1 }
        ensures { Steps result self.old cursor.old self.new cursor.new }
    {
        let mut ahead = *cursor;
        let Task { part, left } = self.current;
        let opened = open(part, self.strings, &mut ahead)?;
        let rest = Task::times(part, left - 1);
        put_opened(&mut self.below, rest, &opened)?;
        self.strings = opened.strings;
        self.current = opened.first;
        *cursor = ahead;
        Ok(())
    }
}
