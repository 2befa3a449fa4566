// What is read so far of a problem, and what each line makes of it.
ghost use Rattle.std.specs.Prelude.{◌≡◌, ◌+◌, ◌≤◌, ◌<◌, length, cond, eqb};
ghost use Rattle.grammar.specs.Problem.{start, declaring, read_input, read_output, problem_line};
ghost use Rattle.text.specs.memory.Sizes.{ShortText, FewElements, FewPredicates, FewTerms};
ghost use Rattle.table.specs.memory.Table.{entry, problem_in};

use crate::declaration::{declared, domain_at};
use crate::fault::Fault;
use crate::rows::Awaited;
use table::table::{Predicate, Table};
use text::byte::begins_at;
use text::read::Read;
use text::size::{GREATEST_ELEMENT, PREDICATE_COUNT};

// Where the reading stands: before `domain=`; where inputs or outputs may follow; where `rows=` must follow; where only outputs may follow.
#[derive(Clone, Copy)]
pub enum Stage {
    Start,
    Declaring,
    Awaiting,
    Closing,
}

// The table so far, how many numbers its rows take, and how many tuples they are. Each line takes the text and the rows beside it: what
// holds of them is asked of them, and a struct that held them as well could not be copied with what a line changes.
#[derive(Clone, Copy)]
pub struct Progress {
    pub stage: Stage,
    pub table: Table,
    pub used: u32,
    pub total: u32,
    ghost few: { FewPredicates table.count },
    ghost inside: { table.inputs ≤ table.count },
    ghost small: { FewElements table.domain },
    ghost room: { total ≤ 1024 },
    ghost short: { used ≤ total + table.inputs },
}

// How many tuples so many rows are: of arity 0 none.
fn tuples(arity: u32, count: u32) -> u32
    ensures { (result ≡ cond (eqb arity 0) 0 count) × (result ≤ count) }
{
    if arity == 0 { 0 } else { count }
}

impl Stage {
    ghost use Rattle.problem.specs.memory.ProblemLines.{may_end};

    // Whether a text may end there.
    pub fn may_end(self) -> bool
        ensures { result ≡ may_end self }
    {
        matches!(self, Stage::Declaring | Stage::Closing)
    }
}

impl Progress {
    ghost use Rattle.problem.specs.memory.ProblemLines.{Standing, ToldProblemLine, LineTold, Awaits, WithRows, Beginning};

    // Nothing is read.
    pub fn new() -> Progress
        ensures { Beginning result }
    {
        Progress {
            stage: Stage::Start,
            table: Table {
                domain: 0,
                inputs: 0,
                count: 0,
                predicates: [Predicate::NONE; PREDICATE_COUNT],
            },
            used: 0,
            total: 0,
        }
    }

    // The first line: `domain=`.
    #[tactic(auto, using(crate::proofs::ProblemPlaces::told))]
    fn domain_line(&self, text: &[u8], at: usize) -> Result<Read<Progress>, Fault>
        requires { (at ≤ length text.now) × (self.now.stage ≡ Stage.Start) }
        ensures { LineTold (λ rows. problem_line start) text.now at self.now result }
    {
        let Read { value, next } = domain_at(text, at).ok_or(Fault::Malformed)?;
        let domain = value.ok_or(Fault::Unfit)?;
        if domain < 1 || domain > GREATEST_ELEMENT {
            return Err(Fault::Unfit);
        }
        let mut more = *self;
        more.stage = Stage::Declaring;
        more.table.domain = domain;
        Ok(Read { value: more, next })
    }

    // What follows `input=`.
    fn input_line(&self, text: &[u8], at: usize) -> Result<Read<Progress>, Fault>
        requires { (at ≤ length text.now) × ShortText text.now × (self.now.stage ≡ Stage.Declaring) }
        ensures { LineTold (λ rows. read_input (problem_in text.now self.now.table rows)) text.now at self.now result }
    {
        let Read { value: table, next } = declared(text, at, &self.table)?;
        let mut more = *self;
        more.stage = Stage::Awaiting;
        more.table = table;
        Ok(Read { value: more, next })
    }

    // A line `output=`.
    fn output_line(&self, text: &[u8], at: usize) -> Result<Read<Progress>, Fault>
        requires { (at ≤ length text.now) × ShortText text.now }
        ensures { LineTold (λ rows. read_output (problem_in text.now self.now.table rows)) text.now at self.now result }
    {
        if !begins_at(text, at, b"output=") {
            return Err(Fault::Malformed);
        }
        let Read { value: table, next } = declared(text, at + 7, &self.table)?;
        let mut more = *self;
        more.stage = Stage::Closing;
        more.table = table;
        more.table.count = self.table.count + 1;
        Ok(Read { value: more, next })
    }

    // A line where inputs or outputs may follow.
    fn declaring_line(&self, text: &[u8], at: usize) -> Result<Read<Progress>, Fault>
        requires { (at ≤ length text.now) × ShortText text.now × (self.now.stage ≡ Stage.Declaring) }
        ensures { LineTold (λ rows. problem_line (declaring (problem_in text.now self.now.table rows))) text.now at self.now result }
    {
        if begins_at(text, at, b"input=") {
            return self.input_line(text, at + 6);
        }
        self.output_line(text, at)
    }

    // With the rows of the input that awaits them: so many more numbers, and so many more tuples.
    fn with_rows(&self, count: u32, tuples: u32) -> Progress
        requires { (self.now.table.count < 32) × (self.now.total + tuples ≤ 1024) × (count ≤ tuples + 1) }
        ensures { WithRows self.now count tuples result }
    {
        let table = self.table.with_rows(self.used, count);
        Progress {
            stage: Stage::Declaring,
            table: Table {
                inputs: self.table.inputs + 1,
                count: self.table.count + 1,
                ..table
            },
            used: self.used + count,
            total: self.total + tuples,
        }
    }

    // The input that awaits its rows, which are to stand behind those of the others.
    fn awaited(&self) -> Awaited
        requires { FewTerms (entry self.now.table self.now.table.count).arity }
        ensures { Awaits self.now result }
    {
        Awaited {
            arity: self.table.predicate(self.table.count).arity,
            domain: self.table.domain,
            total: self.total,
            to: self.used as usize,
        }
    }

    // A line `rows=`, for the input that awaits its rows.
    fn rows_line(&self, text: &[u8], at: usize, rows: &mut [u32]) -> Result<Read<Progress>, Fault>
        requires { (at ≤ length text.now) × Standing text.now self.now rows.old × (self.now.stage ≡ Stage.Awaiting) × (1056 ≤ length rows.old) }
        ensures { ToldProblemLine text.now at self.now rows.old rows.new result }
    {
        let awaited = self.awaited();
        let Read { value: count, next } = awaited.rows_at(text, at, rows)?;
        let value = self.with_rows(count, tuples(awaited.arity, count));
        Ok(Read { value, next })
    }

    // A line, as the part asks that is read so far: an enum of what was read, since a closure can't be handed out.
    #[tactic(auto, using(crate::proofs::ProblemLoop::line_closing))]
    pub fn line_at(&self, text: &[u8], at: usize, rows: &mut [u32]) -> Result<Read<Progress>, Fault>
        requires { (at ≤ length text.now) × ShortText text.now × Standing text.now self.now rows.old × (1056 ≤ length rows.old) }
        ensures { ToldProblemLine text.now at self.now rows.old rows.new result }
    {
        match self.stage {
            Stage::Start => self.domain_line(text, at),
            Stage::Declaring => self.declaring_line(text, at),
            Stage::Awaiting => self.rows_line(text, at, rows),
            Stage::Closing => self.output_line(text, at),
        }
    }
}
