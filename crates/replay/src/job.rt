// The jobs replay and check. They are one, but for the claim, which replay has not.
ghost use Rattle.std.specs.Prelude.{◌≡◌, ℕ, ◌&&◌, leb, length, is_some};
ghost use Rattle.demands.specs.Answer.{result_of, replay_result, check_result};
ghost use Rattle.demands.specs.Promise.{Promise};
ghost use Rattle.demands.specs.memory.Conclusions.{judged_of, short_of, answered_of};
ghost use Rattle.text.specs.memory.Sizes.{ShortText, InWork};
ghost use Rattle.printing.specs.memory.ClauseText.{clause_lines};
ghost use Rattle.steps.specs.memory.Steps.{Arranged};
ghost use Rattle.replay.specs.declared.job.Refusal.TheVariants.{Text};
ghost use Rattle.replay.specs.memory.Answers.{claimed, agreed_by, answer_by, Told, Concluded};

use crate::clearing::clear;
use demands::answer::Answer;
use grounding::fault;
use grounding::grounding::ground_theory;
use printing::cursor::Cursor;
use printing::print::Clauses;
use steps::live::Layout;
use text::size::{FORMULA_COUNT, LEVEL_COUNT, TEXT_SIZE, THEORY_SIZE, WORK_SIZE};

// The rows stand behind the theory and the next one; the names behind 1,024 rows and a truth value for each of 32 predicates.
const ROWS: usize = 8192;

const NAMES: usize = 9248;

// What is accepted: how many rule lines and final formulas there are.
#[derive(Clone, Copy)]
struct Counts {
    rules: u32,
    formulas: u32,
}

// Why a job is refused, by the statement's numbers.
#[derive(Clone, Copy)]
enum Refusal {
    // 1: working memory is too short.
    Memory,
    // 2: a text is too long.
    Length,
    // 3 to 17: what one of the texts says.
    Text(fault::Refusal),
    // 18: the output has no room for the ground text.
    Room,
    // 19: the ground text is another than the claim, from this line of the claim on.
    Claim(u32),
}

impl From<fault::Refusal> for Refusal {
    ghost from_gives = { λ r s. s ≡ Text r };

    fn from(refusal: fault::Refusal) -> Refusal {
        Refusal::Text(refusal)
    }
}

// The public answer is five numbers, 0 first where nothing is refused: what the jobs promise names each of them.
fn refused(number: u32, file: u32, line: u32) -> Answer
    ensures { result ≡ record { number = number; file = file; line = line; rules = 0; formulas = 0 } }
{
    Answer {
        number,
        file,
        line,
        rules: 0,
        formulas: 0,
    }
}

fn answer(outcome: Result<Counts, Refusal>) -> Answer
    ensures { result ≡ answer_by outcome }
{
    match outcome {
        Ok(Counts { rules, formulas }) => Answer {
            number: 0,
            file: 0,
            line: 0,
            rules,
            formulas,
        },
        Err(Refusal::Memory) => refused(1, 0, 0),
        Err(Refusal::Length) => refused(2, 0, 0),
        Err(Refusal::Text(text)) => refused(text.fault.number(), text.fault.file(), text.line),
        Err(Refusal::Room) => refused(18, 0, 0),
        Err(Refusal::Claim(line)) => refused(19, 4, line),
    }
}

fn layout() -> Layout
    ensures { (size : ℕ) → size ≡ 16384 → Arranged result size }
{
    Layout {
        next: THEORY_SIZE,
        rows: ROWS,
        names: NAMES,
        spare: FORMULA_COUNT,
    }
}

// The claim's bytes; none where there is no claim.
fn claimed<'a>(claim: Option<&'a [u8]>) -> &'a [u8]
    ensures { result.now ≡ claimed claim.entry }
{
    claim.unwrap_or(b"")
}

// Whether the text so far is the whole claim, if there is one.
fn agrees(cursor: Cursor, claim: Option<&[u8]>) -> bool
    ensures { result ≡ agreed_by cursor claim.entry }
{
    match claim {
        Some(claim) => cursor.same && cursor.length == claim.len(),
        None => true,
    }
}

// 18 and 19, or the ground text in the output.
fn concluded(
    clauses: &Clauses,
    counts: Counts,
    claim: Option<&[u8]>,
    output: &mut [u8],
) -> Result<Counts, Refusal>
    ensures { Concluded (is_some claim.entry) (claimed claim.entry) (clause_lines clauses.now.problem.now clauses.now.table.now 32 counts.formulas clauses.now.work.now) counts output.old result output.new }
{
    let compared = claimed(claim);
    let cursor = clauses.printed(LEVEL_COUNT, counts.formulas, compared, false, output);
    if cursor.length > output.len() {
        return Err(Refusal::Room);
    }
    if !agrees(cursor, claim) {
        return Err(Refusal::Claim(cursor.line));
    }
    clauses.printed(LEVEL_COUNT, counts.formulas, compared, true, output);
    Ok(counts)
}

// The texts of a job; replay has no claim.
#[derive(Clone, Copy)]
struct Texts<'a> {
    problem: &'a [u8],
    theory: &'a [u8],
    derivation: &'a [u8],
    claim: Option<&'a [u8]>,
}

impl Texts<'_> {
    // Whether no text is longer than a text may be.
    fn are_short(&self) -> bool
        ensures { result ≡ (leb (length self.now.problem.now) 65536 && (leb (length self.now.theory.now) 65536 && (leb (length self.now.derivation.now) 65536 && leb (length (claimed self.now.claim)) 65536))) }
    {
        self.problem.len() <= TEXT_SIZE
            && self.theory.len() <= TEXT_SIZE
            && self.derivation.len() <= TEXT_SIZE
            && claimed(self.claim).len() <= TEXT_SIZE
    }

    // From 3 on.
    fn judged(&self, output: &mut [u8], work: &mut [u32]) -> Result<Counts, Refusal>
        requires { (length work.old ≡ 16384) × ShortText self.now.problem.now × ShortText self.now.theory.now × ShortText self.now.derivation.now }
        ensures { Told (judged_of (is_some self.now.claim) self.now.problem.now self.now.theory.now self.now.derivation.now (claimed self.now.claim) output.old) output.old result output.new }
    {
        let ground = ground_theory(self.problem, self.theory, self.derivation, work, layout())?;
        let counts = Counts {
            rules: ground.grounded.rules,
            formulas: ground.memory.live.count as u32,
        };
        let clauses = Clauses {
            work: ground.words(),
            problem: self.problem,
            table: &ground.grounded.table,
        };
        concluded(&clauses, counts, self.claim, output)
    }

    // From 2 on.
    fn judged_short(&self, output: &mut [u8], work: &mut [u32]) -> Result<Counts, Refusal>
        requires { length work.old ≡ 16384 }
        ensures { Told (short_of (is_some self.now.claim) self.now.problem.now self.now.theory.now self.now.derivation.now (claimed self.now.claim) output.old) output.old result output.new }
    {
        if !self.are_short() {
            return Err(Refusal::Length);
        }
        self.judged(output, work)
    }
}

// The texts are put together here once, for both jobs, behind the test of memory: built in each they would stand twice.
fn answered<'a>(
    problem: &'a [u8],
    theory: &'a [u8],
    derivation: &'a [u8],
    claim: Option<&'a [u8]>,
    output: &mut [u8],
    work: &mut [u32],
    size: usize,
) -> Answer
    requires { size ≡ 16384 }
    ensures { Promise (result_of (answered_of (is_some claim.entry) problem.now theory.now derivation.now (claimed claim.entry) output.old work.old) output.old work.old) result output.new work.new }
{
    if work.len() < size {
        return answer(Err(Refusal::Memory));
    }
    let texts = Texts {
        problem,
        theory,
        derivation,
        claim,
    };
    let outcome = texts.judged_short(output, &mut work[..size]);
    clear(work, size);
    answer(outcome)
}

// The ground text is written.
pub fn replay(
    problem: &[u8],
    theory: &[u8],
    derivation: &[u8],
    output: &mut [u8],
    work: &mut [u32],
) -> Answer
    ensures { Promise (replay_result problem.now theory.now derivation.now output.old work.old) result output.new work.new }
{
    answered(problem, theory, derivation, None, output, work, WORK_SIZE)
}

// The same, if the ground text is the claim.
pub fn check(
    problem: &[u8],
    theory: &[u8],
    derivation: &[u8],
    claim: &[u8],
    output: &mut [u8],
    work: &mut [u32],
) -> Answer
    ensures { Promise (check_result problem.now theory.now derivation.now claim.now output.old work.old) result output.new work.new }
{
    answered(
        problem,
        theory,
        derivation,
        Some(claim),
        output,
        work,
        WORK_SIZE,
    )
}
