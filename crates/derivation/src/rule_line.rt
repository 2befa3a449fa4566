// Derivation lines: the heading, rule lines and the footer.
ghost use Rattle.std.specs.Prelude.{◌≡◌, ◌≤◌, ◌<◌, ◌+◌, length, map, IfSome};
ghost use Rattle.grammar.specs.Bytes.{is_printable};
ghost use Rattle.grammar.specs.Reading.{word as read_word, token, refuse, one_of, separated};
ghost use Rattle.grammar.specs.Derivation.{read_ranged, read_path, read_position, at_position, read_split, read_footer, read_line, read_version, read_grounder, is_grounder};
ghost use Rattle.text.specs.memory.Numbers.{beyond, number_at, number_end};
ghost use Rattle.text.specs.memory.Told.{Told, ToldEnd};
ghost use Rattle.derivation.specs.memory.RuleLines.{numbers_in, position_in, line_in, make_of, entry_of, reader_of, read_kind, read_final_names, NumbersBefore, LineBefore};

use text::byte::{Class, begins_at, peek, run_end};
use text::number::{Numbers, number_at};
use text::read::Read;
use text::size::{GREATEST_NAME, GREATEST_PATH_NUMBER, GROUNDER_SIZE};

// The rules that change a formula, or a part of one.
#[derive(Clone, Copy)]
pub enum Rule {
    Snand,
    Snor,
    Stn,
    Epred,
    Eprop,
    Iq,
}

// A formula's name, and a path in it.
#[derive(Clone, Copy)]
pub struct Position {
    pub name: u32,
    pub path: Numbers,
}

#[derive(Clone, Copy)]
pub enum RuleLine {
    Rewrite(Rule, Position),
    Unsat(Position),
    Trivial(Position),
    Splitc(Position, Numbers),
}

// What may follow the heading.
#[derive(Clone, Copy)]
pub enum Line {
    Step(RuleLine),
    Footer(Numbers),
}

// A rule line that ends with its position.
#[derive(Clone, Copy)]
enum AtPosition {
    Rewrite(Rule),
    Unsat,
    Trivial,
}

// The kind of a line.
#[derive(Clone, Copy)]
enum Kind {
    At(AtPosition),
    Splitc,
    Footer,
}

// What stands at a place of a text. Each function reads on where the one before it ended, so a place with its text and its bound would be
// made anew at every step, and be no plainer than the two parameters. What is known of a value that was read stands at the function: `Read` is
// of any value.

// The place after a word.
#[tactic(auto, unfolding(grammar::specs::Reading::word))]
fn word_end(text: &[u8], at: usize, word: &[u8]) -> Option<usize>
    requires { at ≤ length text.now }
    ensures read { ToldEnd 10 (read_word 10 word.now) text.now at result }
    ensures ends { IfSome result (λ next. next ≡ at + length word.now) }
{
    if begins_at(text, at, word) {
        return Some(at + word.len());
    }
    None
}

// A number from `least` to `greatest`.
#[tactic(auto, unfolding(grammar::specs::Derivation::read_ranged))]
fn ranged_at(text: &[u8], at: usize, least: u32, greatest: u32) -> Option<Read<u32>>
    requires { (at ≤ length text.now) × (greatest < beyond) }
    ensures read { Told 10 (read_ranged least greatest) (λ n. n) text.now at result }
    ensures stands { IfSome result (λ r. (r.value ≡ number_at text.now at) × (r.next ≡ number_end text.now at) × (at < r.next)) }
{
    let Read { value, next } = number_at(text, at)?;
    let value = value?;
    if value < least || greatest < value {
        return None;
    }
    Some(Read { value, next })
}

// One or more numbers from `least` to `greatest`, with commas between them.
fn numbers_at(text: &[u8], at: usize, least: u32, greatest: u32) -> Option<Read<Numbers>>
    requires { (at ≤ length text.now) × (greatest < beyond) }
    ensures read { Told 10 (separated 44 (read_ranged least greatest)) (numbers_in text.now) text.now at result }
    ensures before { IfSome result (λ r. NumbersBefore r.value r.next) }
{
    let mut i = at;
    let mut many: usize = 0;
    // A number begins where the one before it ends: no range goes over these places, and no iterator would be plainer.
    loop {
        let number = ranged_at(text, i, least, greatest)?;
        let next = number.next;
        many += 1;
        if peek(text, next) != b',' {
            let value = Numbers { at, many };
            return Some(Read { value, next });
        }
        i = next + 1;
    }
}

// A path in brackets; nothing is the empty path.
#[tactic(auto, using(text::proofs::Told::chain), unfolding(grammar::specs::Derivation::read_path, grammar::specs::Sizes::greatest_path_number, text::specs::memory::Numbers::numbers_at))]
fn path_at(text: &[u8], at: usize) -> Option<Read<Numbers>>
    requires { at ≤ length text.now }
    ensures read { Told 10 read_path (numbers_in text.now) text.now at result }
    ensures before { IfSome result (λ r. NumbersBefore r.value r.next) }
{
    let Some(start) = word_end(text, at, b"[") else {
        let value = Numbers { at, many: 0 };
        return Some(Read { value, next: at });
    };
    let numbers = numbers_at(text, start, 0, GREATEST_PATH_NUMBER)?;
    let next = word_end(text, numbers.next, b"]")?;
    let value = numbers.value;
    Some(Read { value, next })
}

// A formula's name, and a path in it.
#[tactic(auto, unfolding(grammar::specs::Derivation::read_position, grammar::specs::Derivation::read_formula_name, grammar::specs::Sizes::greatest_name))]
fn position_at(text: &[u8], at: usize) -> Option<Read<Position>>
    requires { at ≤ length text.now }
    ensures read { Told 10 read_position (position_in text.now) text.now at result }
    ensures before { IfSome result (λ r. NumbersBefore r.value.path r.next) }
{
    let name = ranged_at(text, at, 1, GREATEST_NAME)?;
    let path = path_at(text, name.next)?;
    let next = path.next;
    let value = Position {
        name: name.value,
        path: path.value,
    };
    Some(Read { value, next })
}

// The footer's names; a dash is none.
#[tactic(auto, using(text::proofs::Told::chain), unfolding(grammar::specs::Derivation::read_formula_name, grammar::specs::Sizes::greatest_name, text::specs::memory::Numbers::numbers_at))]
fn final_names_at(text: &[u8], at: usize) -> Option<Read<Numbers>>
    requires { at ≤ length text.now }
    ensures read { Told 10 read_final_names (numbers_in text.now) text.now at result }
    ensures before { IfSome result (λ r. NumbersBefore r.value r.next) }
{
    if let Some(next) = word_end(text, at, b"-") {
        let value = Numbers { at: next, many: 0 };
        return Some(Read { value, next });
    }
    numbers_at(text, at, 1, GREATEST_NAME)
}

// What follows the word of a rule line that ends with its position.
fn position_line_at(text: &[u8], at: usize, kind: AtPosition) -> Option<Read<Line>>
    requires { at ≤ length text.now }
    ensures read { Told 10 (at_position (make_of kind)) (line_in text.now) text.now at result }
    ensures after { IfSome result (λ r. (at < r.next) × LineBefore r.value r.next) }
{
    let position = position_at(text, at)?;
    let next = word_end(text, position.next, b"\n")?;
    let line = match kind {
        AtPosition::Rewrite(rule) => RuleLine::Rewrite(rule, position.value),
        AtPosition::Unsat => RuleLine::Unsat(position.value),
        AtPosition::Trivial => RuleLine::Trivial(position.value),
    };
    let value = Line::Step(line);
    Some(Read { value, next })
}

// What follows the word of a split.
#[tactic(auto, unfolding(grammar::specs::Derivation::read_split, grammar::specs::Derivation::read_formula_name, grammar::specs::Sizes::greatest_name))]
fn split_at(text: &[u8], at: usize) -> Option<Read<Line>>
    requires { at ≤ length text.now }
    ensures read { Told 10 read_split (line_in text.now) text.now at result }
    ensures after { IfSome result (λ r. (at < r.next) × LineBefore r.value r.next) }
{
    let position = position_at(text, at)?;
    let start = word_end(text, position.next, b" -> ")?;
    let names = numbers_at(text, start, 1, GREATEST_NAME)?;
    let next = word_end(text, names.next, b"\n")?;
    let value = Line::Step(RuleLine::Splitc(position.value, names.value));
    Some(Read { value, next })
}

// What follows the footer's word.
#[tactic(auto, unfolding(grammar::specs::Derivation::read_footer))]
fn footer_at(text: &[u8], at: usize) -> Option<Read<Line>>
    requires { at ≤ length text.now }
    ensures read { Told 10 read_footer (line_in text.now) text.now at result }
    ensures after { IfSome result (λ r. (at < r.next) × LineBefore r.value r.next) }
{
    let names = final_names_at(text, at)?;
    let next = word_end(text, names.next, b"\n")?;
    let value = Line::Footer(names.value);
    Some(Read { value, next })
}

// Each kind of a line, behind the word that tells it.
const KINDS: [(&[u8], Kind); 10] = [
    (b"SNAND @ ", Kind::At(AtPosition::Rewrite(Rule::Snand))),
    (b"SNOR @ ", Kind::At(AtPosition::Rewrite(Rule::Snor))),
    (b"STN @ ", Kind::At(AtPosition::Rewrite(Rule::Stn))),
    (b"EPRED @ ", Kind::At(AtPosition::Rewrite(Rule::Epred))),
    (b"EPROP @ ", Kind::At(AtPosition::Rewrite(Rule::Eprop))),
    (b"IQ @ ", Kind::At(AtPosition::Rewrite(Rule::Iq))),
    (b"UNSAT @ ", Kind::At(AtPosition::Unsat)),
    (b"TRIVIAL - ", Kind::At(AtPosition::Trivial)),
    (b"SPLITC ", Kind::Splitc),
    (b"FINAL IDS : ", Kind::Footer),
];

// The first of some kinds whose word stands at a place: told by the reader `one_of`. Signs of formulas are told by what they open; one function for
// both would need a law between the two, and its two callers besides, and be no plainer.
fn kind_among(text: &[u8], at: usize, kinds: &[(&[u8], Kind)]) -> Option<Read<Kind>>
    requires { at ≤ length text.now }
    ensures { Told 10 (one_of (map entry_of kinds.now) (refuse 10)) reader_of text.now at result }
{
    for (word, kind) in kinds {
        if let Some(next) = word_end(text, at, word) {
            return Some(Read { value: *kind, next });
        }
    }
    None
}

// The kind of a line.
#[tactic(auto, unfolding(crate::specs::memory::RuleLines::read_kind, grammar::specs::Derivation::line_kinds))]
fn kind_at(text: &[u8], at: usize) -> Option<Read<Kind>>
    requires { at ≤ length text.now }
    ensures { Told 10 read_kind reader_of text.now at result }
{
    kind_among(text, at, &KINDS)
}

// What follows the word of a line's kind: an enum of what was read, since a closure can't be handed out.
fn line_behind(text: &[u8], at: usize, kind: Kind) -> Option<Read<Line>>
    requires { at ≤ length text.now }
    ensures read { Told 10 (reader_of kind) (line_in text.now) text.now at result }
    ensures after { IfSome result (λ r. (at < r.next) × LineBefore r.value r.next) }
{
    match kind {
        Kind::At(kind) => position_line_at(text, at, kind),
        Kind::Splitc => split_at(text, at),
        Kind::Footer => footer_at(text, at),
    }
}

// The line that begins at a place.
pub fn line_at(text: &[u8], at: usize) -> Option<Read<Line>>
    requires { at ≤ length text.now }
    ensures read { Told 10 read_line (line_in text.now) text.now at result }
    ensures after { IfSome result (λ r. (at < r.next) × LineBefore r.value r.next) }
{
    let kind = kind_at(text, at)?;
    line_behind(text, kind.next, kind.value)
}

// The place after the heading's first line.
#[tactic(auto, unfolding(grammar::specs::Derivation::read_version))]
pub fn version_end(text: &[u8], at: usize) -> Option<usize>
    requires { at ≤ length text.now }
    ensures read { ToldEnd 10 read_version text.now at result }
    ensures after { IfSome result (λ next. at < next) }
{
    word_end(text, at, b"version=1\n")
}

// The place after a grounder's name.
fn grounder_name_end(text: &[u8], at: usize) -> Option<usize>
    requires { at ≤ length text.now }
    ensures { ToldEnd 10 (token 10 is_printable is_grounder) text.now at result }
{
    let end = run_end(text, at, Class::Printable);
    if end == at || GROUNDER_SIZE < end - at {
        return None;
    }
    Some(end)
}

// The place after the heading's second line.
#[tactic(auto, unfolding(grammar::specs::Derivation::read_grounder))]
pub fn grounder_end(text: &[u8], at: usize) -> Option<usize>
    requires { at ≤ length text.now }
    ensures read { ToldEnd 10 read_grounder text.now at result }
    ensures after { IfSome result (λ next. at < next) }
{
    let start = word_end(text, at, b"grounder=")?;
    let end = grounder_name_end(text, start)?;
    word_end(text, end, b"\n")
}
