// Whether a predicate is one of the problem's.
ghost use Rattle.std.specs.Prelude.{◌≡◌};
ghost use Rattle.grammar.specs.Problem.{predicates, declared, is_input};
ghost use Rattle.terms.specs.memory.Signature.{signature_of};

use table::table::Table;

// Whether there is a predicate of a name and an arity. A table has places in its problem's text and not the text: it is made while that is read,
// and handed on without it.
pub fn is_declared(problem: &[u8], table: &Table, name: &[u8], arity: usize) -> bool
    ensures { result ≡ declared (predicates (signature_of problem.now table.now)) name.now arity }
{
    (0..table.inputs.max(table.count)).any(|i| {
        table.is_named(problem, i, name) && table.predicate(i).arity as usize == arity
    })
}

// Whether there is an input predicate of a name.
pub fn is_input(problem: &[u8], table: &Table, name: &[u8]) -> bool
    ensures { result ≡ is_input (signature_of problem.now table.now) name.now }
{
    (0..table.inputs).any(|i| table.is_named(problem, i, name))
}
