// What a theory is read in: its text, the problem with its table, and the variables bound around.
ghost use Rattle.text.specs.memory.Sizes.{ShortText, FewElements, FewPredicates};

use crate::binding::Scope;
use table::table::Table;
use text::name::Name;

#[derive(Clone, Copy)]
pub struct Setting<'a> {
    pub text: &'a [u8],
    pub problem: &'a [u8],
    pub table: &'a Table,
    pub scope: Scope,
    ghost short: { ShortText text.now },
    ghost elements: { FewElements table.now.domain },
    ghost predicates: { FewPredicates table.now.count },
}

impl<'a> Setting<'a> {
    ghost use Rattle.std.specs.Prelude.{◌<◌};
    ghost use Rattle.terms.specs.memory.Entries.{Outermost, BindsIn};

    // With no variable bound.
    pub fn new(text: &'a [u8], problem: &'a [u8], table: &'a Table) -> Setting<'a>
        requires { ShortText text.now × FewElements table.now.domain × FewPredicates table.now.count }
        ensures { Outermost text.now problem.now table.now result }
    {
        Setting {
            text,
            problem,
            table,
            scope: Scope::new(),
        }
    }

    // The same, with one variable more.
    pub fn binding(&self, name: Name) -> Setting<'a>
        requires { self.now.scope.count < 32 }
        ensures { BindsIn self.now name result }
    {
        let mut more = *self;
        more.scope = self.scope.with(name);
        more
    }
}
