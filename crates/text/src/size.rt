// The statement's sizes, each by its name. Crates above take them from here; contracts have them by the names of specs/memory/Sizes.

// Bytes of a text, and numbers of working memory.
pub const TEXT_SIZE: usize = 65536;

pub const WORK_SIZE: usize = 16384;

// Elements of the domain.
pub const DOMAIN_SIZE: usize = 64;

pub const GREATEST_ELEMENT: u32 = DOMAIN_SIZE as u32;

// Predicates of a problem, terms of one, and bytes of a predicate's or a variable's name.
pub const PREDICATE_COUNT: usize = 32;

pub const LAST_PREDICATE: u32 = PREDICATE_COUNT as u32 - 1;

pub const GREATEST_ARITY: u32 = 3;

pub const NAME_SIZE: usize = 15;

// Tuples of all input predicates together.
pub const TUPLE_COUNT: u32 = 1024;

// Different variables of a theory.
pub const VARIABLE_COUNT: usize = 64;

pub const MOST_VARIABLES: u32 = VARIABLE_COUNT as u32;

// Levels of a formula.
pub const LEVEL_COUNT: usize = 32;

pub const MOST_LEVELS: u32 = LEVEL_COUNT as u32;

// Quantifiers on a path inside a guard.
pub const GUARD_QUANTIFIER_COUNT: u32 = 3;

// Live formulas, and their sizes together.
pub const FORMULA_COUNT: usize = 1024;

// A formula that is split counts no more.
pub const FORMULA_COUNT_WITH_SPLIT: usize = FORMULA_COUNT + 1;

pub const THEORY_SIZE: usize = 4096;

// Names of formulas, and numbers of a path.
pub const GREATEST_NAME: u32 = 65535;

pub const GREATEST_PATH_NUMBER: u32 = 4095;

// Bytes of a grounder's name.
pub const GROUNDER_SIZE: usize = 31;
