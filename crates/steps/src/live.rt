// The live formulas in working memory, and where its parts begin.

// How many formulas there are, how many words they have, the greatest name used, and whether UNSAT was.
#[derive(Clone, Copy)]
pub struct Live {
    pub count: usize,
    pub full: usize,
    pub top: u32,
    pub ended: bool,
}

// The theory's words stand at the front; then come the next theory's words, the problem's rows and the names. The next names stand `spare` behind the names.
#[derive(Clone, Copy)]
pub struct Layout {
    pub next: usize,
    pub rows: usize,
    pub names: usize,
    pub spare: usize,
}
