// What the desk sees: 0 with the counts of rule lines and final formulas, or a refusal with its number, file and line. Five numbers, since the
// promises of the public jobs name each.
#[derive(Clone, Copy)]
pub struct Answer {
    pub number: u32,
    pub file: u32,
    pub line: u32,
    pub rules: u32,
    pub formulas: u32,
}
