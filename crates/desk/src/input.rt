// The four texts of a job: each was read, or the first of the files that was not is named.
ghost use Rattle.std.specs.Prelude.{◌≡◌, is_some, IfErr, IfOk, Some};
ghost use Rattle.desk.specs.Unread.{first_unread, number};

// The files of a job.
#[derive(Clone, Copy)]
pub enum File {
    Problem = 1,
    Theory,
    Derivation,
    Claim,
}

impl File {
    // The number that is printed of it. A method and no `From`: `file.number()` says what the number is.
    pub fn number(self) -> u8
        ensures { result ≡ number self }
    {
        self as u8
    }
}

// All four, with a claim: the job's own texts are private, and may have none.
#[derive(Clone, Copy)]
pub struct Texts<'a> {
    pub problem: &'a [u8],
    pub theory: &'a [u8],
    pub derivation: &'a [u8],
    pub claim: &'a [u8],
}

impl<'a> Texts<'a> {
    // The texts, where all four were read; otherwise the first file that was not.
    pub fn all(
        problem: Option<&'a [u8]>,
        theory: Option<&'a [u8]>,
        derivation: Option<&'a [u8]>,
        claim: Option<&'a [u8]>,
    ) -> Result<Texts<'a>, File>
        ensures read { IfOk result (λ texts. (problem.entry ≡ Some texts.problem) × (theory.entry ≡ Some texts.theory) × (derivation.entry ≡ Some texts.derivation) × (claim.entry ≡ Some texts.claim)) }
        ensures unread { IfErr result (λ file. number file ≡ first_unread (is_some problem.entry) (is_some theory.entry) (is_some derivation.entry) (is_some claim.entry)) }
    {
        Ok(Texts {
            problem: problem.ok_or(File::Problem)?,
            theory: theory.ok_or(File::Theory)?,
            derivation: derivation.ok_or(File::Derivation)?,
            claim: claim.ok_or(File::Claim)?,
        })
    }
}
