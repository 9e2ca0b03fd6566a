// The reader of 01: it holds the lent proof and how far it has read, and takes one section at a time.
ghost use Rattle.std.specs.Prelude.{◌≡◌, [], ◌∷◌, length, IfOk};
ghost use Rattle.protocol.specs.Frames.{framed};
ghost use Rattle.protocol.specs.Answers.{question, ask};
ghost use Rattle.format.specs.Verdict.{told};
ghost use Rattle.sections.specs.Moved.{Stepped, Gives, Takes, SectionsOf};

use super::{Span, find, section};
use format::{Reason, Refusal, ask, refuse};

// The lent proof and how far it has been read.
#[derive(Clone, Copy)]
pub struct Reader<'a> {
    pub proof: &'a [u8],
    pub at: usize,
}

// Where the section at an index starts and ends; the refusal 12, place 0, where it is not there whole.
pub fn step_at(proof: &[u8], at: usize) -> Result<(usize, usize), Refusal>
    ensures { Stepped proof.now at result }
{
    let Span::At { start, end } = find(proof, at) else {
        return Err(refuse(Reason::ProofLength, 0));
    };
    Ok((start, end))
}

impl<'a> Reader<'a> {
    // The next section, and the reader moves past it; or the refusal 12, place 0, and the reader stays as it was.
    pub fn next_section(&mut self) -> Result<&'a [u8], Refusal>
        ensures { Gives self.old self.new result }
    {
        let (start, end) = step_at(self.proof, self.at)?;
        self.at = end;
        Ok(section(self.proof, start, end))
    }

    // The next section, which must have this length.
    fn next_of(&mut self, length: usize) -> Result<&'a [u8], Refusal>
        ensures { Takes length self.old self.new result }
    {
        let section = self.next_section()?;
        ask(section.len() == length, Reason::ProofLength)?;
        Ok(section)
    }
}

// The lent proof, and its six sections, each as part of it.
#[derive(Clone, Copy)]
pub struct Proof<'a> {
    pub bytes: &'a [u8],
    pub c: &'a [u8],
    pub d: &'a [u8],
    pub u: &'a [u8],
    pub v: &'a [u8],
    pub qs0: &'a [u8],
    pub qs1: &'a [u8],
}

// Question 12, as 01's reader goes: the six sections one after the other, each from where the reader stands. It leaves
// with the reader's own refusal, and reads no further.
pub fn read_sections<'a>(proof: &'a [u8], lengths: &[usize; 6]) -> Result<Proof<'a>, Refusal>
    ensures told { told result ≡ ask (question (framed lengths.now proof.now) 12 0 ∷ []) }
    ensures sections { IfOk result (λ p. (p.bytes.now ≡ proof.now) × SectionsOf lengths.now p) }
{
    let mut reader = Reader { proof, at: 0 };
    let c = reader.next_of(lengths[0])?;
    let d = reader.next_of(lengths[1])?;
    let u = reader.next_of(lengths[2])?;
    let v = reader.next_of(lengths[3])?;
    let qs0 = reader.next_of(lengths[4])?;
    let qs1 = reader.next_of(lengths[5])?;
    ask(reader.at == proof.len(), Reason::ProofLength)?;
    Ok(Proof {
        bytes: proof,
        c,
        d,
        u,
        v,
        qs0,
        qs1,
    })
}
