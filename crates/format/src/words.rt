// The answers of the calls, each as one number.
ghost use Rattle.std.specs.Prelude.{◌≡◌};
ghost use Rattle.protocol.specs.Answers.{word};
ghost use Rattle.format.specs.Verdict.{answer_of};

use super::Verdict;

// What the schools' server receives: number × 65,536 + place, 0 for accepted.
impl From<Verdict> for u32 {
    ghost from_gives = { λ verdict n. n ≡ word (answer_of verdict) };

    fn from(verdict: Verdict) -> u32 {
        match verdict {
            Verdict::Accepted => 0,
            Verdict::Refused(refusal) => {
                let reason = refusal.number;
                u32::from(reason) * 65536 + u32::from(refusal.place)
            }
        }
    }
}
