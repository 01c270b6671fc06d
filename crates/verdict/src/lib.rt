// What every answer carries, whichever call gives it.
#![tactic(auto)]

ghost use Rattle.std.specs.Prelude.{◌≡◌, MatchResult};
ghost use Rattle.verdict.specs.Verdicts.{refused, accepted};

// Document 01's number, 0 if accepted, and place, found and count.
#[derive(Clone, Copy, PartialEq, Eq)]
pub struct Verdict {
    pub number: u64,
    pub place: u64,
    pub found: u64,
    pub count: u64,
}

// What is answered where nothing refuses: how many spans obey, and the work count.
#[derive(Clone, Copy, PartialEq, Eq)]
pub struct Judged {
    pub found: u64,
    pub count: u64,
}

impl Verdict {
    // A refusal, with nothing found and nothing counted.
    pub fn refusal(number: u64, place: u64) -> Verdict
        ensures { result ≡ refused number place }
    {
        Verdict {
            number,
            place,
            found: 0,
            count: 0,
        }
    }

    // An acceptance.
    pub fn acceptance(found: u64, count: u64) -> Verdict
        ensures { result ≡ accepted found count }
    {
        Verdict {
            number: 0,
            place: 0,
            found,
            count,
        }
    }
}

// What was found and counted, or what the refusal says.
impl<E: Into<Verdict>> From<Result<Judged, E>> for Verdict {
    ghost from_gives = { λ answer verdict. MatchResult answer
        (λ judged. verdict ≡ accepted judged.found judged.count)
        (λ refusal. E.converts refusal verdict) };

    fn from(answer: Result<Judged, E>) -> Verdict {
        match answer {
            Ok(judged) => Verdict::acceptance(judged.found, judged.count),
            Err(refusal) => refusal.into(),
        }
    }
}
