// The work of a rule's walks: what has been counted, and how much may be.
ghost use Rattle.std.specs.Prelude.{◌≡◌, ◌+◌, ◌<◌, ◌≤◌, IfSome, IfNone};

// The places that were counted, and the most that may be.
#[derive(Clone, Copy)]
pub struct Work {
    pub count: u64,
    pub limit: u64,
    ghost within: { count ≤ limit },
}

impl Work {
    // Nothing counted yet.
    pub fn new(limit: u64) -> Work
        ensures count { result.count ≡ 0 }
        ensures limit { result.limit ≡ limit }
    {
        Work { count: 0, limit }
    }

    // The work with so many places more, unless they pass the limit.
    pub fn add(self, places: u64) -> Option<Work>
        ensures counted { IfSome result (λ w. (w.count ≡ self.count + places) × (w.limit ≡ self.limit)) }
        ensures spent { IfNone result (self.limit < self.count + places) }
    {
        if self.limit - self.count < places {
            return None;
        }
        Some(Work {
            count: self.count + places,
            limit: self.limit,
        })
    }
}
