// What an owner's walks fill.
ghost use Rattle.std.specs.Prelude.{◌<◌};

// Walks begin before the exits left and right and end at them; the first number of the block; whether it has the spans at which they end or
// those at which they do not.
#[derive(Clone, Copy)]
pub struct Target {
    pub first: usize,
    pub left: usize,
    pub right: usize,
    pub complement: bool,
    ghost left_bound: { left < 128 },
    ghost right_bound: { right < 128 },
}
