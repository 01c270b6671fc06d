// Events: the one test of the alphabet; sets of letters; and what the readers of texts share.
#![tactic(auto)]

pub mod sets;
pub mod text;

ghost use Rattle.std.specs.Prelude.{◌≡◌};
ghost use Rattle.event.specs.Event.{is_event};

// Whether a byte is an event.
#[tactic(auto, unfolding(crate::specs::Event::is_event))]
pub fn is_event(b: u8) -> bool
    ensures { result ≡ is_event b }
{
    matches!(b, b'A'..=b'Z' | b'a'..=b'z')
}
