// The bytes of a word.
ghost use Rattle.std.specs.Prelude.{◌≡◌};
ghost use Rattle.event.specs.Event.{is_event};
ghost use Rattle.event.specs.Leading.{first_other};

// The place of the first byte that is no event.
pub fn find_foreign(word: &[u8]) -> Option<usize>
    ensures { result ≡ first_other is_event word.now }
{
    word.iter().position(|byte| !event::is_event(*byte))
}
