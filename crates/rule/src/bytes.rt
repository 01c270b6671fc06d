// The bytes of a rule text.
ghost use Rattle.std.specs.Prelude.{◌≡◌};
ghost use Rattle.event.specs.Leading.{first_other};
ghost use Rattle.expression.specs.Bytes.{is_leaf, is_start};
ghost use Rattle.rule.specs.RuleAnswer.{is_rule_byte};

// A leaf of one byte: `0`, `1`, `.` or a letter.
pub fn is_leaf(b: u8) -> bool
    ensures { result ≡ is_leaf b }
{
    matches!(b, b'0' | b'1' | b'.') || event::is_event(b)
}

// A byte with which an operand begins.
pub fn is_start(b: u8) -> bool
    ensures { result ≡ is_start b }
{
    matches!(b, b'!' | b'(' | b'[') || is_leaf(b)
}

// A byte that a rule text may have. Letters are told first, as most bytes are letters.
pub fn is_rule_byte(b: u8) -> bool
    ensures { result ≡ is_rule_byte b }
{
    event::is_event(b)
        || matches!(
            b,
            b'0' | b'1' | b'|' | b'&' | b'!' | b'*' | b'(' | b')' | b'[' | b']' | b'.'
        )
}

// The offset of the first byte that no rule text has, if there is one.
pub fn find_foreign(text: &[u8]) -> Option<usize>
    ensures { result ≡ first_other is_rule_byte text.now }
{
    text.iter().position(|b| !is_rule_byte(*b))
}
