// The scan: whether a text is a sentence, with its numbers of nodes, or where it breaks off.
ghost use Rattle.std.specs.Prelude.{◌≡◌, ◌≤◌, length};
ghost use Rattle.expression.specs.Scan.{to, step_after, step_before, step_opened, step_letters, step_of, finish, scanned};
ghost use Rattle.rule.specs.Reader.{Few};

use crate::bytes::is_leaf;
use event::is_event;
use expression::{ScanState, Size, Stage};

// Scans a text, byte after byte: its numbers of nodes, or the place where it breaks off.
pub fn scan(text: &[u8]) -> Result<Size, usize>
    requires { length text.now ≤ 255 }
    ensures { result ≡ scanned text.now }
{
    let mut q = ScanState {
        depth: 0,
        stage: Stage::Operand,
        nodes: 0,
        specials: 0,
    };
    for (i, b) in text.iter().enumerate() {
        q = step(q, *b).ok_or(i)?;
    }
    finish(q, text.len())
}

// What the scan finds at the end of a text of i bytes.
fn finish(q: ScanState, i: usize) -> Result<Size, usize>
    ensures { result ≡ finish i q }
{
    if q.stage == Stage::Ended && q.depth == 0 {
        Ok(Size {
            m: q.nodes,
            k: q.specials,
        })
    } else {
        Err(i)
    }
}

// One byte's step: the next state, or none where no sentence begins so. That the numbers of a state are small is asked, and not kept in its
// type: the definitions of the scan speak of every state.
fn step(q: ScanState, b: u8) -> Option<ScanState>
    requires { Few q }
    ensures { result ≡ step_of q b }
{
    match q.stage {
        Stage::Operand => step_before(q, b),
        Stage::Ended => step_after(q, b),
        Stage::Opened => step_opened(q, b),
        Stage::Letters => step_letters(q, b),
    }
}

// The step after an operand.
fn step_after(q: ScanState, b: u8) -> Option<ScanState>
    requires { Few q }
    ensures { result ≡ step_after q.depth q.nodes q.specials b }
{
    let ScanState {
        depth,
        nodes,
        specials,
        ..
    } = q;
    match b {
        b'*' => next(depth, Stage::Ended, nodes + 1, specials),
        b'|' => next(depth, Stage::Operand, nodes + 1, specials),
        b'&' => next(depth, Stage::Operand, nodes + 1, specials + 1),
        b')' if depth == 0 => None,
        b')' => next(depth - 1, Stage::Ended, nodes, specials),
        b'!' => next(depth, Stage::Operand, nodes + 2, specials + 1),
        b'(' => next(depth + 1, Stage::Operand, nodes + 1, specials),
        b'[' => next(depth, Stage::Opened, nodes + 2, specials),
        _ if is_leaf(b) => next(depth, Stage::Ended, nodes + 2, specials),
        _ => None,
    }
}

// The step where an operand is expected.
fn step_before(q: ScanState, b: u8) -> Option<ScanState>
    requires { Few q }
    ensures { result ≡ step_before q.depth q.nodes q.specials b }
{
    let ScanState {
        depth,
        nodes,
        specials,
        ..
    } = q;
    match b {
        b'!' => next(depth, Stage::Operand, nodes + 1, specials + 1),
        b'(' => next(depth + 1, Stage::Operand, nodes, specials),
        b'[' => next(depth, Stage::Opened, nodes + 1, specials),
        _ if is_leaf(b) => next(depth, Stage::Ended, nodes + 1, specials),
        _ => None,
    }
}

// The step inside brackets, where a letter is expected.
fn step_opened(q: ScanState, b: u8) -> Option<ScanState>
    ensures { result ≡ step_opened q.depth q.nodes q.specials b }
{
    is_event(b).then_some(ScanState {
        stage: Stage::Letters,
        ..q
    })
}

// The step inside brackets after a letter.
fn step_letters(q: ScanState, b: u8) -> Option<ScanState>
    ensures { result ≡ step_letters q.depth q.nodes q.specials b }
{
    if b == b']' {
        Some(ScanState {
            stage: Stage::Ended,
            ..q
        })
    } else {
        step_opened(q, b)
    }
}

// A next state.
fn next(depth: usize, stage: Stage, nodes: usize, specials: usize) -> Option<ScanState>
    ensures { result ≡ to depth stage nodes specials }
{
    Some(ScanState {
        depth,
        stage,
        nodes,
        specials,
    })
}
