// Runs a stream of cases from standard input through the public calls, the two readers and the judge, and through the writer of numbers, and
// prints the answers.
// second/README.md says how cases and answers are written.
#![tactic(auto)]

mod cases;
mod judgements;
mod numbers;
mod output;
mod show;

ghost use Rattle.std.specs.Prelude.{◌≤◌, length};

use std::io::Read;

// No stream of cases is longer: what follows is unread.
const MOST_BYTES: usize = 65536;

fn main(rt: HostRuntime) {
    let mut space = [0u8; MOST_BYTES];
    let got = read_full(&mut rt.stdin(), &mut space);
    cases::answer_all(&mut rt.stdout(), &space[..got]);
}

// Reads until the buffer is full, or the input ends or fails; answers how many bytes were read. Each read says how far it came, so
// no range counts them.
fn read_full<R: Read>(reader: &mut R, buf: &mut [u8]) -> usize
    ensures { result ≤ length buf.new }
{
    let mut done = 0;
    while done < buf.len() {
        match reader.read(&mut buf[done..]) {
            Ok(0) => return done,
            Ok(n) => done += n,
            Err(_) => return done,
        }
    }
    done
}
