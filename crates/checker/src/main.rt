// The program: reads a job from standard input and writes its listing, or the line of its refusal, to standard output. Where a read fails
// it writes nothing: a day that was cut at the end of a line looks whole.
#![tactic(auto)]

ghost use Rattle.std.specs.Prelude.{◌≡◌, ◌≤◌, length, take};
ghost use Rattle.job.specs.JobComputed.{job_text};
ghost use Rattle.job.specs.JobMeaning.{Writes};
ghost use Rattle.std.specs.Io.KnownBytes.{Appends};
ghost use Rattle.checker.specs.Transfers.{Within, Taken, NoneAtEnd, LessAtEnd, Put};
ghost use Rattle.checker.specs.Runs.{Ran};

use listing::Line;
use std::io::{ErrorKind, Read, Write};
use verdict::Verdict;

// 01: "at most 2,809 bytes (what follows is unread and the job is what was read)".
const MOST_BYTES: usize = 2809;

// No text is longer: `text_most` in the job's proofs/Results.
const MOST_TEXT: usize = 328985;

fn main(rt: HostRuntime) {
    let _ = run(&mut rt.stdin(), &mut rt.stdout());
}

// Reads a job and writes the text that it comes to; answers how many bytes of the text were written, or nothing where the job could not be read.
fn run<R: Read, W: Write>(reader: &mut R, writer: &mut W) -> Option<usize>
    ensures { Ran (R.remaining reader.old) (R.remaining reader.new) (W.contents writer.old) (W.contents writer.new) result }
{
    let mut job = [0u8; MOST_BYTES];
    // Before what may return: else it is cleared twice.
    let mut out = [0u8; MOST_TEXT];
    let got = read_job(reader, &mut job)?;
    let n = answer(&job[..got], &mut out);
    Some(write_text(writer, &out[..n]))
}

// Reads until the buffer is full or the input ends, unless a read fails. It asks for no more than there is room for, so what follows stays unread.
fn read_job<R: Read>(reader: &mut R, job: &mut [u8]) -> Option<usize>
    ensures within { Within result job.new }
    ensures taken { Taken (R.remaining reader.old) (R.remaining reader.new) result job.new }
    ensures at_end { LessAtEnd (R.remaining reader.new) result job.new }
{
    let mut done = 0;
    while done < job.len() {
        let n = read_some(reader, &mut job[done..])?;
        if n == 0 {
            return Some(done);
        }
        done += n;
    }
    Some(done)
}

// One read, made again where a signal interrupted it. A proved loop has to end, and nothing says that the signals do: so it counts its turns,
// up to a number that no run reaches. Were it reached, that would be a failure, not the input's end.
// `write_some` is the same loop: one function with a closure would say of it, by the states of what the closure holds, what the traits' words
// `remaining` and `contents` say here of the reader and of the writer.
fn read_some<R: Read>(reader: &mut R, buf: &mut [u8]) -> Option<usize>
    ensures within { Within result buf.new }
    ensures taken { Taken (R.remaining reader.old) (R.remaining reader.new) result buf.new }
    ensures at_end { NoneAtEnd (R.remaining reader.new) result buf.new }
{
    for _ in 0..u64::MAX {
        match reader.read(buf) {
            Ok(n) => return Some(n),
            Err(e) => {
                if e.kind() != ErrorKind::Interrupted {
                    return None;
                }
            }
        }
    }
    None
}

// Writes the text to its end, unless a write fails or takes nothing; answers how many bytes were written. Each write says how far it came, so no
// range counts them, as in `read_job`.
fn write_text<W: Write>(writer: &mut W, text: &[u8]) -> usize
    ensures within { result ≤ length text.now }
    ensures put { Appends (W.contents writer.old) (W.contents writer.new) (take result text.now) }
{
    let mut done = 0;
    while done < text.len() {
        let Some(n) = write_some(writer, &text[done..]) else {
            return done;
        };
        if n == 0 {
            return done;
        }
        done += n;
    }
    done
}

// One write, made again as a read is.
fn write_some<W: Write>(writer: &mut W, text: &[u8]) -> Option<usize>
    ensures within { Within result text.now }
    ensures put { Put (W.contents writer.old) (W.contents writer.new) result text.now }
{
    for _ in 0..u64::MAX {
        match writer.write(text) {
            Ok(n) => return Some(n),
            Err(e) => {
                if e.kind() != ErrorKind::Interrupted {
                    return None;
                }
            }
        }
    }
    None
}

// Puts the whole text that a job comes to at the front of a buffer, and answers its length.
fn answer(job: &[u8], out: &mut [u8]) -> usize
    requires { 328985 ≤ length out.old }
    ensures value { (take result out.new ≡ job_text job.now) × (result ≤ length out.new) }
    ensures meaning { Writes job.now (take result out.new) }
{
    match job::run(job, out) {
        Ok(accepted) => accepted.n,
        Err(refusal) => {
            let told = Verdict::from(refusal);
            put_line(listing::refusal(told.number, told.place), out)
        }
    }
}

// Copies a line to the front of a buffer, and answers its length.
fn put_line(line: Line, out: &mut [u8]) -> usize
    requires { 44 ≤ length out.old }
    ensures { (result ≡ line.len) × (take result out.new ≡ take line.len line.bytes) }
{
    let shown = line.as_slice();
    out[..shown.len()].copy_from_slice(shown);
    shown.len()
}
