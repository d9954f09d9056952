// `sfrlist`: what an SFRI file holds, in numbers.
//
// It takes the file on standard input, at most 65,536 bytes (more is answer 10, before all else), reads it at
// the width that its bytes 5 to 8 give (1 where they are missing) into stores of 16,384 words, and prints the
// read's answer and, where that is 0, the width and the counts of wires, publics, queries and equations. The
// reading is the strict one, `decoding::strict_instance_from_bytes_at`, in which 46 follows 27: has the file wires, and
// does it list wire 0 with value 0? What is here only fetches and prints.

#![tactic(auto)]

ghost use Rattle.std.specs.Prelude.{◌≤◌, IfOk, length};

use decoding::InstanceRead;
use instance::PermutationInstance;
use limits::Refused;
use narg::Cursor;
use std::io;
use std::io::Read;

// The longest file, and one byte more, so that a longer one is noticed.
const LONGEST: usize = 65536;

const BUFFER: usize = 65537;

// The words of each store.
const ROOM: usize = 16384;

// A number in 12 columns, a space and the word.
fn line(rt: &impl Print, n: u32, word: &str) -> io::Result<()> {
    println!(rt; "{n:>12} {word}")
}

// The width that the file names, or 1 where it has too few bytes.
fn width_of(file: &[u8]) -> u32 {
    narg::read_u32(file, Cursor { at: 5 }).map_or(1, |(width, _)| width)
}

// A line for each count of the record.
fn print_counts(rt: &impl Print, ins: &PermutationInstance) -> io::Result<()> {
    line(rt, ins.width, "width")?;
    line(rt, ins.vars, "wires")?;
    line(rt, ins.publics, "public")?;
    line(rt, ins.queries, "queries")?;
    line(rt, ins.equations, "equations")
}

// The answer, and after a yes the counts.
fn print_read(rt: &impl Print, read: Result<InstanceRead, Refused>) -> io::Result<()> {
    line(rt, limits::number(&read), "answer")?;
    match read {
        Ok(read) => print_counts(rt, &read.instance),
        Err(_) => Ok(()),
    }
}

// Reads until the buffer is full or the input ends; answers how many bytes stand at its front. (replay has it too: a crate
// for a loop of two programs would be no plainer.)
fn read_full<R: Read>(from: &mut R, buffer: &mut [u8]) -> io::Result<usize>
    ensures { IfOk result (λ n. n ≤ length buffer.new) }
{
    // By hand: each turn goes on by as many bytes as the read gave, which is known only then.
    let mut done = 0;
    while done < buffer.len() {
        let n = from.read(&mut buffer[done..])?;
        if n == 0 {
            break;
        }
        done += n;
    }
    Ok(done)
}

// The strict read of a file that is not too long.
fn read_file(
    file: &[u8],
    publics: &mut [u32],
    queries: &mut [u32],
    equations: &mut [u32],
    scratch: &mut [u32],
) -> Result<InstanceRead, Refused> {
    limits::ask(10, file.len() <= LONGEST)?;
    decoding::strict_instance_from_bytes_at(
        width_of(file),
        file,
        publics,
        queries,
        equations,
        scratch,
    )
}

// Reads the file and lists it.
fn main(rt: HostRuntime) -> io::Result<()> {
    let mut buffer = [0; BUFFER];
    let n = read_full(&mut rt.reader(), &mut buffer)?;
    let read = read_file(
        &buffer[..n],
        &mut [0; ROOM],
        &mut [0; ROOM],
        &mut [0; ROOM],
        &mut [0; ROOM],
    );
    print_read(&rt, read)
}
