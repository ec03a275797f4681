// Reads a table from standard input and prints its node counts before and after trimming, the labels that can ever be
// reached, and the number of rounds; or the refusal.
#![tactic(auto)]

ghost use Rattle.std.specs.Prelude.{◌≤◌, length, IfOk};

use std::io::Read;
use std::{fmt, io};
use table::Refusal;

// The bytes of the longest table.
const LONGEST: usize = 1282;

// What is reported of a table: its nodes before and after trimming, R, and the number of rounds.
#[derive(Clone, Copy)]
struct Report {
    before: u16,
    after: u16,
    set: u64,
    rounds: u32,
}

impl fmt::Display for Report {
    fn fmt<W: fmt::Write>(&self, f: &mut fmt::Formatter<W>) -> fmt::Result {
        writeln!(f, "nodes {} {}", self.before, self.after)?;
        write!(f, "labels")?;
        for label in sets::each(self.set) {
            write!(f, " {label}")?;
        }
        writeln!(f)?;
        write!(f, "rounds {}", self.rounds)
    }
}

// The report of a table. Reach gives check's refusals. After that trim has only 12 to give, since there is room for the longest table.
fn report_of(table: &[u8]) -> Result<Report, Refusal> {
    let reached = reach::reach(table)?;
    let mut out = [0u8; LONGEST];
    let written = trim::trim(table, &mut out)?;
    Ok(Report {
        before: table::count_in(table),
        after: written.nodes,
        set: reached.set,
        rounds: reached.rounds,
    })
}

// Reads until the buffer is full or the input ends, and gives how many bytes were read. Not the library's `read_to_end`: it fills a
// vector, and so rests on three more functions of C.
fn read_full(rt: &impl Input, buffer: &mut [u8]) -> io::Result<usize>
    ensures { IfOk result (λ count. count ≤ length buffer.new) }
{
    let mut reader = rt.reader();
    let mut done = 0;
    while done < buffer.len() {
        let count = reader.read(&mut buffer[done..])?;
        if count == 0 {
            break;
        }
        done += count;
    }
    Ok(done)
}

fn main(rt: HostRuntime) -> io::Result<()> {
    // One byte more than the longest table: check refuses it as it would refuse any more.
    let mut input = [0u8; LONGEST + 1];
    let length = read_full(&rt, &mut input)?;
    match report_of(&input[..length]) {
        Ok(report) => println!(rt; "{report}"),
        Err(refusal) => println!(rt; "refused {}", u32::from(refusal)),
    }
}
