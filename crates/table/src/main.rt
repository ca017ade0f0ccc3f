// Replays the examples of document 01 that are not starred, and answers of the reference: reads the cases from standard input, and prints how many
// came out the same. A case is 176 bytes of what was asked and answered, then the file; reference/src/replay.rs writes them.
#![tactic(auto)]

ghost use Rattle.std.specs.Prelude.{◌≤◌};

use interval::Point;
use narrow::PropResult;
use nra::Solved;
use record::Refusal;
use std::io::Read;
use std::{fmt, io};

// Byte 5 has the refusal, 6 the stop word's number, 7 the exactness; then the residual's bits, the halvings, the count of values and 16 places for
// them. What an answer does not have is 0.
fn is_same(solved: &Solved, head: &[u8; 176]) -> bool {
    let (exact, residual, halvings, point) = match *solved {
        Solved::Assignment {
            point,
            exact,
            halvings,
        } => (exact, 0.0, halvings, point),
        Solved::Failed {
            residual,
            halvings,
            ..
        } => (
            false,
            residual,
            halvings,
            Point::zeros(interval::Count { n: 0 }),
        ),
    };
    let short = (head[5] == 0) & (head[6] == solved.stop_number()) & ((head[7] == 1) == exact);
    let long = (record::read_u64(head, 24) == number::bits_of(residual))
        & (record::read_u64(head, 32) == halvings as u64)
        & (record::read_u64(head, 40) == point.count.n as u64);
    let places = head[48..].chunks_exact(8);
    let is_same_point = point.values.iter().zip(places).all(|(x, place)| place
        == number::bits_of(*x).to_le_bytes().as_slice());
    short & long & is_same_point
}

// Reads the file, and solves it. Byte 8 has the limit, 16 the tolerance. A refusal is its number only: the stop word is
// then unsatisfied's, no point exact, and the rest 0.
fn replays<R: Read>(reader: &mut R, file: &mut [u8], head: &[u8; 176]) -> bool {
    let (got, _) = input::read_full(reader, file);
    let limit = record::read_u64(head, 8) as usize;
    let tolerance = record::read_f64(head, 16);
    match nra::solve_file(&file[..got], limit, tolerance, settings::usual(), 16) {
        Ok(solved) => is_same(&solved, head),
        Err(refusal) => {
            let stop = (head[6] == nra::Stop::Unsatisfied as u8) & (head[7] != 1);
            (head[5] == u8::from(refusal)) & stop & head[24..].iter().all(|b| *b == 0)
        }
    }
}

// Whether an example or an answer came out the same.
#[derive(Clone, Copy)]
enum Case {
    Example(bool),
    Answer(bool),
}

// None at the end of the input. Byte 0 has the file's length, 4 is 0 for an example.
fn next_case<R: Read>(reader: &mut R, file: &mut [u8]) -> Option<Case> {
    let mut head = [0u8; 176];
    let (got, _) = input::read_full(reader, &mut head);
    let n = record::read_u32(&head, 0) as usize;
    if (got < 176) | (file.len() < n) {
        return None;
    }
    let same = replays(reader, &mut file[..n], &head);
    if head[4] == 0 {
        return Some(Case::Example(same));
    }
    Some(Case::Answer(same))
}

#[derive(Clone, Copy, Default)]
struct Count {
    same: u64,
    of: u64,
}

impl Count {
    fn add(&mut self, same: bool) {
        self.same = self.same.wrapping_add(u64::from(same));
        self.of = self.of.wrapping_add(1);
    }
}

impl fmt::Display for Count {
    fn fmt<W: fmt::Write>(&self, f: &mut fmt::Formatter<W>) -> fmt::Result {
        write!(f, "{} of {} the same", self.same, self.of)
    }
}

#[derive(Clone, Copy, Default)]
struct Counts {
    examples: Count,
    answers: Count,
}

impl Counts {
    fn add(&mut self, case: Case) {
        match case {
            Case::Example(same) => self.examples.add(same),
            Case::Answer(same) => self.answers.add(same),
        }
    }
}

// At most 10,000 cases, so that the loop ends.
fn replay_all<R: Read>(reader: &mut R, file: &mut [u8]) -> Counts {
    let mut counts = Counts::default();
    for _ in 0..10_000 {
        let Some(case) = next_case(reader, file) else {
            break;
        };
        counts.add(case);
    }
    counts
}

// GtZero of Var 0 in N boxes.
fn narrowed<const N: usize>() -> Result<PropResult, Refusal>
    requires { N ≤ 17 }
{
    let mut node = [0u8; 16];
    node[0] = 2;
    let mut record = [0u8; 24];
    record[0] = 1;
    narrow::propagate_given(
        &node,
        &record,
        settings::usual(),
        &mut [1.0; N],
        &mut [3.0; N],
    )
}

fn main(rt: HostRuntime) -> io::Result<()> {
    let mut counts = replay_all(&mut rt.stdin(), &mut [0u8; 22_816]);
    counts.examples.add(narrowed::<16>().is_ok());
    counts.examples.add(narrowed::<17>() == Err(Refusal::Boxes));
    println!(rt; "examples: {}", counts.examples)?;
    println!(rt; "answers of the reference: {}", counts.answers)
}
