// The printing program of document 01: reads a house file from standard input, solves it with limit 10,000 and tolerance 1e-8, and prints the
// answer's lines. That a file's bytes make those lines is proved, also what is read and what a writer is given; that standard input and output are the
// reader and the writer that they stand for is compared by running.
#![tactic(auto)]

ghost use Rattle.std.specs.Prelude.{OnOk, Some, length};
ghost use Rattle.std.specs.Io.KnownBytes.{Appends};
ghost use Rattle.eml_solve.specs.Lines.{bits_text, assigned_lines, variable_lines, solved_lines, answer_lines};
ghost use Rattle.nra.specs.Answers.{answer_of};
ghost use Rattle.nra.specs.Calls.{solve_file};
ghost use Rattle.settings.specs.Settings.{usual};

use nra::Solved;
use std::io::Write;
use std::{fmt, io};

// An f64 as its bits, in hexadecimal digits.
#[derive(Clone, Copy)]
struct Bits(f64);

#[tactic(auto, using(crate::specs::HexLaws::padded_hex))]
impl fmt::Display for Bits {
    ghost output = { λ x. Some (bits_text x.0) };

    fn fmt<W: fmt::Write>(&self, f: &mut fmt::Formatter<W>) -> fmt::Result {
        let bits = number::bits_of(self.0);
        write!(f, "{bits:016X}")
    }
}

#[tactic(auto, unfolding(crate::specs::Lines::variable_lines))]
fn print_variables<W: Write>(out: &mut W, point: &[f64]) -> io::Result<()>
    ensures { OnOk result (Appends (W.contents out.old) (W.contents out.new) (variable_lines (length point.now) point.now)) }
{
    for (i, &x) in point.iter().enumerate() {
        let bits = Bits(x);
        writeln!(out, "v{i} {bits}")?;
    }
    Ok(())
}

// What stands before the variables of an assignment.
#[tactic(auto, unfolding(crate::specs::Lines::assigned_lines))]
fn print_assigned<W: Write>(out: &mut W, exact: bool, halvings: usize) -> io::Result<()>
    ensures { OnOk result (Appends (W.contents out.old) (W.contents out.new) (assigned_lines exact halvings)) }
{
    let exact = u8::from(exact);
    writeln!(out, "assignment\nexact {exact}\nhalvings {halvings}")
}

fn print_solved<W: Write>(out: &mut W, solved: Solved) -> io::Result<()>
    ensures { OnOk result (Appends (W.contents out.old) (W.contents out.new) (solved_lines (answer_of solved))) }
{
    match solved {
        Solved::Assignment {
            point,
            exact,
            halvings,
        } => {
            print_assigned(out, exact, halvings)?;
            print_variables(out, point.as_slice())
        }
        Solved::Failed {
            stop,
            residual,
            halvings,
        } => {
            let bits = Bits(residual);
            writeln!(out, "{stop}\nbest {bits}\nhalvings {halvings}")
        }
    }
}

const TOLERANCE: f64 = 1e-8;

// Solves a house file, and prints the answer.
fn print_answer<W: Write>(out: &mut W, file: &[u8]) -> io::Result<()>
    ensures { OnOk result (Appends (W.contents out.old) (W.contents out.new) (answer_lines (solve_file usual file.now 10_000 TOLERANCE 16))) }
{
    match nra::solve_file(file, 10_000, TOLERANCE, settings::usual(), 16) {
        Ok(solved) => print_solved(out, solved),
        Err(refusal) => writeln!(out, "{refusal}"),
    }
}

// Reads a byte more than the largest file has, so that no longer one is cut down to a legal length. A read that fails counts as the end of the file.
fn main(rt: HostRuntime) -> io::Result<()> {
    let mut bytes = [0u8; 22_817];
    let (n, _) = input::read_full(&mut rt.stdin(), &mut bytes);
    print_answer(&mut rt.stdout(), &bytes[..n])
}
