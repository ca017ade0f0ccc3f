// What a solve answers.
ghost use Rattle.std.specs.Prelude.{◌≡◌, Some};
ghost use Rattle.nra.specs.Words.{word_of};

use interval::Point;
use std::fmt;

// Document 01's stop words other than "assignment", in the order of their numbers.
#[derive(Clone, Copy, Debug, PartialEq, Eq)]
pub enum Stop {
    Conflict = 1,
    Tolerance,
    Limit,
    Unsatisfied,
}

impl fmt::Display for Stop {
    ghost output = { λ s. Some (word_of s) };

    fn fmt<W: fmt::Write>(&self, f: &mut fmt::Formatter<W>) -> fmt::Result {
        match self {
            Stop::Conflict => write!(f, "conflict"),
            Stop::Tolerance => write!(f, "tolerance"),
            Stop::Limit => write!(f, "limit"),
            Stop::Unsatisfied => write!(f, "unsatisfied"),
        }
    }
}

// Both carry the count of halvings. An assignment has its point and exactness, any other answer its residual. (No `Result`: every stop word is
// an answer.)
#[derive(Clone, Copy)]
pub enum Solved {
    Assignment {
        point: Point,
        exact: bool,
        halvings: usize,
    },
    Failed {
        stop: Stop,
        residual: f64,
        halvings: usize,
    },
}

impl Solved {
    ghost use Rattle.nra.specs.Answers.{answer_of, stop_number};
    ghost use Rattle.nra.specs.Solver.{untried};

    // The stop word by its number. (No `From`: the number is of a part.)
    pub fn stop_number(&self) -> u8
        ensures { result ≡ stop_number (answer_of self.now) }
    {
        match self {
            Solved::Assignment { .. } => 0,
            Solved::Failed { stop, .. } => *stop as u8,
        }
    }

    // Under limit 0 no point is exact.
    #[tactic(auto, unfolding(crate::specs::Solver::untried))]
    pub fn untried(self) -> Solved
        ensures { answer_of result ≡ untried 1 (answer_of self) }
    {
        match self {
            Solved::Assignment {
                point,
                exact: _,
                halvings,
            } => Solved::Assignment {
                point,
                exact: false,
                halvings,
            },
            Solved::Failed { .. } => self,
        }
    }
}
