// Why a call is refused.
ghost use Rattle.std.specs.Prelude.{◌≡◌, Some};
ghost use Rattle.record.specs.Refused.{number_of, text_of};

use std::error::Error;
use std::fmt;

// Document 01's, 1 to 10, and document 02's.
#[derive(Clone, Copy, Debug, PartialEq, Eq)]
pub enum Refusal {
    // under 32 bytes, or wrong first eight
    Header = 1,
    // counts, offsets or length
    Counts,
    // a node's record, or a number that names no node
    Node,
    // the expanded size or the depth of a tree
    Size,
    // a constraint's record, or too few finished constraints
    Constraint,
    // an unsound range in a record or a bound
    Range,
    // a constraint's depth, its quantifiers, or not just one left
    Shape,
    // the limit, or a NaN tolerance
    Limit,
    // over 16 boxes or variables, or an unsound box or range
    Boxes,
    // too short a slice or list to write to
    Room,
    // a parameter of the settings outside its range
    Parameter = 14,
}

impl From<Refusal> for u8 {
    ghost from_gives = { λ r n. n ≡ number_of r };

    fn from(r: Refusal) -> u8 {
        r as u8
    }
}

impl fmt::Display for Refusal {
    ghost output = { λ r. Some (text_of r) };

    fn fmt<W: fmt::Write>(&self, f: &mut fmt::Formatter<W>) -> fmt::Result {
        let number = u8::from(*self);
        write!(f, "refused {number}")
    }
}

impl Error for Refusal {}
