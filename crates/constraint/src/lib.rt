// Constraints (constraint.rs) as records in postorder (document 01, "The file"): what a record says, its tests and its writing, and the comparisons.
#![tactic(auto)]

mod records;
mod shape;
mod stack;

ghost use Rattle.std.specs.Prelude.{◌≡◌, ◌+◌, ◌*◌, ◌^◌, ◌≤◌, ◌<◌, [], ◌∷◌, Ok, Err, length};
ghost use Rattle.std.specs.Float.{binary64};
ghost use Rattle.std.specs.Float.Ieee.{to_bits};
ghost use Rattle.record.specs.Leaving.{◌leaving◌};
ghost use Rattle.record.specs.Refused.{numbered};
ghost use Rattle.record.specs.Views.{old, final};
ghost use Rattle.constraint.specs.Records.{record_at, is_record, is_ranged, takes};
ghost use Rattle.constraint.specs.Encoding.{record_bytes};
ghost use Rattle.constraint.specs.Comparison.{compared};
ghost use Rattle.constraint.specs.Code.{kind_number, binds, Writable, Puts, words_bytes};

use record::Refusal;
pub use records::{Records, test_records};
pub use shape::{EmlConstraint, Operands, Shape};

// How an atom compares its tree's value with zero, in the order of document 01's kinds, 0 to 5.
#[derive(Clone, Copy)]
pub enum Relation {
    EqZero,
    GtZero,
    GeZero,
    LtZero,
    LeZero,
    NeZero,
}

#[tactic(auto, unfolding(crate::specs::Records::relation_of, number::specs::Computing::computing))]
impl TryFrom<u32> for Relation {
    type Error = Refusal;

    ghost use Rattle.constraint.specs.Code.{relation_read};

    ghost try_from_gives = { λ kind r. r ≡ relation_read kind };

    fn try_from(kind: u32) -> Result<Relation, Refusal> {
        match kind {
            0 => Ok(Relation::EqZero),
            1 => Ok(Relation::GtZero),
            2 => Ok(Relation::GeZero),
            3 => Ok(Relation::LtZero),
            4 => Ok(Relation::LeZero),
            5 => Ok(Relation::NeZero),
            _ => Err(Refusal::Constraint),
        }
    }
}

impl From<Relation> for u32 {
    ghost use Rattle.constraint.specs.Encoding.{kind_of};

    ghost from_gives = { λ relation kind. kind ≡ kind_of relation };

    fn from(relation: Relation) -> u32 {
        relation as u32
    }
}

// What a record is: document 01's kinds, an atom's 0 to 5, the others 6 to 10.
#[derive(Clone, Copy)]
enum Kind {
    Atom(Relation),
    Not,
    And,
    Or,
    ForAll,
    Exists,
}

#[tactic(auto, unfolding(number::specs::Computing::computing))]
impl TryFrom<u32> for Kind {
    type Error = Refusal;

    ghost use Rattle.constraint.specs.Code.{kind_read};

    ghost try_from_gives = { λ number r. r ≡ kind_read number };

    fn try_from(number: u32) -> Result<Kind, Refusal> {
        match number {
            6 => Ok(Kind::Not),
            7 => Ok(Kind::And),
            8 => Ok(Kind::Or),
            9 => Ok(Kind::ForAll),
            10 => Ok(Kind::Exists),
            _ => Ok(Kind::Atom(Relation::try_from(number)?)),
        }
    }
}

impl From<Kind> for u32 {
    ghost use Rattle.constraint.specs.Code.{kind_number};

    ghost from_gives = { λ kind number. number ≡ kind_number kind };

    fn from(kind: Kind) -> u32 {
        match kind {
            Kind::Atom(relation) => u32::from(relation),
            Kind::Not => 6,
            Kind::And => 7,
            Kind::Or => 8,
            Kind::ForAll => 9,
            Kind::Exists => 10,
        }
    }
}

// What a record says: an atom its node, And and Or how many they take, a quantifier its variable, lo and hi.
#[derive(Clone, Copy)]
pub enum Record {
    Atom(Relation, usize),
    Not,
    And(usize),
    Or(usize),
    ForAll(usize, f64, f64),
    Exists(usize, f64, f64),
}

// Record k, read with no test: a number over 10 reads as Exists, which no record that passed has.
#[tactic(auto, unfolding(crate::specs::Records::record_at, number::specs::Computing::computing))]
pub fn record_in(constraints: &[u8], k: usize) -> Record
    requires { 24 * k + 24 ≤ length constraints.now }
    ensures { result ≡ record_at constraints.now k }
{
    let at = 24 * k;
    let kind = Kind::try_from(record::read_u32(constraints, at));
    let arg = record::read_u32(constraints, at + 4) as usize;
    match kind.unwrap_or(Kind::Exists) {
        Kind::Atom(relation) => Record::Atom(relation, arg),
        Kind::Not => Record::Not,
        Kind::And => Record::And(arg),
        Kind::Or => Record::Or(arg),
        Kind::ForAll => Record::ForAll(
            arg,
            record::read_f64(constraints, at + 8),
            record::read_f64(constraints, at + 16),
        ),
        Kind::Exists => Record::Exists(
            arg,
            record::read_f64(constraints, at + 8),
            record::read_f64(constraints, at + 16),
        ),
    }
}

// Whether record k is a constraint's, over count nodes.
#[tactic(auto, unfolding(crate::specs::Records::is_record, number::specs::Computing::computing))]
pub fn is_record(constraints: &[u8], k: usize, count: usize) -> bool
    requires { 24 * k + 24 ≤ length constraints.now }
    ensures { result ≡ is_record count constraints.now k }
{
    let at = 24 * k;
    let Ok(kind) = Kind::try_from(record::read_u32(constraints, at)) else {
        return false;
    };
    let arg = record::read_u32(constraints, at + 4) as usize;
    let lo = record::read_u64(constraints, at + 8);
    let hi = record::read_u64(constraints, at + 16);
    let blank = (lo == 0) & (hi == 0);
    match kind {
        Kind::Atom(_) => (arg < count) & blank,
        Kind::Not => (arg == 0) & blank,
        Kind::And | Kind::Or => blank,
        Kind::ForAll | Kind::Exists => arg < 16,
    }
}

fn is_ranged(r: Record) -> bool
    ensures { result ≡ is_ranged r }
{
    match r {
        Record::ForAll(_, lo, hi) | Record::Exists(_, lo, hi) => number::is_sound(lo, hi),
        Record::Atom(_, _) | Record::Not | Record::And(_) | Record::Or(_) => true,
    }
}

// How many finished constraints it takes.
pub fn taken_by(r: Record) -> usize
    ensures { result ≡ takes r }
{
    match r {
        Record::Atom(_, _) => 0,
        Record::And(m) | Record::Or(m) => m,
        Record::Not | Record::ForAll(_, _, _) | Record::Exists(_, _, _) => 1,
    }
}

// 1, but 0 of what is no quantifier.
fn quantifier_of(r: Record) -> usize
    ensures { (result ≡ binds r) × (result ≤ 1) }
{
    match r {
        Record::ForAll(_, _, _) | Record::Exists(_, _, _) => 1,
        Record::Atom(_, _) | Record::Not | Record::And(_) | Record::Or(_) => 0,
    }
}

// ---- a record is written

// A record's four numbers.
#[derive(Clone, Copy)]
struct Words {
    kind: u32,
    arg: u32,
    lo: u64,
    hi: u64,
}

// Of all but the quantifiers.
fn unranged(kind: Kind, arg: usize) -> Words
    requires { arg < 2 ^ 32 }
    ensures { result ≡ record { kind = kind_number kind; arg = arg; lo = 0; hi = 0 } }
{
    Words {
        kind: u32::from(kind),
        arg: arg as u32,
        lo: 0,
        hi: 0,
    }
}

// Of a quantifier.
fn ranged(kind: Kind, v: usize, lo: f64, hi: f64) -> Words
    requires { v < 2 ^ 32 }
    ensures { result ≡ record { kind = kind_number kind; arg = v; lo = to_bits binary64 lo; hi = to_bits binary64 hi } }
{
    Words {
        kind: u32::from(kind),
        arg: v as u32,
        lo: number::bits_of(lo),
        hi: number::bits_of(hi),
    }
}

#[tactic(auto, unfolding(crate::specs::Encoding::record_bytes))]
fn words_of(r: Record) -> Words
    requires { Writable 1024 r }
    ensures { words_bytes result ≡ record_bytes r }
{
    match r {
        Record::Atom(relation, i) => unranged(Kind::Atom(relation), i),
        Record::Not => unranged(Kind::Not, 0),
        Record::And(m) => unranged(Kind::And, m),
        Record::Or(m) => unranged(Kind::Or, m),
        Record::ForAll(v, lo, hi) => ranged(Kind::ForAll, v, lo, hi),
        Record::Exists(v, lo, hi) => ranged(Kind::Exists, v, lo, hi),
    }
}

// Record number `at`; the answer is the number of the next. (A list and a number, and no writer that has both: it would be lent through each call
// of the normal form with what it has written.)
#[tactic(auto, using(crate::specs::PutLaws::puts_one, crate::proofs::Putting::record_words))]
pub fn write_record(out: &mut [u8], at: usize, r: Record) -> usize
    requires { Writable 1024 r × (24 * (at + 1) ≤ length out.old) }
    ensures { Puts (old out) (final out) at result (r ∷ []) }
{
    let place = 24 * at;
    let w = words_of(r);
    record::write_u32(out, place, w.kind);
    record::write_u32(out, place + 4, w.arg);
    record::write_u64(out, place + 8, w.lo);
    record::write_u64(out, place + 16, w.hi);
    at + 1
}

// ---- the comparisons

// `lt`, `le`, `gt` or `ge`, by the relation: x - y is appended to the list of count nodes, and the atom's record on it is written to out.
#[tactic(auto, using(tree::specs::CanonicalLaws::sub_accepted), unfolding(crate::specs::Comparison::compared, crate::specs::Comparison::compare_refusal, crate::specs::Encoding::records_bytes))]
pub fn compare(
    nodes: &mut [u8],
    count: usize,
    x: usize,
    y: usize,
    relation: Relation,
    out: &mut [u8],
) -> Result<usize, Refusal>
    ensures { (numbered result leaving (final nodes, final out)) ≡ compared relation (old nodes) count x y (old out) }
{
    tree::test_sub(nodes, count, x, y)?;
    if out.len() < 24 {
        return Err(Refusal::Room);
    }
    tree::write_sub(nodes, count, x, y);
    let result = count + 6;
    write_record(out, 0, Record::Atom(relation, result));
    Ok(result)
}
