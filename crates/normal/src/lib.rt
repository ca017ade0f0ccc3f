// The normal form of a constraint (document 01, "Narrowing"; constraint.rs): Not is pushed down to the atoms, and records are written in
// postorder.
#![tactic(auto, using(crate::proofs::Forms::steps))]

ghost use Rattle.std.specs.Prelude.{◌≡◌, ◌+◌, ◌*◌, ◌≤◌, ◌<◌, length};
ghost use Rattle.record.specs.Leaving.{◌leaving◌};
ghost use Rattle.record.specs.Refused.{numbered};
ghost use Rattle.constraint.specs.Code.{Puts};
ghost use Rattle.constraint.specs.Views.{Taken};
ghost use Rattle.normal.specs.NormalForm.{opposite_of};
ghost use Rattle.normal.specs.Written.{dual_of, nnf_at, negation_at, nnf_all, negation_all};
ghost use Rattle.normal.specs.Given.{kept_of, count_kept, to_nnf_given};
ghost use Rattle.record.specs.Views.{old, final};

use constraint::{EmlConstraint, Record, Records, Relation};
use record::Refusal;

pub fn opposite(relation: Relation) -> Relation
    ensures { result ≡ opposite_of relation }
{
    match relation {
        Relation::EqZero => Relation::NeZero,
        Relation::GtZero => Relation::LeZero,
        Relation::GeZero => Relation::LtZero,
        Relation::LtZero => Relation::GeZero,
        Relation::LeZero => Relation::GtZero,
        Relation::NeZero => Relation::EqZero,
    }
}

// 1, but 0 of a Not.
fn kept_of(r: Record) -> usize
    ensures { (result ≡ kept_of r) × (result ≤ 1) }
{
    match r {
        Record::Not => 0,
        Record::Atom(_, _)
        | Record::And(_)
        | Record::Or(_)
        | Record::ForAll(_, _, _)
        | Record::Exists(_, _, _) => 1,
    }
}

// A record that is no Not, in the negation.
fn dual(r: Record) -> Record
    ensures { result ≡ dual_of r }
{
    match r {
        Record::Atom(relation, i) => Record::Atom(opposite(relation), i),
        Record::Not => Record::Not,
        Record::And(m) => Record::Or(m),
        Record::Or(m) => Record::And(m),
        Record::ForAll(v, lo, hi) => Record::Exists(v, lo, hi),
        Record::Exists(v, lo, hi) => Record::ForAll(v, lo, hi),
    }
}

// ---- constraint k: its normal form, or its negation, is written from record `at` on; the answer is the number of the next record.
// A Not is not written; any other record is, after what it takes. By record numbers, and two functions that call each other, as document 01
// has them: what is written is what the record says, not what it means.

#[cycle(negate_negate_all_to_nnf_to_nnf_all)]
fn to_nnf(records: &Records, k: usize, out: &mut [u8], at: usize) -> usize
    requires { (k < records.now.count) × (24 * (at + length (nnf_at records.now k)) ≤ length out.old) }
    ensures { Puts (old out) (final out) at result (nnf_at records.now k) }
{
    let r = constraint::record_in(records.constraints, k);
    if let Record::Not = r {
        return negate(records, k - 1, out, at);
    }
    let next = to_nnf_all(records, constraint::taken_by(r), k, out, at);
    constraint::write_record(out, next, r)
}

#[cycle(negate_negate_all_to_nnf_to_nnf_all)]
fn negate(records: &Records, k: usize, out: &mut [u8], at: usize) -> usize
    requires { (k < records.now.count) × (24 * (at + length (negation_at records.now k)) ≤ length out.old) }
    ensures { Puts (old out) (final out) at result (negation_at records.now k) }
{
    let r = constraint::record_in(records.constraints, k);
    if let Record::Not = r {
        return to_nnf(records, k - 1, out, at);
    }
    let next = negate_all(records, constraint::taken_by(r), k, out, at);
    constraint::write_record(out, next, dual(r))
}

// Of the last m constraints that are finished before record n, oldest first.
#[cycle(negate_negate_all_to_nnf_to_nnf_all)]
fn to_nnf_all(records: &Records, m: usize, n: usize, out: &mut [u8], at: usize) -> usize
    requires { Taken records.now m n × (24 * (at + length (nnf_all records.now m n)) ≤ length out.old) }
    ensures { Puts (old out) (final out) at result (nnf_all records.now m n) }
{
    if m == 0 {
        return at;
    }
    let last = EmlConstraint {
        records: &*records,
        root: n - 1,
    };
    let next = to_nnf_all(records, m - 1, last.start(), out, at);
    to_nnf(records, last.root, out, next)
}

#[cycle(negate_negate_all_to_nnf_to_nnf_all)]
fn negate_all(records: &Records, m: usize, n: usize, out: &mut [u8], at: usize) -> usize
    requires { Taken records.now m n × (24 * (at + length (negation_all records.now m n)) ≤ length out.old) }
    ensures { Puts (old out) (final out) at result (negation_all records.now m n) }
{
    if m == 0 {
        return at;
    }
    let last = EmlConstraint {
        records: &*records,
        root: n - 1,
    };
    let next = negate_all(records, m - 1, last.start(), out, at);
    negate(records, last.root, out, next)
}

// ---- the call on records that are given

// How many of the records are no Not: so many the normal form has.
#[tactic(auto, unfolding(crate::specs::Given::count_kept))]
fn count_kept(records: &Records) -> usize
    ensures { (result ≡ count_kept records.now.constraints.now records.now.count) × (result ≤ 256) }
{
    let mut count = 0;
    for k in 0..records.count {
        count += kept_of(constraint::record_in(records.constraints, k));
    }
    count
}

// The tests in document 01's order, then the records of the normal form of the one constraint that is left. A refusal alters nothing.
#[tactic(auto, using(crate::proofs::Calls::call_tests), unfolding(crate::specs::Given::to_nnf_given, crate::specs::Given::nnf_refusal))]
pub fn to_nnf_given(nodes: &[u8], constraints: &[u8], out: &mut [u8]) -> Result<usize, Refusal>
    ensures { (numbered result leaving final out) ≡ to_nnf_given nodes.now constraints.now (old out) }
{
    let records = file::read_given(nodes, constraints)?;
    if out.len() < 24 * count_kept(&records) {
        return Err(Refusal::Room);
    }
    Ok(to_nnf(&records, records.count - 1, out, 0))
}
