// Canonical, on a list of `count` nodes whose free places are the bytes after them. The result is the last of the four or seven nodes that
// are appended: number count + 3 of ln, count + 6 of sub.
ghost use Rattle.std.specs.Prelude.{◌≡◌};
ghost use Rattle.record.specs.Leaving.{◌leaving◌};
ghost use Rattle.tree.specs.Canonical as Canonical;
ghost use Rattle.constraint.specs.Comparison.{compared};
ghost use Rattle.constraint.specs.declared.Relation.{Relation};
ghost use Rattle.record.specs.Views.{old, final};
ghost use Rattle.eml.specs.Answers.{appended};

use crate::answers::refusal_number;
use constraint::Relation;

pub fn eml_canonical_ln(nodes: &mut [u8], count: usize, x: usize) -> u8
    ensures { (result leaving final nodes) ≡ appended (Canonical.ln (old nodes) count x) }
{
    refusal_number(tree::Canonical::ln(nodes, count, x))
}

pub fn eml_canonical_sub(nodes: &mut [u8], count: usize, x: usize, y: usize) -> u8
    ensures { (result leaving final nodes) ≡ appended (Canonical.sub (old nodes) count x y) }
{
    refusal_number(tree::Canonical::sub(nodes, count, x, y))
}

// The comparisons append as sub does, and write the atom's record to the first 24 bytes of `out`.

pub fn eml_lt(nodes: &mut [u8], count: usize, x: usize, y: usize, out: &mut [u8]) -> u8
    ensures { (result leaving (final nodes, final out)) ≡ appended (compared Relation.LtZero (old nodes) count x y (old out)) }
{
    refusal_number(constraint::compare(nodes, count, x, y, Relation::LtZero, out))
}

pub fn eml_le(nodes: &mut [u8], count: usize, x: usize, y: usize, out: &mut [u8]) -> u8
    ensures { (result leaving (final nodes, final out)) ≡ appended (compared Relation.LeZero (old nodes) count x y (old out)) }
{
    refusal_number(constraint::compare(nodes, count, x, y, Relation::LeZero, out))
}

pub fn eml_gt(nodes: &mut [u8], count: usize, x: usize, y: usize, out: &mut [u8]) -> u8
    ensures { (result leaving (final nodes, final out)) ≡ appended (compared Relation.GtZero (old nodes) count x y (old out)) }
{
    refusal_number(constraint::compare(nodes, count, x, y, Relation::GtZero, out))
}

pub fn eml_ge(nodes: &mut [u8], count: usize, x: usize, y: usize, out: &mut [u8]) -> u8
    ensures { (result leaving (final nodes, final out)) ≡ appended (compared Relation.GeZero (old nodes) count x y (old out)) }
{
    refusal_number(constraint::compare(nodes, count, x, y, Relation::GeZero, out))
}
