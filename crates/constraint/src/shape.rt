// A constraint as a value, and what it is made of.
#![tactic(auto, using(crate::specs::VarLaws::num_vars_snoc), unfolding(crate::specs::Constraint::num_vars, crate::specs::Constraint::num_vars_all, crate::specs::Records::gather))]

ghost use Rattle.std.specs.Prelude.{◌≡◌, ◌≤◌, ◌<◌, ◌++◌, [], ◌∷◌, length, IfSome, IfNone};
ghost use Rattle.constraint.specs.Records.{finished};

use crate::{Record, Records, Relation, record_in};
use tree::EmlTree;

// The constraint that record `root` finishes.
#[derive(Clone, Copy)]
pub struct EmlConstraint<'a> {
    pub records: &'a Records<'a>,
    pub root: usize,
    pub ghost inside: { root < records.now.count },
}

// The last `count` constraints that are finished before record `end`, oldest first.
#[derive(Clone, Copy)]
pub struct Operands<'a> {
    pub records: &'a Records<'a>,
    pub count: usize,
    pub end: usize,
    pub ghost within: { end ≤ records.now.count },
    pub ghost enough: { count ≤ length (finished records.now.constraints.now end) },
}

#[derive(Clone, Copy)]
pub enum Shape<'a> {
    Atom(Relation, EmlTree<'a>),
    Not(EmlConstraint<'a>),
    And(Operands<'a>),
    Or(Operands<'a>),
    ForAll(usize, f64, f64, EmlConstraint<'a>),
    Exists(usize, f64, f64, EmlConstraint<'a>),
}

impl<'a> EmlConstraint<'a> {
    ghost use Rattle.constraint.specs.Constraint.{num_vars};
    ghost use Rattle.constraint.specs.Starts.{start_at};
    ghost use Rattle.constraint.specs.Views.{meaning, shape_meaning, Below};

    #[tactic(auto, using(crate::proofs::Taking::shapes))]
    pub fn shape(self) -> Shape<'a>
        ensures meaning { shape_meaning result ≡ meaning self.entry }
        ensures below { Below self.entry.root result }
    {
        let EmlConstraint { records, root } = self;
        match record_in(records.constraints, root) {
            Record::Atom(relation, i) => Shape::Atom(relation, records.tree(i)),
            Record::Not => Shape::Not(EmlConstraint {
                records,
                root: root - 1,
            }),
            Record::And(count) => Shape::And(Operands {
                records,
                count,
                end: root,
            }),
            Record::Or(count) => Shape::Or(Operands {
                records,
                count,
                end: root,
            }),
            Record::ForAll(v, lo, hi) => Shape::ForAll(
                v,
                lo,
                hi,
                EmlConstraint {
                    records,
                    root: root - 1,
                },
            ),
            Record::Exists(v, lo, hi) => Shape::Exists(
                v,
                lo,
                hi,
                EmlConstraint {
                    records,
                    root: root - 1,
                },
            ),
        }
    }

    // Its first record: that of the oldest that it takes, or its own.
    pub fn start(self) -> usize
        ensures { result ≡ start_at self.entry.records.now.constraints.now self.entry.root }
    {
        usize::from(self.records.starts[self.root])
    }

    // The number of its variables.
    #[cycle(num_vars)]
    pub fn num_vars(self) -> usize
        ensures { result ≡ num_vars (meaning self.entry) }
    {
        match self.shape() {
            Shape::Atom(_, tree) => tree.num_vars(),
            Shape::Not(c) => c.num_vars(),
            Shape::And(cs) | Shape::Or(cs) => cs.num_vars(),
            Shape::ForAll(v, _, _, c) | Shape::Exists(v, _, _, c) => c.num_vars().max(v + 1),
        }
    }
}

impl<'a> Operands<'a> {
    ghost use Rattle.constraint.specs.Constraint.{num_vars_all};
    ghost use Rattle.constraint.specs.Records.{gather};
    ghost use Rattle.constraint.specs.Views.{meaning, meanings};

    // The last, and those before it.
    #[tactic(auto, using(crate::proofs::Taking::operands))]
    pub fn split_last(self) -> Option<(EmlConstraint<'a>, Operands<'a>)>
        ensures none { IfNone result (meanings self.entry ≡ []) }
        ensures some { IfSome result (λ p. meanings self.entry ≡ meanings p.1 ++ meaning p.0 ∷ []) }
        ensures below { IfSome result (λ p. (p.0.root < self.entry.end) × (p.1.end < self.entry.end)) }
    {
        if self.count == 0 {
            return None;
        }
        let records = self.records;
        let last = EmlConstraint {
            records,
            root: self.end - 1,
        };
        let before = Operands {
            records,
            count: self.count - 1,
            end: last.start(),
        };
        Some((last, before))
    }

    // The most variables that one of them has.
    #[cycle(num_vars)]
    fn num_vars(self) -> usize
        ensures { result ≡ num_vars_all (gather (meanings self.entry)) }
    {
        match self.split_last() {
            Some((last, before)) => before.num_vars().max(last.num_vars()),
            None => 0,
        }
    }
}
