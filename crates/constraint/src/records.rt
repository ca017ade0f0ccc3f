// Constraint records that passed their tests (document 01, "The file").
ghost use Rattle.std.specs.Prelude.{◌≡◌, ◌+◌, ◌*◌, ◌/◌, ◌≤◌, ◌<◌, ◌&&◌, leb, length, get_or, take, drop, IfOk};
ghost use Rattle.record.specs.Refusal.{◌unless◌};
ghost use Rattle.record.specs.Refused.{refusal_of};
ghost use Rattle.record.specs.Views.{old, final};
ghost use Rattle.tree.specs.Nodes.{Valid};
ghost use Rattle.constraint.specs.Records.{records_refusal};
ghost use Rattle.constraint.specs.Starts.{Ready, Begun, starts_of};
ghost use Rattle.constraint.specs.Code.{binds, greatest, depths, quantified};

use crate::stack::{Finished, Stack};
use crate::{EmlConstraint, Record, is_ranged, is_record, quantifier_of, record_in, taken_by};
use record::Refusal;
use tree::EmlTree;

// The first `count` records of `constraints` passed, over the first `node_count` nodes, which passed; what follows these is no part. `starts` has
// the first record of each constraint, which a walk over operands would else look for at each step.
#[derive(Clone, Copy)]
pub struct Records<'a> {
    pub nodes: &'a [u8],
    pub node_count: usize,
    pub constraints: &'a [u8],
    pub count: usize,
    pub starts: [u8; 256],
    pub ghost ready: { Ready nodes.now node_count constraints.now count },
    pub ghost some: { 0 < count },
    pub ghost begun: { Begun constraints.now count starts },
}

// What a record finishes, from those that it takes; else 7.
fn finish(r: Record, taken: &[Finished]) -> Result<Finished, Refusal>
    ensures refusal { refusal_of result ≡ 7 unless leb (1 + greatest (depths taken.now)) 16 && leb (binds r + greatest (quantified taken.now)) 4 }
    ensures depth { IfOk result (λ c. c.depth ≡ 1 + greatest (depths taken.now)) }
    ensures quantifiers { IfOk result (λ c. c.quantifiers ≡ binds r + greatest (quantified taken.now)) }
{
    let deepest = taken.iter().map(|c| c.depth).max().unwrap_or(0);
    let most = taken.iter().map(|c| c.quantifiers).max().unwrap_or(0);
    let depth = 1 + deepest as usize;
    let quantifiers = quantifier_of(r) + most as usize;
    if 16 < depth || 4 < quantifiers {
        return Err(Refusal::Shape);
    }
    Ok(Finished {
        depth: depth as u8,
        quantifiers: quantifiers as u8,
    })
}

// The first record of what record k finishes: that of the oldest of the m that it takes, from place `base` on, or its own.
fn first_of(begun: &[u8; 256], base: usize, m: usize, k: usize) -> usize
    requires { (base < 256) × (k < 256) }
    ensures { (result ≡ get_or (take m (drop base begun.now)) 0 k) × (result < 256) }
{
    if m == 0 { k } else { usize::from(begun[base]) }
}

// The tests of each of n records over `count` nodes: 5, 6, then 7; then 7 unless just one constraint is left. `starts` gets the first record of
// each that comes before the first refused.
#[tactic(auto, using(crate::proofs::Testing::records_tests))]
pub fn test_records(
    constraints: &[u8],
    n: usize,
    count: usize,
    starts: &mut [u8; 256],
) -> Result<(), Refusal>
    requires { (n ≤ 256) × (24 * n ≤ length constraints.now) }
    ensures refusal { refusal_of result ≡ records_refusal count constraints.now n }
    ensures starts { final starts ≡ starts_of count constraints.now n (old starts) }
{
    let mut stack = Stack::new();
    // the first records of those that the stack has
    let mut begun = [0u8; 256];
    for k in 0..n {
        if !is_record(constraints, k, count) {
            return Err(Refusal::Constraint);
        }
        let r = record_in(constraints, k);
        let m = taken_by(r);
        if stack.height() < m {
            return Err(Refusal::Constraint);
        }
        if !is_ranged(r) {
            return Err(Refusal::Range);
        }
        let c = finish(r, stack.last(m))?;
        let base = stack.height() - m;
        let start = first_of(&begun, base, m, k);
        begun[base] = start as u8;
        starts[k] = start as u8;
        stack.replace(m, c);
    }
    let left = stack.height();
    if left != 1 {
        return Err(Refusal::Shape);
    }
    Ok(())
}

impl<'a> Records<'a> {
    ghost use Rattle.constraint.specs.Views.{the_constraint, meaning};
    ghost use Rattle.tree.specs.Nodes.{tree_at};
    ghost use Rattle.tree.specs.Views.{the_tree};

    // All of `constraints`, over all of `nodes`. (Inlined, as `first`: else the table of starts is copied with each answer.)
    #[inline(always)]
    pub fn new(nodes: &'a [u8], constraints: &'a [u8]) -> Result<Records<'a>, Refusal>
        requires nodes { Valid nodes.now (length nodes.now / 16) }
        requires few { length constraints.now / 24 ≤ 256 }
        ensures refusal { refusal_of result ≡ records_refusal (length nodes.now / 16) constraints.now (length constraints.now / 24) }
        ensures records { IfOk result (λ r. (r.nodes.now ≡ nodes.now) × (r.constraints.now ≡ constraints.now) × (r.node_count ≡ length nodes.now / 16) × (r.count ≡ length constraints.now / 24)) }
    {
        Records::first(nodes, nodes.len() / 16, constraints, constraints.len() / 24)
    }

    // The first n of `constraints`, over the first `count` of `nodes`; either may have free places behind.
    #[inline(always)]
    pub fn first(
        nodes: &'a [u8],
        count: usize,
        constraints: &'a [u8],
        n: usize,
    ) -> Result<Records<'a>, Refusal>
        requires nodes { Valid nodes.now count }
        requires few { (n ≤ 256) × (24 * n ≤ length constraints.now) }
        ensures refusal { refusal_of result ≡ records_refusal count constraints.now n }
        ensures records { IfOk result (λ r. (r.nodes.now ≡ nodes.now) × (r.constraints.now ≡ constraints.now) × (r.node_count ≡ count) × (r.count ≡ n)) }
    {
        let mut starts = [0u8; 256];
        test_records(constraints, n, count, &mut starts)?;
        Ok(Records {
            nodes,
            node_count: count,
            constraints,
            count: n,
            starts,
        })
    }

    // The one that is left: the last record finishes it.
    pub fn constraint(&self) -> EmlConstraint
        ensures meaning { meaning result ≡ the_constraint self.now }
        ensures root { result.root + 1 ≡ self.now.count }
    {
        EmlConstraint {
            records: self,
            root: self.count - 1,
        }
    }

    // The tree of node i.
    pub fn tree(&self, i: usize) -> EmlTree<'a>
        requires { Valid self.now.nodes.now (i + 1) }
        ensures { the_tree result ≡ tree_at self.now.nodes.now i }
    {
        EmlTree {
            nodes: self.nodes,
            root: i,
        }
    }
}
