// Numbered nodes (document 01, "The file"): their records, the tests of a list of nodes, and what `Canonical` (canonical.rs) appends to one.
#![tactic(auto)]

ghost use Rattle.std.specs.Prelude.{◌≡◌, true, min, max, ◌+◌, ◌*◌, ◌^◌, ◌≤◌, ◌<◌, ◌++◌, length, IfOk, OnOk};
ghost use Rattle.std.proofs.lemmas.List.Edits.{sets};
ghost use Rattle.std.specs.Float.{binary64};
ghost use Rattle.std.specs.Float.Ieee.{of_bits};
ghost use Rattle.std.specs.Float.Ieee.Scale.{finite};
ghost use Rattle.record.specs.Bytes.{u32_bytes};
ghost use Rattle.record.specs.Refusal.{◌unless◌};
ghost use Rattle.record.specs.Refused.{refusal_of, numbered};
ghost use Rattle.record.specs.Leaving.{◌leaving◌};
ghost use Rattle.tree.specs.Tree.{Tree, tree_vars};
ghost use Rattle.tree.specs.Nodes.{node_at, tree_at, is_node, nodes_fit, list_refusal, Valid};
ghost use Rattle.tree.specs.Code.{right_end, left_end, chosen, IsExtent, small_extent, Small, Measured, Held};
ghost use Rattle.tree.specs.Code.{operands_refusal, result_refusal};
ghost use Rattle.tree.specs.Canonical.{ln_tree, sub_tree, ln_nodes, sub_nodes, ln_refusal, sub_refusal, ln as ln_of, sub as sub_of};
ghost use Rattle.tree.specs.Encoding.{node_bytes, nodes_bytes};
ghost use Rattle.record.specs.Views.{old, final};

use record::Refusal;

// What a node says: a constant, a variable's index, or two children, in its record their numbers.
#[derive(Clone, Copy)]
pub enum Node<T> {
    One,
    Const(f64),
    Var(usize),
    Eml(T, T),
}

// ---- a node's record

// Whether a pattern is a finite f64's: the exponent's field is not all ones. With the library's `is_finite` of the f64 a list's tests were
// measured a quarter slower.
#[tactic(auto, using(crate::proofs::Floats::finite_is))]
fn is_finite(bits: u64) -> bool
    ensures { result ≡ finite (of_bits binary64 bits) }
{
    bits % 0x8000_0000_0000_0000 / 0x0010_0000_0000_0000 != 2047
}

// The numbers at 8 and at 4 of a node's record are below these. A choice of two numbers, and no `match`, since kinds come in any order and
// the processor would guess the arm wrong: with one a list's tests were measured slower.
fn right_end(kind: u32, k: usize) -> usize
    ensures { result ≡ right_end kind k }
{
    if kind == 3 { k } else { 1 }
}

fn left_end(kind: u32, k: usize) -> usize
    ensures { result ≡ left_end kind k }
{
    if kind == 2 { 16 } else { right_end(kind, k) }
}

// The test of a constant, or that of the other kinds.
fn choose(kind: u32, constant: bool, other: bool) -> bool
    ensures { result ≡ chosen kind constant other }
{
    if kind == 1 { constant } else { other }
}

// Whether record k is a node's.
#[tactic(auto, using(crate::proofs::Tests::node_is), unfolding(record::specs::Bytes::f64_at))]
pub fn is_node(nodes: &[u8], k: usize) -> bool
    requires { 16 * k + 16 ≤ length nodes.now }
    ensures { result ≡ is_node nodes.now k }
{
    let at = 16 * k;
    let kind = record::read_u32(nodes, at);
    let left = record::read_u32(nodes, at + 4) as usize;
    let right = record::read_u32(nodes, at + 8) as usize;
    let last = record::read_u32(nodes, at + 12);
    let real = is_finite(record::read_u64(nodes, at + 8));
    let rest = (right < right_end(kind, k)) & (last == 0);
    (kind < 4) & (left < left_end(kind, k)) & choose(kind, real, rest)
}

// Node k, read with no test.
#[tactic(auto, using(crate::proofs::Tests::node_reads))]
pub fn node_in(nodes: &[u8], k: usize) -> Node<usize>
    requires { 16 * k + 16 ≤ length nodes.now }
    ensures { result ≡ node_at nodes.now k }
{
    let at = 16 * k;
    let kind = record::read_u32(nodes, at);
    match kind {
        0 => Node::One,
        1 => Node::Const(record::read_f64(nodes, at + 8)),
        2 => Node::Var(record::read_u32(nodes, at + 4) as usize),
        _ => Node::Eml(
            record::read_u32(nodes, at + 4) as usize,
            record::read_u32(nodes, at + 8) as usize,
        ),
    }
}

// ---- the tests of a list, of count nodes: C lends the bytes with the count beside, and free places may follow

// The expanded size and the depth of a tree.
#[derive(Clone, Copy)]
struct Extent {
    size: usize,
    depth: usize,
}

// An accepted tree's, in four bytes: each call clears a list of them. (Not one type by its numbers: a sum of two sizes needs the wide one.)
#[derive(Clone, Copy)]
struct SmallExtent {
    size: u16,
    depth: u16,
}

// A tree with one node's.
const ONE: Extent = Extent { size: 1, depth: 1 };

// What a place holds before its node is met.
const BLANK: SmallExtent = SmallExtent { size: 0, depth: 0 };

impl From<SmallExtent> for Extent {
    ghost from_gives = { λ s e. (e.size ≡ s.size) × (e.depth ≡ s.depth) };

    fn from(s: SmallExtent) -> Extent {
        Extent {
            size: usize::from(s.size),
            depth: usize::from(s.depth),
        }
    }
}

#[tactic(auto, unfolding(crate::specs::Tree::size, crate::specs::Tree::depth))]
impl Extent {
    // An Eml's, by those of its children.
    fn eml(self, right: Extent) -> Extent
        requires { (self.size + right.size < 2 ^ 32) × (self.depth < 2 ^ 32) × (right.depth < 2 ^ 32) }
        ensures { (result.size ≡ 1 + self.size + right.size) × (result.depth ≡ 1 + max self.depth right.depth) }
    {
        Extent {
            size: 1 + self.size + right.size,
            depth: 1 + self.depth.max(right.depth),
        }
    }

    // 4, as document 01 bounds a tree. (No `TryFrom`: the name says whose bounds.)
    fn accept(self) -> Result<SmallExtent, Refusal>
        ensures refusal { refusal_of result ≡ (4 unless small_extent self) }
        ensures value { IfOk result (λ e. (e.size ≡ self.size) × (e.depth ≡ self.depth)) }
    {
        if 4096 < self.size || 128 < self.depth {
            return Err(Refusal::Size);
        }
        Ok(SmallExtent {
            size: self.size as u16,
            depth: self.depth as u16,
        })
    }

    // Those of `ln_tree` and `sub_tree`.
    fn ln(self) -> Extent
        requires { Small self }
        ensures extent { (t : Tree) → IsExtent t self → IsExtent (ln_tree t) result }
        ensures fits { (result.size ≤ 4102) × (result.depth ≤ 131) }
    {
        ONE.eml(ONE.eml(self).eml(ONE))
    }

    fn sub(self, y: Extent) -> Extent
        requires { Small self × Small y }
        ensures { (t u : Tree) → IsExtent t self → IsExtent u y → IsExtent (sub_tree t u) result }
    {
        self.ln().eml(y.eml(ONE))
    }
}

// Node k's, by those of the nodes before it.
#[tactic(auto, using(crate::specs::NodeLaws::node_trees), unfolding(crate::specs::Tree::size, crate::specs::Tree::depth))]
fn measure(nodes: &[u8], k: usize, extents: &[SmallExtent]) -> Extent
    requires { (16 * k + 16 ≤ length nodes.now) × (is_node nodes.now k ≡ true) × Held nodes.now k extents.now }
    ensures { IsExtent (tree_at nodes.now k) result }
{
    match node_in(nodes, k) {
        Node::Eml(l, r) => Extent::from(extents[l]).eml(Extent::from(extents[r])),
        Node::One | Node::Const(_) | Node::Var(_) => ONE,
    }
}

// Whether n nodes are a list that fits in len bytes.
#[tactic(auto, unfolding(crate::specs::Nodes::nodes_fit))]
fn nodes_fit(len: usize, n: usize) -> bool
    ensures { result ≡ nodes_fit len n }
{
    n <= 1024 && 16 * n <= len
}

// A list of count nodes: 2, then each node 3, 4. The extents of a list that passes are left in `extents`.
#[tactic(auto, using(crate::proofs::Nodes::list_tests), unfolding(record::specs::Refusal::first))]
fn test_nodes(nodes: &[u8], count: usize, extents: &mut [SmallExtent]) -> Result<(), Refusal>
    requires { min count 1024 ≤ length extents.old }
    ensures refusal { refusal_of result ≡ list_refusal nodes.now count }
    ensures held { OnOk result (Held nodes.now count (final extents)) }
{
    if !nodes_fit(nodes.len(), count) {
        return Err(Refusal::Counts);
    }
    for k in 0..count {
        if !is_node(nodes, k) {
            return Err(Refusal::Node);
        }
        // Part by part: with the pair as one value, a list took a fifth longer to test.
        let SmallExtent { size, depth } = measure(nodes, k, extents).accept()?;
        extents[k] = SmallExtent { size, depth };
    }
    Ok(())
}

// With N places for the extents.
fn test_within<const N: usize>(nodes: &[u8], count: usize) -> Result<(), Refusal>
    requires { (min count 1024 ≤ N) × (N ≤ 1024) }
    ensures { refusal_of result ≡ list_refusal nodes.now count }
{
    let mut extents = [BLANK; N];
    test_nodes(nodes, count, &mut extents)
}

// The tests of a list. A short array is quicker to clear.
pub fn test_list(nodes: &[u8], count: usize) -> Result<(), Refusal>
    ensures { refusal_of result ≡ list_refusal nodes.now count }
{
    if count <= 64 {
        test_within::<64>(nodes, count)
    } else {
        test_within::<1024>(nodes, count)
    }
}

// ---- a node's tree

// A tree: its root is a node of a list, in which all nodes up to it passed their tests.
#[derive(Clone, Copy)]
pub struct EmlTree<'a> {
    pub nodes: &'a [u8],
    pub root: usize,
    pub ghost valid: { Valid nodes.now (root + 1) },
}

#[tactic(auto, using(crate::specs::NodeLaws::node_trees, crate::specs::NodeLaws::valid_trees))]
impl<'a> EmlTree<'a> {
    ghost use Rattle.tree.specs.Views.{the_tree, node_tree, Bounded};

    // What its root says, the children as trees.
    pub fn node(self) -> Node<EmlTree<'a>>
        ensures tree { node_tree result ≡ the_tree self.entry }
        ensures bounds { Bounded self.entry.root result }
    {
        let nodes = self.nodes;
        match node_in(nodes, self.root) {
            Node::One => Node::One,
            Node::Const(v) => Node::Const(v),
            Node::Var(i) => Node::Var(i),
            Node::Eml(l, r) => Node::Eml(EmlTree { nodes, root: l }, EmlTree { nodes, root: r }),
        }
    }

    // The number of its variables.
    pub fn num_vars(self) -> usize
        ensures { result ≡ tree_vars (the_tree self.entry) }
    {
        vars_at(self.nodes, self.root)
    }
}

// The same of node k's tree, by node numbers: a tree that is passed by value goes through memory, and took twice as long.
#[cycle(vars_at)]
#[tactic(auto, using(crate::specs::NodeLaws::node_trees, crate::specs::NodeLaws::valid_trees), unfolding(crate::specs::Tree::tree_vars))]
fn vars_at(nodes: &[u8], k: usize) -> usize
    requires { Valid nodes.now (k + 1) }
    ensures { result ≡ tree_vars (tree_at nodes.now k) }
{
    match node_in(nodes, k) {
        Node::One | Node::Const(_) => 0,
        Node::Var(i) => i + 1,
        Node::Eml(l, r) => vars_at(nodes, l).max(vars_at(nodes, r)),
    }
}

// ---- Canonical, on a list of count nodes whose free places are the bytes after them

// The list's own tests, then 3 unless x and y name nodes; and their extents.
#[tactic(auto, using(crate::proofs::Append::append_tests), unfolding(crate::specs::Code::operands_refusal))]
fn measure_operands(
    nodes: &[u8],
    count: usize,
    x: usize,
    y: usize,
) -> Result<(Extent, Extent), Refusal>
    ensures refusal { refusal_of result ≡ operands_refusal nodes.now count x y }
    ensures value { IfOk result (λ o. Measured (tree_at nodes.now x) o.0 × Measured (tree_at nodes.now y) o.1) }
{
    let mut extents = [BLANK; 1024];
    test_nodes(nodes, count, &mut extents)?;
    if count <= x || count <= y {
        return Err(Refusal::Node);
    }
    Ok((Extent::from(extents[x]), Extent::from(extents[y])))
}

// 4 for the result, then 10 unless there is room for `more` nodes.
#[tactic(auto, unfolding(crate::specs::Code::result_refusal))]
fn test_result(len: usize, count: usize, more: usize, extent: Extent) -> Result<(), Refusal>
    requires { (count ≤ 1024) × (more ≤ 1024) }
    ensures { refusal_of result ≡ result_refusal len count more extent }
{
    extent.accept()?;
    if !nodes_fit(len, count + more) {
        return Err(Refusal::Room);
    }
    Ok(())
}

#[tactic(auto, using(crate::proofs::Append::append_tests))]
fn test_ln(nodes: &[u8], count: usize, x: usize) -> Result<(), Refusal>
    ensures { refusal_of result ≡ ln_refusal nodes.now count x }
{
    let (a, _) = measure_operands(nodes, count, x, x)?;
    test_result(nodes.len(), count, 4, a.ln())
}

#[tactic(auto, using(crate::proofs::Append::append_tests), unfolding(crate::specs::Canonical::sub_refusal))]
pub fn test_sub(nodes: &[u8], count: usize, x: usize, y: usize) -> Result<(), Refusal>
    ensures { refusal_of result ≡ sub_refusal nodes.now count x y }
{
    let (a, b) = measure_operands(nodes, count, x, y)?;
    test_result(nodes.len(), count, 7, a.sub(b))
}

// Of the two kinds that are written, 0 One and 3 Eml. By bytes and a number, as all that reads and writes here: a slice of each record cost
// more than `read_u32`, which says how much.
#[tactic(auto, using(record::specs::ByteLaws::four_words))]
fn write_record(nodes: &mut [u8], k: usize, kind: u32, left: u32, right: u32)
    requires { 16 * k + 16 ≤ length nodes.old }
    ensures { final nodes ≡ sets (old nodes) (16 * k) (u32_bytes kind ++ u32_bytes left ++ u32_bytes right ++ u32_bytes 0) }
{
    let at = 16 * k;
    record::write_u32(nodes, at, kind);
    record::write_u32(nodes, at + 4, left);
    record::write_u32(nodes, at + 8, right);
    record::write_u32(nodes, at + 12, 0);
}

#[tactic(auto, unfolding(crate::specs::Encoding::node_bytes))]
fn write_one(nodes: &mut [u8], k: usize)
    requires { 16 * k + 16 ≤ length nodes.old }
    ensures { final nodes ≡ sets (old nodes) (16 * k) (node_bytes Node.One) }
{
    write_record(nodes, k, 0, 0, 0);
}

#[tactic(auto, unfolding(crate::specs::Encoding::node_bytes))]
fn write_eml(nodes: &mut [u8], k: usize, l: usize, r: usize)
    requires { (16 * k + 16 ≤ length nodes.old) × (l < 1024) × (r < 1024) }
    ensures { final nodes ≡ sets (old nodes) (16 * k) (node_bytes (Node.Eml l r)) }
{
    write_record(nodes, k, 3, l as u32, r as u32);
}

fn write_ln(nodes: &mut [u8], n: usize, x: usize)
    requires { (n + 4 ≤ 1024) × (16 * (n + 4) ≤ length nodes.old) × (x < n) }
    ensures { final nodes ≡ sets (old nodes) (16 * n) (nodes_bytes (ln_nodes n x)) }
{
    write_one(nodes, n);
    write_eml(nodes, n + 1, n, x);
    write_eml(nodes, n + 2, n + 1, n);
    write_eml(nodes, n + 3, n, n + 2);
}

pub fn write_sub(nodes: &mut [u8], n: usize, x: usize, y: usize)
    requires { (n + 7 ≤ 1024) × (16 * (n + 7) ≤ length nodes.old) × (x < n) × (y < n) }
    ensures { final nodes ≡ sets (old nodes) (16 * n) (nodes_bytes (sub_nodes n x y)) }
{
    write_one(nodes, n);
    write_ln(nodes, n + 1, x);
    write_eml(nodes, n + 5, y, n);
    write_eml(nodes, n + 6, n + 4, n + 5);
}

#[derive(Drop)]
pub struct Canonical;

impl Canonical {
    // ln x: appends One, inner, middle, outer.
    #[tactic(auto, using(crate::specs::CanonicalLaws::ln_accepted, crate::proofs::Append::append_ends), unfolding(crate::specs::Canonical::ln))]
    pub fn ln(nodes: &mut [u8], count: usize, x: usize) -> Result<usize, Refusal>
        ensures { (numbered result leaving final nodes) ≡ ln_of (old nodes) count x }
    {
        test_ln(nodes, count, x)?;
        write_ln(nodes, count, x);
        Ok(count + 3)
    }

    // x - y: appends One, the four of ln x, exp_y, result.
    #[tactic(auto, using(crate::specs::CanonicalLaws::sub_accepted, crate::proofs::Append::append_ends), unfolding(crate::specs::Canonical::sub))]
    pub fn sub(nodes: &mut [u8], count: usize, x: usize, y: usize) -> Result<usize, Refusal>
        ensures { (numbered result leaving final nodes) ≡ sub_of (old nodes) count x y }
    {
        test_sub(nodes, count, x, y)?;
        write_sub(nodes, count, x, y);
        Ok(count + 6)
    }
}
