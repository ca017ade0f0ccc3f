// The house file (document 01, "The file"): its tests, and what an accepted file says.
#![tactic(auto)]

ghost use Rattle.std.specs.Prelude.{◌≡◌, ◌+◌, ◌*◌, ◌/◌, ◌≤◌, [], length, IfOk};
ghost use Rattle.record.specs.Refusal.{◌or_else◌, first};
ghost use Rattle.record.specs.Refused.{refusal_of, numbered};
ghost use Rattle.tree.specs.Nodes.{nodes_refusal};
ghost use Rattle.interval.specs.Views.{intervals_of};
ghost use Rattle.constraint.specs.Constraint.{num_vars};
ghost use Rattle.constraint.specs.Records.{records_refusal};
ghost use Rattle.constraint.specs.Views.{the_constraint};
ghost use Rattle.file.specs.File.{node_count, constraint_count, nodes_of, constraints_of, bounds_of, is_headed, is_laid_out, bound_at, bounds, bound_refusal, refusal, Accepted, read_file, given_refusal, read_given};
ghost use Rattle.file.specs.Code.{Laid, Holds, header_refusal};
ghost use Rattle.file.specs.Answer.{answered};

use constraint::Records;
use interval::{Count, Domain, Interval};
use record::Refusal;

// What an accepted file says.
#[derive(Drop)]
pub struct Problem<'a> {
    pub records: Records<'a>,
    pub bounds: Domain,
}

// ---- the header

#[tactic(auto, unfolding(crate::specs::File::is_headed))]
fn is_headed(file: &[u8]) -> bool
    ensures { result ≡ is_headed file.now }
{
    if file.len() < 32 {
        return false;
    }
    let mark = record::read_u32(file, 0);
    let version = record::read_u32(file, 4);
    (mark == 0x514c_4d45) & (version == 1)
}

#[tactic(auto, unfolding(crate::specs::File::is_laid_out))]
fn is_laid_out(file: &[u8]) -> bool
    requires { 32 ≤ length file.now }
    ensures { result ≡ is_laid_out file.now }
{
    let nodes = record::read_u32(file, 12) as usize;
    let constraints = record::read_u32(file, 20) as usize;
    let bounds = record::read_u32(file, 28) as usize;
    let x = record::read_u32(file, 8) as usize;
    let y = record::read_u32(file, 16) as usize;
    let z = record::read_u32(file, 24) as usize;
    let from = 32 + 16 * nodes;
    let to = from + 24 * constraints;
    let end = to + 16 * bounds;
    let size = file.len();
    (nodes <= 1024)
        & (constraints <= 256)
        & (bounds <= 16)
        & (x == 32)
        & (y == from)
        & (z == to)
        & (size == end)
}

// ---- the bodies of a file

// A file that is laid out as its header says.
#[derive(Clone, Copy)]
struct House<'a> {
    file: &'a [u8],
    ghost laid: { Laid file.now },
}

impl<'a> House<'a> {
    // 1, 2.
    #[tactic(auto, using(crate::specs::FileLaws::headed_long), unfolding(crate::specs::Code::header_refusal))]
    fn new(file: &'a [u8]) -> Result<House<'a>, Refusal>
        ensures refusal { refusal_of result ≡ header_refusal file.now }
        ensures house { IfOk result (λ h. h.file.now ≡ file.now) }
    {
        if !is_headed(file) {
            return Err(Refusal::Header);
        }
        if !is_laid_out(file) {
            return Err(Refusal::Counts);
        }
        Ok(House { file })
    }

    fn node_count(self) -> usize
        ensures { result ≡ node_count self.entry.file.now }
    {
        record::read_u32(self.file, 12) as usize
    }

    fn constraint_count(self) -> usize
        ensures { result ≡ constraint_count self.entry.file.now }
    {
        record::read_u32(self.file, 20) as usize
    }

    #[tactic(auto, unfolding(crate::specs::File::nodes_of))]
    fn nodes(self) -> &'a [u8]
        ensures { result.now ≡ nodes_of self.entry.file.now }
    {
        let to = 32 + 16 * self.node_count();
        &self.file[32..to]
    }

    #[tactic(auto, unfolding(crate::specs::File::constraints_of))]
    fn constraints(self) -> &'a [u8]
        ensures { result.now ≡ constraints_of self.entry.file.now }
    {
        let from = 32 + 16 * self.node_count();
        let to = from + 24 * self.constraint_count();
        &self.file[from..to]
    }

    #[tactic(auto, unfolding(crate::specs::File::bounds_of))]
    fn bounds(self) -> &'a [u8]
        ensures { result.now ≡ bounds_of self.entry.file.now }
    {
        let from = 32 + 16 * self.node_count() + 24 * self.constraint_count();
        &self.file[from..]
    }
}

// Bound k, read with no test.
#[tactic(auto, unfolding(crate::specs::File::bound_at))]
fn bound_in(bounds: &[u8], k: usize) -> Interval
    requires { 16 * k + 16 ≤ length bounds.now }
    ensures { result ≡ bound_at bounds.now k }
{
    let at = 16 * k;
    Interval::new(
        record::read_f64(bounds, at),
        record::read_f64(bounds, at + 8),
    )
}

// ---- the tests of the bodies

// The tests of each of the bounds: 6; and the boxes that they are.
#[tactic(auto, using(crate::proofs::Parts::bound_tests), unfolding(crate::specs::File::bound_refusal, crate::specs::File::bounds, record::specs::Refusal::first))]
fn read_bounds(bytes: &[u8]) -> Result<Domain, Refusal>
    requires { length bytes.now / 16 ≤ 16 }
    ensures refusal { refusal_of result ≡ first (bound_refusal bytes.now) (length bytes.now / 16) }
    ensures value { IfOk result (λ d. intervals_of d ≡ bounds bytes.now (length bytes.now / 16)) }
{
    let count = Count {
        n: bytes.len() / 16,
    };
    let mut boxes = [Interval::point(0.0); 16];
    for i in 0..count.n {
        let b = bound_in(bytes, i);
        if !b.is_sound() {
            return Err(Refusal::Range);
        }
        boxes[i] = b;
    }
    Ok(Domain { boxes, count })
}

// The tests of nodes, 3, 4, and of the constraint records over them, 5, 6, 7. (Inlined, as `Records::new`.)
#[inline(always)]
#[tactic(auto, using(crate::proofs::Parts::record_tests))]
fn read_records<'a>(nodes: &'a [u8], constraints: &'a [u8]) -> Result<Records<'a>, Refusal>
    requires { (length nodes.now / 16 ≤ 1024) × (length constraints.now / 24 ≤ 256) }
    ensures refusal { refusal_of result ≡ (nodes_refusal nodes.now (length nodes.now / 16) or_else records_refusal (length nodes.now / 16) constraints.now (length constraints.now / 24)) }
    ensures records { IfOk result (Holds nodes.now constraints.now) }
{
    tree::test_list(nodes, nodes.len() / 16)?;
    Records::new(nodes, constraints)
}

// ---- what other crates call

// The tests of a file, and what it says. A caller that asks for the refusal alone makes no boxes.
#[inline(always)]
#[tactic(auto, using(crate::proofs::Parts::file_tests))]
pub fn read(file: &[u8]) -> Result<Problem<'_>, Refusal>
    ensures refusal { refusal_of result ≡ refusal file.now }
    ensures problem { IfOk result (λ p. read_file file.now ≡ Accepted (the_constraint p.records) (intervals_of p.bounds)) }
    ensures records { IfOk result (λ p. Holds (nodes_of file.now) (constraints_of file.now) p.records) }
{
    let house = House::new(file)?;
    let records = read_records(house.nodes(), house.constraints())?;
    let bounds = read_bounds(house.bounds())?;
    Ok(Problem { records, bounds })
}

// The same of node records and constraint records given without a file: as many as the bytes make.
#[tactic(auto, using(crate::proofs::Parts::given_read), unfolding(crate::specs::File::given_refusal, crate::specs::File::is_counted))]
pub fn read_given<'a>(nodes: &'a [u8], constraints: &'a [u8]) -> Result<Records<'a>, Refusal>
    ensures refusal { refusal_of result ≡ given_refusal nodes.now constraints.now }
    ensures records { IfOk result (Holds nodes.now constraints.now) }
    ensures constraint { IfOk result (λ r. read_given nodes.now constraints.now ≡ Accepted (the_constraint r) []) }
{
    let x = nodes.len();
    let y = constraints.len();
    if (x % 16 == 0) & (x / 16 <= 1024) & (y % 24 == 0) & (y / 24 <= 256) {
        return read_records(nodes, constraints);
    }
    Err(Refusal::Counts)
}

// The number of variables of a file's constraint. (This and the next are two calls of C, each its reading and the count.)
#[tactic(auto, using(crate::specs::FileLaws::file_refused, record::specs::RefusalLaws::never_none))]
pub fn num_vars(file: &[u8]) -> Result<u64, Refusal>
    ensures { numbered result ≡ answered num_vars (read_file file.now) }
{
    let problem = read(file)?;
    Ok(problem.records.constraint().num_vars() as u64)
}

// The same of records.
#[tactic(auto, using(crate::specs::FileLaws::given_refused, record::specs::RefusalLaws::never_none))]
pub fn num_vars_given(nodes: &[u8], constraints: &[u8]) -> Result<u64, Refusal>
    ensures { numbered result ≡ answered num_vars (read_given nodes.now constraints.now) }
{
    let records = read_given(nodes, constraints)?;
    Ok(records.constraint().num_vars() as u64)
}
