// `decide_forall` and `decide_exists` (document 01, "The rest"; helpers.rs): propagation of the negation, and samples in order.
#![tactic(auto)]

mod question;

ghost use Rattle.std.specs.Prelude.{◌≡◌, IfOk};
ghost use Rattle.record.specs.Refusal.{◌or_else◌};
ghost use Rattle.record.specs.Refused.{refusal_of};
ghost use Rattle.file.specs.File.{given_refusal};
ghost use Rattle.decide.specs.Deciding.{verdict_number, later_refusal, decide_forall_given, decide_exists_given};
ghost use Rattle.decide.specs.Views.{result_of, answered, Asks};

use interval::{Count, Interval, Point};
pub use question::Question;
use record::Refusal;
use settings::Settings;

// A witness or a counterexample is its point.
#[derive(Clone, Copy)]
pub enum Verdict {
    True,
    TrueWithWitness(Point),
    FalseWithCounterexample(Point),
    Unknown,
}

impl From<Verdict> for u8 {
    ghost from_gives = { λ v n. n ≡ verdict_number (result_of v) };

    fn from(v: Verdict) -> u8 {
        match v {
            Verdict::True => 0,
            Verdict::TrueWithWitness(_) => 1,
            Verdict::FalseWithCounterexample(_) => 2,
            Verdict::Unknown => 3,
        }
    }
}

// The records' refusal, then 14 for the settings, then 9 for over 16 variables or an unsound range, then 10 for fewer places than variables.
#[tactic(auto, unfolding(crate::specs::Deciding::later_refusal, crate::specs::Deciding::range_refusal))]
fn asked<'a>(
    nodes: &'a [u8],
    constraints: &'a [u8],
    var: usize,
    range: Interval,
    num_vars: usize,
    settings: Settings,
    room: usize,
) -> Result<Question<'a>, Refusal>
    ensures refusal { refusal_of result ≡ (given_refusal nodes.now constraints.now or_else later_refusal settings range.lo range.hi num_vars room) }
    ensures value { IfOk result (Asks settings nodes.now constraints.now var range num_vars) }
{
    let records = file::read_given(nodes, constraints)?;
    settings.test()?;
    let count = Count::try_from(num_vars)?;
    if !range.is_sound() {
        return Err(Refusal::Boxes);
    }
    if room < num_vars {
        return Err(Refusal::Room);
    }
    Ok(Question {
        records,
        settings,
        var,
        range,
        count,
    })
}

// Whether the constraint holds for every value of variable `var` in [lo, hi]. `room` is how many places the caller has for a point.
#[tactic(auto, using(crate::proofs::Ways::calls), unfolding(crate::specs::Deciding::decide_forall_given))]
pub fn decide_forall(
    nodes: &[u8],
    constraints: &[u8],
    var: usize,
    lo: f64,
    hi: f64,
    num_vars: usize,
    settings: Settings,
    room: usize,
) -> Result<Verdict, Refusal>
    ensures { answered result ≡ decide_forall_given settings nodes.now constraints.now var lo hi num_vars room }
{
    let range = Interval { lo, hi };
    let question = asked(nodes, constraints, var, range, num_vars, settings, room)?;
    Ok(question.forall())
}

// Whether it holds for some value.
#[tactic(auto, using(crate::proofs::Ways::calls), unfolding(crate::specs::Deciding::decide_exists_given))]
pub fn decide_exists(
    nodes: &[u8],
    constraints: &[u8],
    var: usize,
    lo: f64,
    hi: f64,
    num_vars: usize,
    settings: Settings,
    room: usize,
) -> Result<Verdict, Refusal>
    ensures { answered result ≡ decide_exists_given settings nodes.now constraints.now var lo hi num_vars room }
{
    let range = Interval { lo, hi };
    let question = asked(nodes, constraints, var, range, num_vars, settings, room)?;
    Ok(question.exists())
}
