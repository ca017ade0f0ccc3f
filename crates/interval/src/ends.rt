// Boxes as two lists of ends, as C gives and takes them.
ghost use Rattle.std.specs.Prelude.{◌≡◌, ◌≤◌, length, get_or, IfOk};
ghost use Rattle.record.specs.Leaving.{◌leaving◌};
ghost use Rattle.record.specs.Refusal.{◌unless◌};
ghost use Rattle.record.specs.Refused.{refusal_of, numbered};
ghost use Rattle.record.specs.Views.{old, final};
ghost use Rattle.std.proofs.Math.Seq.{paste};
ghost use Rattle.interval.specs.Boxes.{missing, intervals, lows, highs, starting, all_sound, are_paired, are_boxes};
ghost use Rattle.interval.specs.Domain.{domain_new, domain_is_empty};
ghost use Rattle.interval.specs.Views.{intervals_of};

use super::Interval;
use super::count::Count;
use super::domain::{Domain, MISSING, all_sound};
use record::Refusal;

// How many boxes the ends make: as many as there are of each kind, at most 16; else 9.
#[tactic(auto, unfolding(crate::specs::Boxes::are_paired))]
fn count_ends(lo: &[f64], hi: &[f64]) -> Result<Count, Refusal>
    ensures refusal { refusal_of result ≡ (9 unless are_paired lo.now hi.now) }
    ensures value { IfOk result (λ c. (c.n ≡ length lo.now) × (length hi.now ≡ length lo.now)) }
{
    if lo.len() != hi.len() {
        return Err(Refusal::Boxes);
    }
    Count::try_from(lo.len())
}

impl Domain {
    // The boxes of as many ends of each kind.
    #[tactic(auto, using(crate::proofs::Loops::placed))]
    fn of_ends(lo: &[f64], hi: &[f64], count: Count) -> Domain
        requires { (count.n ≡ length lo.now) × (length hi.now ≡ length lo.now) }
        ensures { (result.count.n ≡ length lo.now) × (intervals_of result ≡ intervals lo.now hi.now) }
    {
        let mut boxes = [MISSING; 16];
        for i in 0..lo.len() {
            boxes[i] = Interval::new(lo[i], hi[i]);
        }
        Domain { boxes, count }
    }

    // The boxes of such ends, each of them sound; else 9.
    #[tactic(auto, using(record::specs::RefusalLaws::never_none), unfolding(crate::specs::Boxes::are_boxes))]
    #[inline(always)]
    pub fn of_sound_ends(lo: &[f64], hi: &[f64]) -> Result<Domain, Refusal>
        ensures refusal { refusal_of result ≡ (9 unless are_boxes lo.now hi.now) }
        ensures value { IfOk result (λ d. (d.count.n ≡ length lo.now) × (intervals_of d ≡ intervals lo.now hi.now)) }
    {
        let count = count_ends(lo, hi)?;
        let domain = Domain::of_ends(lo, hi, count);
        if !all_sound(domain.as_slice()) {
            return Err(Refusal::Boxes);
        }
        Ok(domain)
    }
}

// Writes the ends to the first places of two lists.
#[tactic(auto, using(crate::proofs::Loops::pasted))]
pub fn write_ends(boxes: &[Interval], lo: &mut [f64], hi: &mut [f64])
    requires { (length boxes.now ≤ length lo.old) × (length boxes.now ≤ length hi.old) }
    ensures lo_value { final lo ≡ paste (old lo) 0 (lows boxes.now) (length boxes.now) }
    ensures hi_value { final hi ≡ paste (old hi) 0 (highs boxes.now) (length boxes.now) }
{
    for (i, b) in boxes.iter().enumerate() {
        lo[i] = b.lo;
        hi[i] = b.hi;
    }
}

// Whether each pair of ends is a sound box. (No list of boxes is made for it.)
#[tactic(auto, using(crate::proofs::Loops::sound_ends), unfolding(crate::specs::Boxes::all_sound))]
fn are_sound(lo: &[f64], hi: &[f64]) -> bool
    requires { length hi.now ≡ length lo.now }
    ensures { result ≡ all_sound (intervals lo.now hi.now) }
{
    lo.iter().zip(hi).all(|(l, h)| number::is_sound(*l, *h))
}

// The box of variable i by its ends.
#[tactic(auto, using(crate::specs::BoxLaws::intervals_at, crate::proofs::Loops::beyond), unfolding(crate::specs::Boxes::missing, number::specs::Computing::computing))]
fn bound_at(lo: &[f64], hi: &[f64], i: usize) -> Interval
    requires { length hi.now ≡ length lo.now }
    ensures { result ≡ get_or (intervals lo.now hi.now) i missing }
{
    if i < lo.len() {
        return Interval::new(lo[i], hi[i]);
    }
    MISSING
}

// Writes the first n of the bounds, a missing one being [-10, 10], to the first places of two lists.
#[tactic(auto, using(crate::proofs::Loops::pasted, crate::proofs::Loops::begun))]
fn write_starting(lo: &[f64], hi: &[f64], n: usize, out_lo: &mut [f64], out_hi: &mut [f64])
    requires { (length hi.now ≡ length lo.now) × (n ≤ length out_lo.old) × (n ≤ length out_hi.old) }
    ensures lo_value { final out_lo ≡ paste (old out_lo) 0 (lows (starting n (intervals lo.now hi.now))) n }
    ensures hi_value { final out_hi ≡ paste (old out_hi) 0 (highs (starting n (intervals lo.now hi.now))) n }
{
    for i in 0..n {
        let b = bound_at(lo, hi, i);
        out_lo[i] = b.lo;
        out_hi[i] = b.hi;
    }
}

// ---- what the exported calls call

// IntervalDomain::new. A refusal writes nothing.
#[tactic(auto, using(record::specs::RefusalLaws::never_none), unfolding(crate::specs::Domain::domain_new, crate::specs::Domain::domain_refusal, crate::specs::Boxes::are_boxes))]
pub fn domain_new(
    lo: &[f64],
    hi: &[f64],
    n: usize,
    out_lo: &mut [f64],
    out_hi: &mut [f64],
) -> Result<(), Refusal>
    ensures { (refusal_of result leaving (final out_lo, final out_hi)) ≡ domain_new lo.now hi.now n (old out_lo) (old out_hi) }
{
    count_ends(lo, hi)?;
    if !are_sound(lo, hi) {
        return Err(Refusal::Boxes);
    }
    Count::try_from(n)?;
    if (n <= out_lo.len()) & (n <= out_hi.len()) {
        write_starting(lo, hi, n, out_lo, out_hi);
        return Ok(());
    }
    Err(Refusal::Room)
}

// IntervalDomain::is_empty.
#[tactic(auto, using(record::specs::RefusalLaws::refuses), unfolding(crate::specs::Domain::domain_is_empty))]
pub fn domain_is_empty(lo: &[f64], hi: &[f64]) -> Result<bool, Refusal>
    ensures { numbered result ≡ domain_is_empty lo.now hi.now }
{
    let count = count_ends(lo, hi)?;
    Ok(Domain::of_ends(lo, hi, count).is_empty())
}
