// Boxes: an interval for each variable (IntervalDomain of interval.rs).
ghost use Rattle.std.specs.Prelude.{◌≡◌, ◌<◌, ◌≤◌, length, get_or, set, replicate};
ghost use Rattle.interval.specs.Boxes.{missing, starting, midpoints, all_below, widest, any_empty, all_sound, is_domain};

use super::Interval;
use super::count::Count;
use super::point::Point;

// The box of a variable beyond the list.
pub const MISSING: Interval = Interval {
    lo: -10.0,
    hi: 10.0,
};

// The box of variable i.
#[tactic(auto, unfolding(crate::specs::Boxes::missing, number::specs::Computing::computing))]
pub fn box_at(boxes: &[Interval], i: usize) -> Interval
    ensures { result ≡ get_or boxes.now i missing }
{
    boxes.get(i).copied().unwrap_or(MISSING)
}

// Whether a call takes each of them.
#[tactic(auto, unfolding(crate::specs::Boxes::all_sound))]
pub fn all_sound(boxes: &[Interval]) -> bool
    ensures { result ≡ all_sound boxes.now }
{
    boxes.iter().all(|b| b.is_sound())
}

// Whether a call takes the list: at most 16 boxes, and each sound.
pub fn is_domain(boxes: &[Interval]) -> bool
    ensures { result ≡ is_domain boxes.now }
{
    boxes.len() <= 16 && all_sound(boxes)
}

// At most 16 boxes by value: the first `count` of the list. (An array and a count: no heap. Not one generic list for boxes and values: the
// places past a point's values are 0, which `table` reads.)
#[derive(Clone, Copy)]
pub struct Domain {
    pub boxes: [Interval; 16],
    pub count: Count,
}

impl Domain {
    ghost use Rattle.interval.specs.Views.{intervals_of, values_of};

    // `count` boxes: the first of the bounds, [-10, 10] for a missing one.
    #[tactic(auto, using(crate::proofs::Loops::started_16), unfolding(crate::specs::Boxes::missing, number::specs::Computing::computing))]
    pub fn new(bounds: &[Interval], count: Count) -> Domain
        ensures { (result.count.n ≡ count.n) × (intervals_of result ≡ starting count.n bounds.now) }
    {
        let known = count.n.min(bounds.len());
        let mut boxes = [MISSING; 16];
        boxes[..known].copy_from_slice(&bounds[..known]);
        Domain { boxes, count }
    }

    // `count` boxes, each v.
    #[tactic(auto, using(crate::proofs::Loops::places))]
    pub fn filled(v: Interval, count: Count) -> Domain
        ensures { (result.count.n ≡ count.n) × (intervals_of result ≡ replicate count.n v) }
    {
        Domain {
            boxes: [v; 16],
            count,
        }
    }

    // With v as box i. A box beyond the list alters nothing in it.
    #[tactic(auto, using(crate::proofs::Loops::places))]
    pub fn with(self, i: usize, v: Interval) -> Domain
        ensures { (result.count.n ≡ self.count.n) × (intervals_of result ≡ set (intervals_of self) i v) }
    {
        if self.count.n <= i {
            return self;
        }
        let mut domain = self;
        domain.boxes[i] = v;
        domain
    }

    // A copy of the boxes.
    #[tactic(auto, using(crate::specs::BoxLaws::starting_all))]
    pub fn of_list(boxes: &[Interval]) -> Domain
        requires { length boxes.now ≤ 16 }
        ensures { (result.count.n ≡ length boxes.now) × (intervals_of result ≡ boxes.now) }
    {
        Self::new(boxes, Count { n: boxes.len() })
    }

    pub fn as_slice(&self) -> &[Interval]
        ensures { (result.now ≡ intervals_of self.now) × (length result.now ≡ self.now.count.n) }
    {
        &self.boxes[..self.count.n]
    }

    // `count` boxes, begun with these.
    pub fn starting(&self, count: Count) -> Domain
        ensures { (result.count.n ≡ count.n) × (intervals_of result ≡ starting count.n (intervals_of self.now)) }
    {
        Self::new(self.as_slice(), count)
    }

    // The midpoint of each box.
    #[tactic(auto, using(crate::proofs::Loops::longer), unfolding(crate::specs::Boxes::midpoints, crate::specs::Boxes::padded, number::specs::Computing::computing))]
    pub fn midpoints(&self) -> Point
        ensures { (result.count.n ≡ self.now.count.n) × (values_of result ≡ midpoints (intervals_of self.now)) }
    {
        let mut values = [0.0; 16];
        for (i, b) in self.as_slice().iter().enumerate() {
            values[i] = b.midpoint();
        }
        Point {
            values,
            count: self.count,
        }
    }

    // Whether every box is narrower than the tolerance.
    #[tactic(auto, unfolding(crate::specs::Boxes::all_below))]
    pub fn all_below(&self, tolerance: f64) -> bool
        ensures { result ≡ all_below tolerance (intervals_of self.now) }
    {
        self.as_slice().iter().all(|b| b.width() < tolerance)
    }

    // The number of the last widest box, and 0 where there is none. (A loop, which takes each width once: `max_by` compares by a closure, which
    // has to say what a NaN is.)
    #[tactic(auto, using(crate::proofs::Loops::shorter), unfolding(crate::specs::Boxes::widest_from, crate::specs::Boxes::widest, number::specs::Computing::computing))]
    pub fn widest(&self) -> usize
        ensures value { result ≡ widest (intervals_of self.now) }
        ensures inside { 0 < self.now.count.n → result < self.now.count.n }
    {
        let boxes = self.as_slice();
        let Some(first) = boxes.first() else {
            return 0;
        };
        let mut at = 0;
        let mut most = first.width();
        for i in 1..boxes.len() {
            let w = boxes[i].width();
            if w < most {
                continue;
            }
            at = i;
            most = w;
        }
        at
    }

    #[tactic(auto, unfolding(crate::specs::Boxes::any_empty))]
    pub fn is_empty(&self) -> bool
        ensures { result ≡ any_empty (intervals_of self.now) }
    {
        self.as_slice().iter().any(|b| b.is_empty())
    }
}
