// Intervals of two f64 (document 01, "Narrowing"), with the methods of interval.rs. They take any f64 and refuse nothing.
#![tactic(auto)]

mod count; // how many of either
mod domain; // boxes: an interval for each variable
mod ends; // boxes as two lists of ends, as C gives them
mod point; // a value for each variable

ghost use Rattle.std.specs.Prelude.{◌≡◌};
ghost use Rattle.std.specs.Float.{binary64};
ghost use Rattle.number.specs.Sound.{sound};
ghost use Rattle.interval.specs.Interval.{◌‥◌, is_empty, width, midpoint, contains, split, intersect, hull, exp, has_ln, ln, plus, minus, moves};

pub use count::Count;
pub use domain::{Domain, all_sound, box_at, is_domain};
pub use ends::{domain_is_empty, domain_new, write_ends};
pub use point::Point;

#[repr(C)]
#[derive(Clone, Copy)]
pub struct Interval {
    pub lo: f64,
    pub hi: f64,
}

// The two halves of an interval.
#[derive(Clone, Copy)]
pub struct Halves {
    pub lower: Interval,
    pub upper: Interval,
}

impl Interval {
    pub fn new(lo: f64, hi: f64) -> Self
        ensures { result ≡ (lo ‥ hi) }
    {
        Self { lo, hi }
    }

    pub fn point(v: f64) -> Self
        ensures { result ≡ (v ‥ v) }
    {
        Self::new(v, v)
    }

    #[tactic(auto, unfolding(crate::specs::Interval::is_empty))]
    pub fn is_empty(self) -> bool
        ensures { result ≡ is_empty self }
    {
        (self.hi < self.lo) | self.lo.is_nan() | self.hi.is_nan()
    }

    // Whether a call takes it as a box.
    pub fn is_sound(self) -> bool
        ensures { result ≡ sound binary64 self.lo self.hi }
    {
        number::is_sound(self.lo, self.hi)
    }

    #[tactic(auto, unfolding(crate::specs::Interval::width))]
    pub fn width(self) -> f64
        ensures { result ≡ width self }
    {
        self.hi - self.lo
    }

    #[tactic(auto, unfolding(crate::specs::Interval::midpoint, number::specs::Computing::computing))]
    pub fn midpoint(self) -> f64
        ensures { result ≡ midpoint self }
    {
        (self.lo + self.hi) / 2.0
    }

    #[tactic(auto, unfolding(crate::specs::Interval::contains))]
    pub fn contains(self, x: f64) -> bool
        ensures { result ≡ contains self x }
    {
        (x >= self.lo) & (x <= self.hi)
    }

    #[tactic(auto, unfolding(crate::specs::Interval::split))]
    pub fn split(self) -> Halves
        ensures { result ≡ split self }
    {
        let mid = self.midpoint();
        Halves {
            lower: Self::new(self.lo, mid),
            upper: Self::new(mid, self.hi),
        }
    }

    #[tactic(auto, unfolding(crate::specs::Interval::intersect))]
    pub fn intersect(self, other: Interval) -> Self
        ensures { result ≡ intersect self other }
    {
        Self::new(
            number::max(self.lo, other.lo),
            number::min(self.hi, other.hi),
        )
    }

    #[tactic(auto, unfolding(crate::specs::Interval::hull))]
    pub fn hull(self, other: Interval) -> Self
        ensures { result ≡ hull self other }
    {
        Self::new(
            number::min(self.lo, other.lo),
            number::max(self.hi, other.hi),
        )
    }

    // The ends of a point are computed once.
    #[tactic(auto, using(crate::proofs::Points::point_exp), unfolding(crate::specs::Interval::exp))]
    pub fn exp(self) -> Self
        ensures { result ≡ exp self }
    {
        if self.lo == self.hi {
            return Self::point(maths::quick_exp(self.lo));
        }
        Self::new(maths::exp(self.lo), maths::exp(self.hi))
    }

    // Whether ln is real on it.
    #[tactic(auto, using(crate::proofs::Floats::finite_test), unfolding(crate::specs::Interval::has_ln, number::specs::Computing::computing))]
    pub fn has_ln(self) -> bool
        ensures { result ≡ has_ln self }
    {
        !((self.lo <= 0.0) | !self.lo.is_finite() | !self.hi.is_finite())
    }

    #[tactic(auto, using(crate::proofs::Points::point_ln), unfolding(crate::specs::Interval::ln, number::specs::Computing::computing))]
    pub fn ln(self) -> Self
        ensures { result ≡ ln self }
    {
        if !self.has_ln() {
            return Self::new(1.0 / 0.0, -1.0 / 0.0);
        }
        if self.lo == self.hi {
            return Self::point(maths::quick_ln(self.lo));
        }
        Self::new(maths::ln(self.lo), maths::ln(self.hi))
    }

    // Where exp lies in it.
    pub fn exp_inv(self) -> Self
        ensures { result ≡ ln self }
    {
        self.ln()
    }

    // Where ln lies in it.
    pub fn ln_inv(self) -> Self
        ensures { result ≡ exp self }
    {
        self.exp()
    }

    #[tactic(auto, unfolding(crate::specs::Interval::plus))]
    pub fn plus(self, other: Interval) -> Self
        ensures { result ≡ plus self other }
    {
        Self::new(self.lo + other.lo, self.hi + other.hi)
    }

    #[tactic(auto, unfolding(crate::specs::Interval::minus))]
    pub fn minus(self, other: Interval) -> Self
        ensures { result ≡ minus self other }
    {
        Self::new(self.lo - other.hi, self.hi - other.lo)
    }

    // Whether an end of `new` lies inside by over the slack.
    #[tactic(auto, unfolding(crate::specs::Interval::moves))]
    pub fn moves(self, new: Interval, slack: f64) -> bool
        ensures { result ≡ moves slack self new }
    {
        (new.lo > self.lo + slack) | (new.hi < self.hi - slack)
    }
}
