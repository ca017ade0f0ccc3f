// A point: a value for each variable.
ghost use Rattle.std.specs.Prelude.{◌≡◌, length, take, set, replicate, leb, IfOk};
ghost use Rattle.record.specs.Refusal.{◌unless◌};
ghost use Rattle.record.specs.Refused.{refusal_of};
ghost use Rattle.number.specs.Notation.{whole};
ghost use Rattle.interval.specs.Boxes.{padded};

use super::count::Count;
use record::Refusal;

// At most 16 values: the first `count` of the list. The other places are 0. (An array and a count: no heap.)
#[derive(Clone, Copy)]
pub struct Point {
    pub values: [f64; 16],
    pub count: Count,
    pub ghost blank: { values ≡ padded (take count.n values) },
}

#[tactic(auto, using(crate::proofs::Loops::places), unfolding(crate::specs::Boxes::padded, number::specs::Computing::computing))]
impl Point {
    ghost use Rattle.interval.specs.Views.{values_of};

    #[tactic(auto, using(crate::proofs::Loops::zeros), unfolding(number::specs::Computing::computing))]
    pub fn zeros(count: Count) -> Point
        ensures { (result.count.n ≡ count.n) × (values_of result ≡ replicate count.n (whole 0)) }
    {
        Point {
            values: [0.0; 16],
            count,
        }
    }

    // 9 for more than 16.
    pub fn new(values: &[f64]) -> Result<Point, Refusal>
        ensures refusal { refusal_of result ≡ (9 unless leb (length values.now) 16) }
        ensures value { IfOk result (λ p. values_of p ≡ values.now) }
    {
        let count = Count::try_from(values.len())?;
        let mut places = [0.0; 16];
        places[..count.n].copy_from_slice(values);
        Ok(Point {
            values: places,
            count,
        })
    }

    // With value i at x. A value beyond the point alters nothing in it.
    pub fn with(self, i: usize, x: f64) -> Point
        ensures { (result.count.n ≡ self.count.n) × (values_of result ≡ set (values_of self) i x) }
    {
        if self.count.n <= i {
            return self;
        }
        let mut point = self;
        point.values[i] = x;
        point
    }

    pub fn as_slice(&self) -> &[f64]
        ensures { (result.now ≡ values_of self.now) × (length result.now ≡ self.now.count.n) }
    {
        &self.values[..self.count.n]
    }
}
