// How an answer goes to the caller's places. A refusal leaves them as they were.
ghost use Rattle.std.specs.Prelude.{◌≡◌, ◌≤◌, length};
ghost use Rattle.record.specs.Leaving.{◌leaving◌};
ghost use Rattle.record.specs.Refused.{numbered, refusal_of};
ghost use Rattle.record.specs.Views.{old, final};
ghost use Rattle.interval.specs.Views.{values_of};
ghost use Rattle.eml.specs.Answers.{placed};
ghost use Rattle.eml.specs.Places.{with_point};

use interval::Point;
use record::Refusal;

// The number of the refusal, or 0.
pub fn refusal_number<T: Drop>(answer: Result<T, Refusal>) -> u8
    ensures { result ≡ refusal_of answer }
{
    if let Err(refusal) = answer {
        return refusal.into();
    }
    0
}

pub fn put<T: Copy>(answer: Result<T, Refusal>, place: &mut T) -> u8
    ensures { (result leaving final place) ≡ placed (numbered answer) (old place) }
{
    match answer {
        Ok(x) => {
            *place = x;
            0
        }
        Err(refusal) => refusal.into(),
    }
}

// The values of a point, to the first places, and how many they are.
pub fn put_point(point: &Point, places: &mut [f64]) -> usize
    requires { length (values_of point.now) ≤ length places.old }
    ensures { (result ≡ length (values_of point.now)) × (final places ≡ with_point (values_of point.now) (old places)) }
{
    let values = point.as_slice();
    places[..values.len()].copy_from_slice(values);
    values.len()
}
