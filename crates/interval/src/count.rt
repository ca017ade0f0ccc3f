// How many boxes or values there are.
ghost use Rattle.std.specs.Prelude.{◌≡◌, ◌≤◌};

use record::Refusal;

// At most 16.
#[derive(Clone, Copy)]
pub struct Count {
    pub n: usize,
    pub ghost few: { n ≤ 16 },
}

// 9 for more.
impl TryFrom<usize> for Count {
    type Error = Refusal;

    ghost use Rattle.std.specs.Prelude.{leb, IfOk};
    ghost use Rattle.record.specs.Refusal.{◌unless◌};
    ghost use Rattle.record.specs.Refused.{refusal_of};

    ghost try_from_gives = { λ n r. (refusal_of r ≡ (9 unless leb n 16)) × IfOk r (λ c. c.n ≡ n) };

    fn try_from(n: usize) -> Result<Count, Refusal> {
        if n <= 16 {
            return Ok(Count { n });
        }
        Err(Refusal::Boxes)
    }
}
