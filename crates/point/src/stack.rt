// The stack of an evaluation. It has room for the deepest tree that is accepted.
ghost use Rattle.std.specs.Prelude.{◌≡◌, ◌<◌, [], ◌∷◌, length};
ghost use Rattle.record.specs.Leaving.{◌leaving◌};
ghost use Rattle.point.specs.Machine.{popped};

use maths::Complex;
use std::marker::Model;

// An array and a height: no heap. Not one generic stack with constraint's: they share no method but `new`.
#[derive(Drop)]
pub struct Stack {
    places: [Complex; 128],
    height: usize,
}

// A contract sees its values, the top first.
impl Model for Stack {
    ghost use Rattle.std.specs.Prelude.{◌≡◌, List, ◌≤◌, length, take, reverse};
    ghost use Rattle.maths.specs.declared.Complex.{Complex};

    ghost Value = { List Complex };

    ghost view = { λ s. reverse (take s.height s.places) };

    ghost invariant = { λ s. (s.height ≤ 128) × (length s.places ≡ 128) };
}

impl Stack {
    pub fn new() -> Stack
        ensures { result ≡ [] }
    {
        Stack {
            places: [Complex { re: 0.0, im: 0.0 }; 128],
            height: 0,
        }
    }

    pub fn clear(&mut self)
        ensures { self.new ≡ [] }
    {
        self.height = 0;
    }

    pub fn push(&mut self, z: Complex)
        requires { length self.old < 128 }
        ensures { self.new ≡ z ∷ self.old }
    {
        self.places[self.height] = z;
        self.height += 1;
    }

    pub fn pop(&mut self) -> Option<Complex>
        ensures { (result leaving self.new) ≡ popped self.old }
    {
        if self.height == 0 {
            return None;
        }
        self.height -= 1;
        Some(self.places[self.height])
    }
}
