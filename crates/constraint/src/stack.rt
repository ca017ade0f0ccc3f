// The constraints that are finished so far, of which a record takes the last ones.
ghost use Rattle.std.specs.Prelude.{◌≡◌, ◌-◌, ◌≤◌, ◌<◌, ◌++◌, [], ◌∷◌, length, take, drop};

use std::marker::Model;

// A constraint's depth, and the most quantifiers on a path of it.
#[derive(Clone, Copy)]
pub struct Finished {
    pub depth: u8,
    pub quantifiers: u8,
}

// An array and a height: no heap. Not one generic stack with point's: they share no method but `new`.
#[derive(Drop)]
pub struct Stack {
    items: [Finished; 256],
    height: usize,
}

// A contract sees those that are there, oldest first.
impl Model for Stack {
    ghost use Rattle.std.specs.Prelude.{◌≡◌, List, ◌≤◌, length, take};
    ghost use Rattle.constraint.specs.declared.stack.Finished.{Finished};

    ghost Value = { List Finished };

    ghost view = { λ s. take s.height s.items };

    ghost invariant = { λ s. (s.height ≤ 256) × (length s.items ≡ 256) };
}

impl Stack {
    pub fn new() -> Stack
        ensures { result ≡ [] }
    {
        let none = Finished {
            depth: 0,
            quantifiers: 0,
        };
        Stack {
            items: [none; 256],
            height: 0,
        }
    }

    pub fn height(&self) -> usize
        ensures { result ≡ length self.now }
    {
        self.height
    }

    // The last m.
    #[tactic(auto, using(crate::proofs::Taking::parts))]
    pub fn last(&self, m: usize) -> &[Finished]
        requires { m ≤ length self.now }
        ensures { result.now ≡ drop (length self.now - m) self.now }
    {
        &self.items[self.height - m..self.height]
    }

    // One in the place of the last m.
    pub fn replace(&mut self, m: usize, by: Finished)
        requires { (m ≤ length self.old) × (length self.old < 256) }
        ensures { self.new ≡ take (length self.old - m) self.old ++ by ∷ [] }
    {
        let base = self.height - m;
        self.items[base] = by;
        self.height = base + 1;
    }
}
