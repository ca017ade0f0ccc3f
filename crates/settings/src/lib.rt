// The numbers of document 01 that a caller may tune (document 02 [8]) and the strict flag ([9]), in one record that every function using them receives. A
// caller gives it by value, in C's layout.
#![tactic(auto, unfolding(crate::specs::Settings::usual, number::specs::Computing::computing))]

ghost use Rattle.std.specs.Prelude.{◌≡◌};
ghost use Rattle.record.specs.Refused.{refusal_of};
ghost use Rattle.settings.specs.Settings.{usual as usual_settings, settings_refusal};

use record::Refusal;

#[repr(C)]
#[derive(Clone, Copy)]
pub struct Settings {
    // narrowing goes round at most so many times
    pub rounds: usize,
    // EqZero passes below it
    pub equality: f64,
    // the slack of GeZero, LeZero and NeZero in the check, of NeZero's conflict in narrowing, and of an end that moves
    pub slack: f64,
    // the real part of exp's argument is kept within it
    pub clamp: f64,
    // whether a real part beyond it is an error
    pub strict: bool,
}

impl Settings {
    // 14 for a parameter outside its range, as a NaN always is. A slack above 0 and below a finite equality tolerance is finite.
    #[tactic(auto, using(crate::proofs::Ranges::ordered), unfolding(crate::specs::Settings::in_range, crate::specs::Settings::settings_refusal, number::specs::Computing::computing))]
    pub fn test(self) -> Result<(), Refusal>
        ensures { refusal_of result ≡ settings_refusal self }
    {
        let rounds = (1 <= self.rounds) & (self.rounds <= 100);
        let ordered = (0.0 < self.slack) & (self.slack < self.equality);
        let finite = self.equality < f64::INFINITY;
        let clamp = (1.0 <= self.clamp) & (self.clamp <= 709.0);
        if rounds & (ordered & finite) & clamp {
            return Ok(());
        }
        Err(Refusal::Parameter)
    }
}

// Document 01's own.
pub fn usual() -> Settings
    ensures { result ≡ usual_settings }
{
    Settings {
        rounds: 20,
        equality: 1e-8,
        slack: 1e-12,
        clamp: 709.0,
        strict: false,
    }
}
