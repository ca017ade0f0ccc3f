// Reading a file, or records without one.
ghost use Rattle.std.specs.Prelude.{◌≡◌};
ghost use Rattle.record.specs.Leaving.{◌leaving◌};
ghost use Rattle.constraint.specs.Constraint.{num_vars};
ghost use Rattle.file.specs.Answer.{answered};
ghost use Rattle.file.specs.File.{refusal, given_refusal, read_file, read_given};
ghost use Rattle.record.specs.Views.{old, final};
ghost use Rattle.eml.specs.Answers.{placed};

use crate::answers::{put, refusal_number};

// The refusal of a file, or 0.
pub fn eml_read(bytes: &[u8]) -> u8
    ensures { result ≡ refusal bytes.now }
{
    refusal_number(file::read(bytes))
}

// The refusal of records, or 0.
pub fn eml_read_records(nodes: &[u8], constraints: &[u8]) -> u8
    ensures { result ≡ given_refusal nodes.now constraints.now }
{
    refusal_number(file::read_given(nodes, constraints))
}

// The number of variables of a file's constraint, to `out`.
pub fn eml_num_vars(bytes: &[u8], out: &mut u64) -> u8
    ensures { (result leaving final out) ≡ placed (answered num_vars (read_file bytes.now)) (old out) }
{
    put(file::num_vars(bytes), out)
}

// The number of variables of the constraint of records, to `out`.
pub fn eml_num_vars_records(nodes: &[u8], constraints: &[u8], out: &mut u64) -> u8
    ensures { (result leaving final out) ≡ placed (answered num_vars (read_given nodes.now constraints.now)) (old out) }
{
    put(file::num_vars_given(nodes, constraints), out)
}
