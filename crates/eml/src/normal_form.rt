// The normal form of a constraint, as records.
ghost use Rattle.std.specs.Prelude.{◌≡◌};
ghost use Rattle.record.specs.Leaving.{◌leaving◌};
ghost use Rattle.normal.specs.Given.{to_nnf_given};
ghost use Rattle.record.specs.Views.{old, final};
ghost use Rattle.eml.specs.Answers.{writing, placed};

use crate::answers::put;

// Writes the records of the normal form into `out` and their number into `records`; a refusal leaves both as they were.
pub fn eml_to_nnf(nodes: &[u8], constraints: &[u8], out: &mut [u8], records: &mut usize) -> u8
    ensures { (result leaving (final records, final out)) ≡ writing placed (to_nnf_given nodes.now constraints.now (old out)) (old records) }
{
    put(normal::to_nnf_given(nodes, constraints, out), records)
}
