// The exports of `eml::normal_form`.
ghost use Rattle.std.specs.Prelude.{◌≡◌};
ghost use Rattle.record.specs.Leaving.{◌leaving◌};
ghost use Rattle.normal.specs.Given.{to_nnf_given};
ghost use Rattle.record.specs.Views.{old, final};
ghost use Rattle.eml.specs.Answers.{writing, placed};

#[unsafe(no_mangle)]
pub extern "C" fn eml_to_nnf(
    nodes: &[u8],
    constraints: &[u8],
    out: &mut [u8],
    records: &mut usize,
) -> u8
    ensures { (result leaving (final records, final out)) ≡ writing placed (to_nnf_given nodes.now constraints.now (old out)) (old records) }
{
    eml::normal_form::eml_to_nnf(nodes, constraints, out, records)
}
