// The exports of `eml::reading`.
ghost use Rattle.std.specs.Prelude.{◌≡◌};
ghost use Rattle.record.specs.Leaving.{◌leaving◌};
ghost use Rattle.constraint.specs.Constraint.{num_vars};
ghost use Rattle.file.specs.Answer.{answered};
ghost use Rattle.file.specs.File.{refusal, given_refusal, read_file, read_given};
ghost use Rattle.record.specs.Views.{old, final};
ghost use Rattle.eml.specs.Answers.{placed};

#[unsafe(no_mangle)]
pub extern "C" fn eml_read(bytes: &[u8]) -> u8
    ensures { result ≡ refusal bytes.now }
{
    eml::reading::eml_read(bytes)
}

#[unsafe(no_mangle)]
pub extern "C" fn eml_read_records(nodes: &[u8], constraints: &[u8]) -> u8
    ensures { result ≡ given_refusal nodes.now constraints.now }
{
    eml::reading::eml_read_records(nodes, constraints)
}

#[unsafe(no_mangle)]
pub extern "C" fn eml_num_vars(bytes: &[u8], out: &mut u64) -> u8
    ensures { (result leaving final out) ≡ placed (answered num_vars (read_file bytes.now)) (old out) }
{
    eml::reading::eml_num_vars(bytes, out)
}

#[unsafe(no_mangle)]
pub extern "C" fn eml_num_vars_records(nodes: &[u8], constraints: &[u8], out: &mut u64) -> u8
    ensures { (result leaving final out) ≡ placed (answered num_vars (read_given nodes.now constraints.now)) (old out) }
{
    eml::reading::eml_num_vars_records(nodes, constraints, out)
}
