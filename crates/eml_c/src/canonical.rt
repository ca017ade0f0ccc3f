// The exports of `eml::canonical`.
ghost use Rattle.std.specs.Prelude.{◌≡◌};
ghost use Rattle.record.specs.Leaving.{◌leaving◌};
ghost use Rattle.tree.specs.Canonical as Canonical;
ghost use Rattle.constraint.specs.Comparison.{compared};
ghost use Rattle.constraint.specs.declared.Relation.{Relation};
ghost use Rattle.record.specs.Views.{old, final};
ghost use Rattle.eml.specs.Answers.{appended};

#[unsafe(no_mangle)]
pub extern "C" fn eml_canonical_ln(nodes: &mut [u8], count: usize, x: usize) -> u8
    ensures { (result leaving final nodes) ≡ appended (Canonical.ln (old nodes) count x) }
{
    eml::canonical::eml_canonical_ln(nodes, count, x)
}

#[unsafe(no_mangle)]
pub extern "C" fn eml_canonical_sub(nodes: &mut [u8], count: usize, x: usize, y: usize) -> u8
    ensures { (result leaving final nodes) ≡ appended (Canonical.sub (old nodes) count x y) }
{
    eml::canonical::eml_canonical_sub(nodes, count, x, y)
}

#[unsafe(no_mangle)]
pub extern "C" fn eml_lt(nodes: &mut [u8], count: usize, x: usize, y: usize, out: &mut [u8]) -> u8
    ensures { (result leaving (final nodes, final out)) ≡ appended (compared Relation.LtZero (old nodes) count x y (old out)) }
{
    eml::canonical::eml_lt(nodes, count, x, y, out)
}

#[unsafe(no_mangle)]
pub extern "C" fn eml_le(nodes: &mut [u8], count: usize, x: usize, y: usize, out: &mut [u8]) -> u8
    ensures { (result leaving (final nodes, final out)) ≡ appended (compared Relation.LeZero (old nodes) count x y (old out)) }
{
    eml::canonical::eml_le(nodes, count, x, y, out)
}

#[unsafe(no_mangle)]
pub extern "C" fn eml_gt(nodes: &mut [u8], count: usize, x: usize, y: usize, out: &mut [u8]) -> u8
    ensures { (result leaving (final nodes, final out)) ≡ appended (compared Relation.GtZero (old nodes) count x y (old out)) }
{
    eml::canonical::eml_gt(nodes, count, x, y, out)
}

#[unsafe(no_mangle)]
pub extern "C" fn eml_ge(nodes: &mut [u8], count: usize, x: usize, y: usize, out: &mut [u8]) -> u8
    ensures { (result leaving (final nodes, final out)) ≡ appended (compared Relation.GeZero (old nodes) count x y (old out)) }
{
    eml::canonical::eml_ge(nodes, count, x, y, out)
}
