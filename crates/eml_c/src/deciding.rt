// The exports of `eml::deciding`.
ghost use Rattle.std.specs.Prelude.{length};
ghost use Rattle.decide.specs.Deciding.{decide_forall_given, decide_exists_given};
ghost use Rattle.record.specs.Views.{old};
ghost use Rattle.eml.specs.Places.{Decides};

use settings::Settings;

#[unsafe(no_mangle)]
pub extern "C" fn eml_decide_forall(
    nodes: &[u8],
    constraints: &[u8],
    var: usize,
    lo: f64,
    hi: f64,
    num_vars: usize,
    settings: Settings,
    verdict: &mut u8,
    count: &mut usize,
    point: &mut [f64],
) -> u8
    ensures { Decides verdict count point result (decide_forall_given settings nodes.now constraints.now var lo hi num_vars (length (old point))) }
{
    eml::deciding::eml_decide_forall(
        nodes,
        constraints,
        var,
        lo,
        hi,
        num_vars,
        settings,
        verdict,
        count,
        point,
    )
}

#[unsafe(no_mangle)]
pub extern "C" fn eml_decide_exists(
    nodes: &[u8],
    constraints: &[u8],
    var: usize,
    lo: f64,
    hi: f64,
    num_vars: usize,
    settings: Settings,
    verdict: &mut u8,
    count: &mut usize,
    point: &mut [f64],
) -> u8
    ensures { Decides verdict count point result (decide_exists_given settings nodes.now constraints.now var lo hi num_vars (length (old point))) }
{
    eml::deciding::eml_decide_exists(
        nodes,
        constraints,
        var,
        lo,
        hi,
        num_vars,
        settings,
        verdict,
        count,
        point,
    )
}
