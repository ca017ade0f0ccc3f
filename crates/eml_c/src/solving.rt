// The exports of `eml::solving`.
ghost use Rattle.std.specs.Prelude.{length};
ghost use Rattle.nra.specs.Calls.{solve_file, solve_given};
ghost use Rattle.record.specs.Views.{old};
ghost use Rattle.eml.specs.Places.{Solves};

use settings::Settings;

#[unsafe(no_mangle)]
pub extern "C" fn eml_solve_file(
    file: &[u8],
    limit: usize,
    tolerance: f64,
    settings: Settings,
    stop: &mut u8,
    exact: &mut bool,
    residual: &mut f64,
    halvings: &mut usize,
    count: &mut usize,
    point: &mut [f64],
) -> u8
    ensures { Solves stop exact residual halvings count point result (solve_file settings file.now limit tolerance (length (old point))) }
{
    eml::solving::eml_solve_file(
        file, limit, tolerance, settings, stop, exact, residual, halvings, count, point,
    )
}

#[unsafe(no_mangle)]
pub extern "C" fn eml_solve(
    nodes: &[u8],
    constraints: &[u8],
    lo: &[f64],
    hi: &[f64],
    limit: usize,
    tolerance: f64,
    settings: Settings,
    stop: &mut u8,
    exact: &mut bool,
    residual: &mut f64,
    halvings: &mut usize,
    count: &mut usize,
    point: &mut [f64],
) -> u8
    ensures { Solves stop exact residual halvings count point result (solve_given settings nodes.now constraints.now lo.now hi.now limit tolerance (length (old point))) }
{
    eml::solving::eml_solve(
        nodes,
        constraints,
        lo,
        hi,
        limit,
        tolerance,
        settings,
        stop,
        exact,
        residual,
        halvings,
        count,
        point,
    )
}
