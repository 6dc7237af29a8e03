//! Each output has a density table, whether memory suffices for its area or not.
ghost use Rattle.std.specs.Prelude.{◌<◌, List, length};
ghost use Rattle.density_map.specs.Windows.{IsWindowSize};
ghost use Rattle.deck_plan.specs.Bands.{AreRowsNear};
ghost use Rattle.density_report.specs.Tables.{Table, IsDensityTable};
ghost use Rattle.density_report.specs.Saying.{AreTables};
ghost use Rattle.density_report.specs.Rows.{HasRows};
ghost use Rattle.deck_plan.specs.Plans.{planned_area};

use crate::strips::Mesh;
use deck_plan::Plan;
use half_grid::Window;

// The output's area has a table, where no tile of it lies outside these rows. It costs nothing.
fn has_table_in(plan: &Plan, output: usize, mesh: &Mesh, _rows: Window)
    requires output { output < length plan.now.deck.outputs }
    requires size { IsWindowSize mesh.now.size }
    requires near { AreRowsNear _rows }
    requires outside { HasRows plan.now output _rows }
    ensures { (table : Table) × IsDensityTable (planned_area plan.now output) mesh.now.size table }
{
    plan.has_lists(output);
}

// The output's area has a table. It takes the time of the output's rows, and no memory.
fn has_table(plan: &Plan, output: usize, mesh: &Mesh)
    requires output { output < length plan.now.deck.outputs }
    requires size { IsWindowSize mesh.now.size }
    ensures { (table : Table) × IsDensityTable (planned_area plan.now output) mesh.now.size table }
{
    let rows = plan.rows(output);
    has_table_in(plan, output, mesh, rows);
}

/// The area of each output has a table. It takes the time of the outputs' rows, and no memory.
pub(crate) fn have_tables(plan: &Plan, mesh: &Mesh)
    requires { IsWindowSize mesh.now.size }
    ensures { (tables : List Table) × AreTables plan.now mesh.now.size (length plan.now.deck.outputs) tables }
{
    let count = plan.deck().outputs.as_slice().len();
    for output in 0..count {
        has_table(plan, output, mesh);
    }
}
