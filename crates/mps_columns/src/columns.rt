// What the writer of the columns works from.
ghost use Rattle.std.specs.Prelude.{◌≡◌, ◌≤◌, ◌<◌, length};
ghost use Rattle.rules.specs.Rows.{slack_rows};
ghost use Rattle.rules.specs.TableTest.{nodes_in};
ghost use Rattle.mps_line.specs.Bounds.{row_limit, all_parts};
ghost use Rattle.mps_users.specs.Found.{Layout, Layout-prop, Found, Found-prop};

use mps_users::Place;
use table::Plan;

// A checked table, the places of its nodes, and the number of its goal row.
#[derive(Clone, Copy)]
pub struct Columns<'a> {
    pub plan: Plan<'a>,
    pub layout: &'a [Place; 128],
    pub goal_row: usize,
    ghost laid: { Layout plan.t plan.m plan.l (nodes_in plan.table.now) plan.nodes layout.now } by { Layout-prop plan.t plan.m plan.l (nodes_in plan.table.now) plan.nodes layout.now },
    ghost goal: { goal_row ≡ length (slack_rows plan.t plan.m plan.l (nodes_in plan.table.now)) },
    ghost few: { goal_row ≤ row_limit },
}

// A part of the variables, and the nodes in whose rows it stands.
#[derive(Clone, Copy)]
pub struct Part<'a> {
    pub columns: &'a Columns<'a>,
    pub x: usize,
    pub users: &'a [u8],
    ghost low: { x < all_parts },
    ghost found: { Found columns.now.plan.m (nodes_in columns.now.plan.table.now) x users.now (length users.now) } by { Found-prop columns.now.plan.m (nodes_in columns.now.plan.table.now) x users.now (length users.now) },
}
