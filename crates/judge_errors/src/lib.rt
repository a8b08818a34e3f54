// The error figures of a table (request N7): how far from the truth the figure of each node may be at each slot, where the judge passes.
// Slots count from 0 here but for l, the loop slot (request N8), and the error figures of node c stand from place c·t on.
#![tactic(auto)]

ghost use Rattle.std.specs.Prelude.{◌≡◌, ◌+◌, ◌-◌, ◌*◌, ◌≤◌, ◌<◌, min, length, get_or};
ghost use Rattle.rules.specs.Quantities.{one, WindowAllowed, LoopAllowed};
ghost use Rattle.rules.specs.Rule.Window.{within};
ghost use Rattle.rules.specs.Table.{node_at};
ghost use Rattle.rules.specs.Table.Node.{windowed};
ghost use Rattle.rules.specs.TableTest.{record_count, nodes_in};
ghost use Rattle.rules.specs.Errors.Figures.{root_error};
ghost use Rattle.judge_errors.specs.Worked.{places, Room, Small, figure_at, Done, down};
ghost use Rattle.judge_errors.specs.Window.{Running, Rising, rise, window_rise};
ghost use Rattle.judge_errors.specs.Count.{counting_of, parts_of, PartsIn, PartsBelow, parts_at, later_at};
ghost use Rattle.judge_errors.specs.Count.{figure_now, figure_atom, figure_here, kept_later, later_end, figure_later};
ghost use Rattle.judge_errors.specs.Known.{Known};

use millionths::Millionths;
use table::{Kind, Node, Plan};
use window::Looks;

// The places of the error figures of 128 nodes at 64 slots.
const PLACES: usize = 8192;

// The places of the sums of a part's first figures, of none up to all 64.
const SUMS: usize = 65;

// What a node counts beside e.
#[derive(Clone, Copy, Debug, PartialEq, Eq)]
enum Counting {
    // its atom's variable
    Atom,
    // its parts at the slot
    Here,
    // its parts at the slot and what follows: itself at the next slot, or its V
    Later,
    // its part at the slots of its window
    Window,
}

// The nodes that a node has as its parts.
#[derive(Clone, Copy)]
struct Parts {
    left: usize,
    right: Option<usize>,
}

// A window over a part.
#[derive(Clone, Copy)]
struct Windowed {
    part: usize,
    from: u16,
    to: u16,
}

// What a node of this kind counts.
fn counted_by(kind: Kind) -> Counting
    ensures { result ≡ counting_of kind }
{
    match kind {
        Kind::Atom => Counting::Atom,
        Kind::Not | Kind::And | Kind::Or | Kind::Implies => Counting::Here,
        Kind::Eventually | Kind::Always | Kind::Until => Counting::Later,
        Kind::Within | Kind::Throughout => Counting::Window,
    }
}

// The parts of a node.
fn parts_of(node: Node) -> Parts
    ensures { result ≡ parts_of node.kind node.left node.right }
{
    Parts {
        left: node.left,
        right: if table::is_binary(node.kind) {
            Some(node.right)
        } else {
            None
        },
    }
}

// "Stop at 1,000,000."
fn stopped(sum: u32) -> u32
    ensures { result ≡ min one sum }
{
    let one = Millionths::ONE.value as u32;
    sum.min(one)
}

// Where the error figures of node c start.
fn place(c: usize, t: usize) -> usize
    requires { (c ≤ 128) × (t ≤ 64) }
    ensures { (result ≡ c * t) × (result ≤ places) }
{
    c * t
}

// The error figure of node c at slot s.
fn figure_at(figures: &[u32], t: usize, c: usize, s: usize) -> u32
    requires { (c * t + t ≤ length figures.now) × (c < 128) × (t ≤ 64) × (s < t) × Small figures.now }
    ensures { (result ≡ figure_at t figures.now c s) × (result ≤ one) }
{
    figures[place(c, t) + s]
}

// The error figures of a node's parts at slot s, together.
fn parts_sum(figures: &[u32], t: usize, s: usize, parts: Parts) -> u32
    requires { PartsIn t parts figures.now × (s < t) × Small figures.now }
    ensures { (result ≡ parts_at t figures.now parts s) × (result ≤ 2 * one) }
{
    let left = figure_at(figures, t, parts.left, s);
    match parts.right {
        Some(right) => left + figure_at(figures, t, right, s),
        None => left,
    }
}

// What F, G and U count at slot s beside what follows: their parts and, where nothing follows, the last of them alone.
fn later_sum(figures: &[u32], t: usize, s: usize, parts: Parts, follows: bool) -> u32
    requires { PartsIn t parts figures.now × (s < t) × Small figures.now }
    ensures { (result ≡ later_at t figures.now parts follows s) × (result ≤ 2 * one) }
{
    if follows {
        parts_sum(figures, t, s, parts)
    } else {
        figure_at(figures, t, parts.right.unwrap_or(parts.left), s)
    }
}

// The error figure at slot l of the V of F, G or U, which nothing follows after the last slot. `sum` is the figure without the stop:
// stopping in the end gives the same.
fn kept_figure(figures: &[u32], t: usize, l: usize, parts: Parts, e: u16) -> u32
    requires { PartsIn t parts figures.now × LoopAllowed t l × Small figures.now }
    ensures { (result ≡ down t (kept_later t e figures.now parts) (t + 1 - l)) × (result ≤ one) }
{
    let mut sum: u32 = 0;
    for s in (l - 1..t).rev() {
        sum += u32::from(e) + later_sum(figures, t, s, parts, s + 1 < t);
    }
    stopped(sum)
}

// What F, G and U have behind the last slot: their V at slot l or, where the last slot is repeated, nothing.
fn end_figure(figures: &[u32], t: usize, l: usize, parts: Parts, e: u16) -> u32
    requires { PartsIn t parts figures.now × LoopAllowed t l × Small figures.now }
    ensures { (result ≡ later_end t l e figures.now parts) × (result ≤ one) }
{
    if l < t {
        kept_figure(figures, t, l, parts, e)
    } else {
        0
    }
}

// Writes the error figures of node n, an atom's.
fn work_atom(figures: &mut [u32], t: usize, n: usize, e: u16)
    requires { Room t n figures.old × Small figures.old }
    ensures { Done t n (figure_atom e) figures.old figures.new }
{
    let here = place(n, t);
    let figure = stopped(u32::from(e) + u32::from(e));
    for s in (0..t).rev() {
        figures[here + s] = figure;
    }
}

// Writes the error figures of node n, which counts its parts at the slot itself.
fn work_here(figures: &mut [u32], t: usize, n: usize, parts: Parts, e: u16)
    requires { Room t n figures.old × Small figures.old × PartsBelow n parts }
    ensures { Done t n (figure_here t e figures.old parts) figures.old figures.new }
{
    let here = place(n, t);
    for s in (0..t).rev() {
        figures[here + s] = stopped(u32::from(e) + parts_sum(figures, t, s, parts));
    }
}

// Writes the error figures of node n, F, G or U. `sum` is the figure without the stop, and starts as what follows the last slot.
fn work_later(figures: &mut [u32], t: usize, l: usize, n: usize, parts: Parts, e: u16)
    requires { Room t n figures.old × Small figures.old × PartsBelow n parts × LoopAllowed t l }
    ensures { Done t n (figure_later t l e figures.old parts) figures.old figures.new }
{
    let here = place(n, t);
    let loops = l < t;
    let mut sum = end_figure(figures, t, l, parts, e);
    for s in (0..t).rev() {
        let follows = s + 1 < t || loops;
        sum += u32::from(e) + later_sum(figures, t, s, parts, follows);
        figures[here + s] = stopped(sum);
    }
}

// Puts the sums of the first figures of a part, whose t error figures stand from place p on: at place i that of the first i.
fn sum_up(figures: &[u32], p: usize, t: usize, sums: &mut [u32])
    requires { (p + t ≤ length figures.now) × (t ≤ 64) × (t < length sums.old) × (get_or sums.old 0 0 ≡ 0) × Small figures.now }
    ensures { Running figures.now p t sums.new }
{
    let mut sum: u32 = 0;
    for i in 0..t {
        sum += figures[p + i];
        sums[i + 1] = sum;
    }
}

// The k figures from the i-th on, together, by these sums.
fn between(sums: &[u32], i: usize, k: usize) -> u32
    requires { (i + k < length sums.now) × (get_or sums.now i 0 ≤ get_or sums.now (i + k) 0) }
    ensures { result ≡ rise sums.now i k }
{
    sums[i + k] - sums[i]
}

// The figures at a window's slots, which are in one range or in two, together.
fn window_sum(sums: &[u32], looks: Looks) -> u32
    requires { Rising (looks.first + looks.count + looks.skip) sums.now }
    ensures { (result ≡ window_rise looks sums.now) × (result ≤ 128 * one) }
{
    let first = usize::from(looks.first);
    let head = usize::from(looks.head);
    let next = first + head + usize::from(looks.skip);
    between(sums, first, head) + between(sums, next, usize::from(looks.rest))
}

// Writes the error figures of node n, which counts its part at the slots of its window.
fn work_window(figures: &mut [u32], t: usize, l: usize, n: usize, x: Windowed, e: u16)
    requires { Room t n figures.old × Small figures.old × (x.part < n) × WindowAllowed x.from x.to × LoopAllowed t l }
    ensures { Done t n (figure_now t l e figures.old (windowed within x.from x.to x.part))
        figures.old figures.new }
{
    let here = place(n, t);
    let mut sums = [0u32; SUMS];
    sum_up(figures, place(x.part, t), t, &mut sums);
    for s in (0..t).rev() {
        let looks = window::look(t as u16, l as u16, s as u16, x.from, x.to);
        figures[here + s] = stopped(u32::from(e) + window_sum(&sums, looks));
    }
}

// Writes the error figures of node n of the table.
fn work_one(plan: Plan, n: usize, e: u16, figures: &mut [u32])
    requires { (n < record_count plan.table.now) × (n * plan.t + plan.t ≤ length figures.old) × Small figures.old }
    ensures { Done plan.entry.t n (figure_now plan.entry.t plan.entry.l e figures.old (node_at (nodes_in plan.entry.table.now) n))
        figures.old figures.new }
{
    let node = plan.node(n);
    let parts = parts_of(node);
    let over = Windowed {
        part: parts.left,
        from: node.from as u16,
        to: node.to as u16,
    };
    match counted_by(node.kind) {
        Counting::Atom => work_atom(figures, plan.t, n, e),
        Counting::Here => work_here(figures, plan.t, n, parts, e),
        Counting::Later => work_later(figures, plan.t, plan.l, n, parts, e),
        Counting::Window => work_window(figures, plan.t, plan.l, n, over, e),
    }
}

// Writes the error figures of the nodes, in number order: children stand below their node.
fn work(plan: Plan, e: u16, figures: &mut [u32])
    requires { (plan.nodes * plan.t ≤ length figures.old) × Small figures.old }
    ensures { Known plan.entry.t plan.entry.l e (nodes_in plan.entry.table.now) (length figures.old) plan.entry.nodes figures.new }
{
    for n in 0..plan.nodes {
        work_one(plan, n, e, figures);
    }
}

// The root's error figure at slot 1, worked out in the lent places.
fn root_in(plan: Plan, e: u16, figures: &mut [u32]) -> u32
    requires { (plan.nodes * plan.t ≤ length figures.old) × Small figures.old }
    ensures { result ≡ root_error plan.entry.t plan.entry.l e (nodes_in plan.entry.table.now) }
{
    work(plan, e, figures);
    figures[place(plan.nodes - 1, plan.t)]
}

// The same in the lent places or, where they are too few, in its own. A function that calls itself does not become a part of its
// caller, so the frame of these 32 KB is not made where no error figure is worked out.
fn root_with(plan: Plan, e: u16, figures: &mut [u32]) -> u32
    requires { Small figures.old }
    ensures { result ≡ root_error plan.entry.t plan.entry.l e (nodes_in plan.entry.table.now) }
{
    if figures.len() < place(plan.nodes, plan.t) {
        let mut own = [0u32; PLACES];
        return root_with(plan, e, &mut own);
    }
    root_in(plan, e, figures)
}

// Places are zeros before they are written. To clear those of the largest table takes longer than to judge a small one, so a small
// table has 256 ..
fn root_of_few(plan: Plan, e: u16) -> u32
    requires { plan.nodes * plan.t ≤ 256 }
    ensures { result ≡ root_error plan.entry.t plan.entry.l e (nodes_in plan.entry.table.now) }
{
    let mut figures = [0u32; 256];
    root_in(plan, e, &mut figures)
}

// .. and any other 896 at first, less than a page of the stack.
fn root_of_more(plan: Plan, e: u16) -> u32
    ensures { result ≡ root_error plan.entry.t plan.entry.l e (nodes_in plan.entry.table.now) }
{
    let mut figures = [0u32; 896];
    root_with(plan, e, &mut figures)
}

// The root's error figure at slot 1, of a checked table.
pub fn root_figure(plan: Plan, e: u16) -> u32
    ensures { result ≡ root_error plan.entry.t plan.entry.l e (nodes_in plan.entry.table.now) }
{
    if place(plan.nodes, plan.t) <= 256 {
        root_of_few(plan, e)
    } else {
        root_of_more(plan, e)
    }
}
