// What a Ward study is given, once its buses are rows.
ghost use Rattle.std.specs.Prelude.{◌≡◌, ◌+◌, ◌<◌, ◌≤◌, T, length};
ghost use Rattle.std.proofs.Props.{props};
ghost use Rattle.binary64.specs.Values.{all_finite};
ghost use Rattle.refusals.specs.Refusals.{limit};
ghost use Rattle.ward_equivalent.specs.Inner.Work.{Listing};

use crate::rows::{BusMatrix, ExternalInjections};

// A study on one list of rows, none twice: the first e are external, those from f on boundary, the others internal.
#[derive(Clone, Copy)]
pub struct ListedStudy<'a> {
    pub matrix: BusMatrix<'a>,
    pub buses: &'a [usize],
    pub e: usize,
    pub f: usize,
    pub injections: ExternalInjections<'a>,
    ghost listing: { Listing matrix.n matrix.y.now buses.now } by { Prim.hlevel props },
    ghost few: { matrix.n ≤ limit },
    ghost distinct: { length buses.now ≤ matrix.n },
    ghost first: { e ≤ f },
    ghost last: { f ≤ length buses.now },
    ghost p_each: { length injections.p.now ≡ e },
    ghost q_each: { length injections.q.now ≡ e },
    ghost finite: { T (all_finite matrix.y.now) } by { Prim.hlevel props },
}

// The same with the list in two, some of it external: the external buses, and those kept, of which so many are internal and the others
// boundary.
#[derive(Clone, Copy)]
pub struct Parts<'a> {
    pub matrix: BusMatrix<'a>,
    pub outer: &'a [usize],
    pub kept: &'a [usize],
    pub internal: usize,
    pub injections: ExternalInjections<'a>,
    ghost external: { Listing matrix.n matrix.y.now outer.now } by { Prim.hlevel props },
    ghost retained: { Listing matrix.n matrix.y.now kept.now } by { Prim.hlevel props },
    ghost some: { 0 < length outer.now },
    ghost distinct: { length outer.now + length kept.now ≤ matrix.n },
    ghost few: { matrix.n ≤ limit },
    ghost last: { internal ≤ length kept.now },
    ghost p_each: { length injections.p.now ≡ length outer.now },
    ghost q_each: { length injections.q.now ≡ length outer.now },
    ghost finite: { T (all_finite matrix.y.now) } by { Prim.hlevel props },
}

// What the corrections read: the matrix, the external buses with their voltages, per unit, and the base in MVA.
#[derive(Clone, Copy)]
pub struct Ties<'a> {
    pub matrix: BusMatrix<'a>,
    pub outer: &'a [usize],
    pub voltages: &'a [f64],
    pub base: f64,
    ghost external: { Listing matrix.n matrix.y.now outer.now } by { Prim.hlevel props },
    ghost each: { length voltages.now ≡ length outer.now },
}
