// Stand-in proxies in floats become rows, in two steps: floats to sixteenths, sixteenths to rows.
#![tactic(auto)]

ghost use Rattle.std.specs.Prelude.{◌≡◌, ◌≤◌, T, unsigned_abs};
ghost use Rattle.universe.specs.Universe.{offset_limit, coefficient_limit};
ghost use Rattle.universe.specs.Told.{number_told};
ghost use Rattle.standin.specs.Sixteenths.{corner_limit, normal_limit};
ghost use Rattle.standin.specs.Rows.{at_most, dot, row_across, rows_between, is_limited, rows_within};
ghost use Rattle.standin.specs.Rows.{scaled_triple, corner_sixteenths};
ghost use Rattle.standin.specs.Rows.{proxy_refusal, box_row_count, box_rows, cut_row_count, cut_row};
ghost use Rattle.standin.specs.Held.{is_limit, scaled_of, scaled_box, scaled_cut, scaled_proxy, Limited};

use universe::{Refusal, Universe};

// A corner, a normal or a displacement.
#[derive(Clone, Copy, Debug, PartialEq)]
pub struct Triple {
    pub x: f64,
    pub y: f64,
    pub z: f64,
}

// The two corners of a Box.
#[derive(Clone, Copy, Debug, PartialEq)]
pub struct Corners {
    pub near: Triple,
    pub far: Triple,
}

// The normal and the offset of a Cut.
#[derive(Clone, Copy, Debug, PartialEq)]
pub struct Plane {
    pub normal: Triple,
    pub offset: f64,
}

// A Box between its corners, or a Cut, which holds where n·x + c ≥ 0.
#[derive(Clone, Copy, Debug, PartialEq)]
pub enum Solid {
    Box(Corners),
    Cut(Plane),
}

// A solid, and its displacement per frame.
#[derive(Clone, Copy, Debug, PartialEq)]
pub struct Proxy {
    pub solid: Solid,
    pub displacement: Triple,
}

impl Proxy {
    // 4,096 in sixteenths: how large a corner's number and an offset may be.
    pub const CORNER_LIMIT: i64 = 65_536;

    // 64 in sixteenths: how large a normal's and a displacement's number may be.
    pub const NORMAL_LIMIT: i64 = 1_024;
}

// Three numbers in sixteenths. It and `Triple` stay two structs: both names are public, and only whole numbers have
// `Eq`. It has no operators: a public `-` or `*` would have to ask that its numbers keep limits.
#[derive(Clone, Copy, Debug, PartialEq, Eq)]
pub struct Numbers {
    pub x: i64,
    pub y: i64,
    pub z: i64,
}

// A Box and a Cut in sixteenths, each with its displacement. The limits stay with the functions that ask for them: as
// an invariant here, each definition that builds one would carry their proofs.
#[derive(Clone, Copy)]
struct ScaledBox {
    near: Numbers,
    far: Numbers,
    displacement: Numbers,
}

#[derive(Clone, Copy)]
struct ScaledCut {
    normal: Numbers,
    offset: i64,
    displacement: Numbers,
}

// A proxy in sixteenths: what a Box holds, or what a Cut holds.
#[derive(Clone, Copy)]
enum Scaled {
    Box(ScaledBox),
    Cut(ScaledCut),
}

// The first step. 16·x is cut to a whole number, which is taken if it is within the limit and over 16 gives x back.
fn scale(x: f64, limit: i64) -> Option<i64>
    requires { T (is_limit limit) }
    ensures { result ≡ scaled_of x limit }
{
    let y = x * 16.0;
    if y >= -9223372036854775808.0 && y < 9223372036854775808.0 {
        let z = std::num::truncating_f64_to_i64(y);
        if -limit <= z && z <= limit && std::num::nearest_i64_to_f64(z) * 0.0625 == x {
            return Some(z);
        }
    }
    None
}

// The three numbers of a triple.
#[tactic(auto, using(crate::proofs::Held::triple_laws))]
fn scale_triple(triple: Triple, limit: i64) -> Option<Numbers>
    requires { T (is_limit limit) }
    ensures { result ≡ scaled_triple (unsigned_abs limit) triple }
{
    let x = scale(triple.x, limit)?;
    let y = scale(triple.y, limit)?;
    let z = scale(triple.z, limit)?;
    Some(Numbers { x, y, z })
}

// Whether a ≤ b on each axis.
fn in_order(a: Numbers, b: Numbers) -> bool
    ensures { result ≡ at_most a b }
{
    a.x <= b.x && a.y <= b.y && a.z <= b.z
}

// A Box in sixteenths.
#[tactic(auto, using(crate::proofs::Held::box_laws))]
fn scale_box(corners: Corners, displacement: Triple) -> Option<ScaledBox>
    ensures { result ≡ scaled_box corners displacement }
{
    let near = scale_triple(corners.near, Proxy::CORNER_LIMIT)?;
    let far = scale_triple(corners.far, Proxy::CORNER_LIMIT)?;
    let displacement = scale_triple(displacement, Proxy::NORMAL_LIMIT)?;
    in_order(near, far).then_some(ScaledBox {
        near,
        far,
        displacement,
    })
}

// A Cut in sixteenths.
#[tactic(auto, using(crate::proofs::Held::cut_laws))]
fn scale_cut(plane: Plane, displacement: Triple) -> Option<ScaledCut>
    ensures { result ≡ scaled_cut plane displacement }
{
    Some(ScaledCut {
        normal: scale_triple(plane.normal, Proxy::NORMAL_LIMIT)?,
        offset: scale(plane.offset, Proxy::CORNER_LIMIT)?,
        displacement: scale_triple(displacement, Proxy::NORMAL_LIMIT)?,
    })
}

// A proxy in sixteenths, where its numbers are taken and near does not exceed far.
#[tactic(auto, unfolding(crate::specs::Held::scaled_proxy))]
fn scale_proxy(proxy: Proxy) -> Option<Scaled>
    ensures { result ≡ scaled_proxy proxy }
{
    match proxy.solid {
        Solid::Box(corners) => scale_box(corners, proxy.displacement).map(Scaled::Box),
        Solid::Cut(plane) => scale_cut(plane, proxy.displacement).map(Scaled::Cut),
    }
}

// The second step. The six rows of a Box.
fn six_rows(near: Numbers, far: Numbers, step: Numbers) -> [[i64; 5]; 6]
    requires limited { Limited offset_limit near }
    requires limited_2 { Limited offset_limit far }
    requires limited_3 { Limited coefficient_limit step }
    ensures { result ≡ rows_between near far step }
{
    [
        [-near.x, 16, 0, 0, -step.x],
        [far.x, -16, 0, 0, step.x],
        [-near.y, 0, 16, 0, -step.y],
        [far.y, 0, -16, 0, step.y],
        [-near.z, 0, 0, 16, -step.z],
        [far.z, 0, 0, -16, step.z],
    ]
}

// The scalar product.
fn dot(a: Numbers, b: Numbers) -> i64
    requires limited { Limited normal_limit a }
    requires limited_2 { Limited normal_limit b }
    ensures { result ≡ dot a b }
{
    a.x * b.x + a.y * b.y + a.z * b.z
}

// The row of a Cut.
fn one_row(normal: Numbers, offset: i64, step: Numbers) -> [i64; 5]
    requires limited { Limited normal_limit normal }
    requires offset_bound { unsigned_abs offset ≤ corner_limit }
    requires limited_2 { Limited normal_limit step }
    ensures { result ≡ row_across normal offset step }
{
    [
        16 * offset,
        16 * normal.x,
        16 * normal.y,
        16 * normal.z,
        -dot(normal, step),
    ]
}

// Whether each number is from −limit to limit.
fn is_limited(numbers: Numbers, limit: i64) -> bool
    ensures { result ≡ is_limited (unsigned_abs limit) numbers }
{
    let Numbers { x, y, z } = numbers;
    let largest = x.unsigned_abs().max(y.unsigned_abs()).max(z.unsigned_abs());
    largest <= limit.unsigned_abs()
}

// Refused where a number is not taken (rule 6.2), or near exceeds far.
#[tactic(auto, using(crate::proofs::Rows::check_laws))]
pub fn check(proxy: Proxy) -> Result<(), Refusal>
    ensures { number_told result ≡ proxy_refusal proxy }
{
    match scale_proxy(proxy) {
        Some(_) => Ok(()),
        None => Err(Refusal::BadProxy),
    }
}

// The four calls below stay apart: they are public, and docs/FUNCTIONS.md names each.
// How many rows `box_rows` gives: 6 for a Box that is not refused, else 0.
#[tactic(auto, using(crate::proofs::Rows::box_laws))]
pub fn box_row_count(proxy: Proxy) -> u64
    ensures { result ≡ box_row_count proxy }
{
    match scale_proxy(proxy) {
        Some(Scaled::Box(_)) => 6,
        _ => 0,
    }
}

// The six rows of a Box, near and far of each axis in turn (rule 6.3). Zeros where `box_row_count` is 0.
#[tactic(auto, using(crate::proofs::Rows::box_laws))]
pub fn box_rows(proxy: Proxy) -> [[i64; 5]; 6]
    ensures { result ≡ box_rows proxy }
{
    match scale_proxy(proxy) {
        Some(Scaled::Box(held)) => six_rows(held.near, held.far, held.displacement),
        _ => [[0; 5]; 6],
    }
}

// How many rows `cut_row` gives: 1 for a Cut that is not refused, else 0.
#[tactic(auto, using(crate::proofs::Rows::cut_laws))]
pub fn cut_row_count(proxy: Proxy) -> u64
    ensures { result ≡ cut_row_count proxy }
{
    match scale_proxy(proxy) {
        Some(Scaled::Cut(_)) => 1,
        _ => 0,
    }
}

// The one row of a Cut (rule 6.4). Zeros where `cut_row_count` is 0.
#[tactic(auto, using(crate::proofs::Rows::cut_laws))]
pub fn cut_row(proxy: Proxy) -> [i64; 5]
    ensures { result ≡ cut_row proxy }
{
    match scale_proxy(proxy) {
        Some(Scaled::Cut(held)) => one_row(held.normal, held.offset, held.displacement),
        _ => [0; 5],
    }
}

// A corner in sixteenths, where each of its numbers is taken (rule 6.2).
pub fn corner_sixteenths(corner: Triple) -> Option<Numbers>
    ensures { result ≡ corner_sixteenths corner }
{
    scale_triple(corner, Proxy::CORNER_LIMIT)
}

// The six rows between corners in sixteenths, which need keep no proxy limit; zeros where a row would exceed a
// halfspace's limits.
#[tactic(auto, unfolding(crate::specs::Rows::rows_within), using(crate::proofs::Held::limited_is))]
pub fn rows_between(near: Numbers, far: Numbers, displacement: Numbers) -> [[i64; 5]; 6]
    ensures { result ≡ rows_within near far displacement }
{
    if is_limited(near, Universe::OFFSET_LIMIT)
        && is_limited(far, Universe::OFFSET_LIMIT)
        && is_limited(displacement, Universe::COEFFICIENT_LIMIT)
    {
        return six_rows(near, far, displacement);
    }
    [[0; 5]; 6]
}
