// Stand-in proxies in floats become rows.
ghost use Rattle.std.specs.Prelude.{◌≡◌};
ghost use Rattle.standin.specs.Rows.{proxy_refusal, box_rows, cut_row};
ghost use Rattle.export.specs.Arrays.{triple_of, box_of, cut_of};

use crate::expressions::refusal_of;
use standin::{Corners, Plane, Proxy, Solid, Triple};

// A corner, a normal or a displacement of its three floats.
pub(crate) fn triple_of(x: f64, y: f64, z: f64) -> Triple
    ensures { result ≡ triple_of x y z }
{
    Triple { x, y, z }
}

// A Box of its two corners, and its displacement.
pub(crate) fn box_of(near: Triple, far: Triple, displacement: Triple) -> Proxy
    ensures { result ≡ box_of near far displacement }
{
    Proxy {
        solid: Solid::Box(Corners { near, far }),
        displacement,
    }
}

// A Cut of its normal and its offset, and its displacement.
fn cut_of(normal: Triple, offset: f64, displacement: Triple) -> Proxy
    ensures { result ≡ cut_of normal offset displacement }
{
    Proxy {
        solid: Solid::Cut(Plane { normal, offset }),
        displacement,
    }
}

// The six rows of a Box one after the other, zeros where it is refused.
pub fn durbizhan_box(
    near_x: f64,
    near_y: f64,
    near_z: f64,
    far_x: f64,
    far_y: f64,
    far_z: f64,
    displacement_x: f64,
    displacement_y: f64,
    displacement_z: f64,
    rows: &mut [[i64; 5]; 6],
) -> u64
    ensures result_value { let near = triple_of near_x near_y near_z in
        let far = triple_of far_x far_y far_z in
        let step = triple_of displacement_x displacement_y displacement_z in
        result ≡ proxy_refusal (box_of near far step) }
    ensures rows_after { let near = triple_of near_x near_y near_z in
        let far = triple_of far_x far_y far_z in
        let step = triple_of displacement_x displacement_y displacement_z in
        rows.new ≡ box_rows (box_of near far step) }
{
    let near = triple_of(near_x, near_y, near_z);
    let far = triple_of(far_x, far_y, far_z);
    let displacement = triple_of(displacement_x, displacement_y, displacement_z);
    let proxy = box_of(near, far, displacement);
    *rows = standin::box_rows(proxy);
    refusal_of(standin::check(proxy))
}

// The row of a Cut, zeros where it is refused.
pub fn durbizhan_cut(
    normal_x: f64,
    normal_y: f64,
    normal_z: f64,
    offset: f64,
    displacement_x: f64,
    displacement_y: f64,
    displacement_z: f64,
    row: &mut [i64; 5],
) -> u64
    ensures result_value { let normal = triple_of normal_x normal_y normal_z in
        let step = triple_of displacement_x displacement_y displacement_z in
        result ≡ proxy_refusal (cut_of normal offset step) }
    ensures row_after { let normal = triple_of normal_x normal_y normal_z in
        let step = triple_of displacement_x displacement_y displacement_z in
        row.new ≡ cut_row (cut_of normal offset step) }
{
    let normal = triple_of(normal_x, normal_y, normal_z);
    let displacement = triple_of(displacement_x, displacement_y, displacement_z);
    let proxy = cut_of(normal, offset, displacement);
    *row = standin::cut_row(proxy);
    refusal_of(standin::check(proxy))
}
