// Stand-in proxies on both sides of every limit: a line for each, with what is answered.
#![tactic(auto)]

use standin::{Corners, Numbers, Plane, Proxy, Solid, Triple};
use std::io;
use std::io::Write;
use universe::Universe;

fn triple(x: f64, y: f64, z: f64) -> Triple {
    Triple { x, y, z }
}

fn sixteenths(x: i64, y: i64, z: i64) -> Numbers {
    Numbers { x, y, z }
}

// A Box and a Cut with a displacement.
fn box_of(near: Triple, far: Triple, displacement: Triple) -> Proxy {
    Proxy {
        solid: Solid::Box(Corners { near, far }),
        displacement,
    }
}

fn cut_of(normal: Triple, offset: f64, displacement: Triple) -> Proxy {
    Proxy {
        solid: Solid::Cut(Plane { normal, offset }),
        displacement,
    }
}

// A Box from (near, 0, 0) to (far, 0, 0) with the displacement (v, 0, 0).
fn box_along_x(near: f64, far: f64, v: f64) -> Proxy {
    box_of(
        triple(near, 0.0, 0.0),
        triple(far, 0.0, 0.0),
        triple(v, 0.0, 0.0),
    )
}

// A Cut with the normal (n, 0, 0), the offset c and the displacement (v, 0, 0).
fn cut_along_x(n: f64, c: f64, v: f64) -> Proxy {
    cut_of(triple(n, 0.0, 0.0), c, triple(v, 0.0, 0.0))
}

// x at the place asked for, 0 at the others.
fn only(place: u64, asked: u64, x: f64) -> f64 {
    if place == asked { x } else { 0.0 }
}

// A Box all of whose nine numbers are 0 but the one at a place.
fn box_with(place: u64, x: f64) -> Proxy {
    let near = triple(only(place, 0, x), only(place, 1, x), only(place, 2, x));
    let far = triple(only(place, 3, x), only(place, 4, x), only(place, 5, x));
    let displacement = triple(only(place, 6, x), only(place, 7, x), only(place, 8, x));
    box_of(near, far, displacement)
}

// A Cut all of whose seven numbers are 0 but the one at a place.
fn cut_with(place: u64, x: f64) -> Proxy {
    let normal = triple(only(place, 0, x), only(place, 1, x), only(place, 2, x));
    let displacement = triple(only(place, 4, x), only(place, 5, x), only(place, 6, x));
    cut_of(normal, only(place, 3, x), displacement)
}

fn print_row(to: &mut impl Write, row: [i64; 5]) -> io::Result<()> {
    write!(to, "  row")?;
    for n in row {
        write!(to, " {n}")?;
    }
    writeln!(to)
}

fn print_six(to: &mut impl Write, rows: [[i64; 5]; 6]) -> io::Result<()> {
    for row in rows {
        print_row(to, row)?;
    }
    Ok(())
}

// The number that refuses a proxy, or 0.
fn refusal(proxy: Proxy) -> u64 {
    match standin::check(proxy) {
        Ok(()) => 0,
        Err(refusal) => refusal.number(),
    }
}

// What is answered for a proxy: its number, and the two counts of rows.
fn answer(to: &mut impl Write, proxy: Proxy) -> io::Result<()> {
    let rows = standin::box_row_count(proxy);
    let cut_rows = standin::cut_row_count(proxy);
    writeln!(
        to,
        ": refusal {}, box rows {rows}, cut rows {cut_rows}",
        refusal(proxy)
    )
}

// One corner's, displacement's, normal's or offset's number.
fn corner(to: &mut impl Write, name: &str, x: f64) -> io::Result<()> {
    write!(to, "{name} corner")?;
    answer(to, box_along_x(x, x, 0.0))
}

fn displacement(to: &mut impl Write, name: &str, x: f64) -> io::Result<()> {
    write!(to, "{name} displacement")?;
    answer(to, box_along_x(0.0, 0.0, x))
}

fn normal(to: &mut impl Write, name: &str, x: f64) -> io::Result<()> {
    write!(to, "{name} normal")?;
    answer(to, cut_along_x(x, 0.0, 0.0))
}

fn offset(to: &mut impl Write, name: &str, x: f64) -> io::Result<()> {
    write!(to, "{name} offset")?;
    answer(to, cut_along_x(0.0, x, 0.0))
}

// A number that every place takes, or none does, at each kind of place.
fn everywhere(to: &mut impl Write, name: &str, x: f64) -> io::Result<()> {
    corner(to, name, x)?;
    displacement(to, name, x)?;
    normal(to, name, x)?;
    offset(to, name, x)
}

fn limits(to: &mut impl Write) -> io::Result<()> {
    corner(to, "4096", 4096.0)?;
    offset(to, "4096", 4096.0)?;
    corner(to, "4096 and 1/16", 4096.0625)?;
    offset(to, "4096 and 1/16", 4096.0625)?;
    corner(to, "-4096", -4096.0)?;
    offset(to, "-4096", -4096.0)?;
    corner(to, "-4096 and -1/16", -4096.0625)?;
    offset(to, "-4096 and -1/16", -4096.0625)?;
    displacement(to, "64", 64.0)?;
    normal(to, "64", 64.0)?;
    displacement(to, "64 and 1/16", 64.0625)?;
    normal(to, "64 and 1/16", 64.0625)?;
    displacement(to, "-64", -64.0)?;
    normal(to, "-64", -64.0)?;
    displacement(to, "-64 and -1/16", -64.0625)?;
    normal(to, "-64 and -1/16", -64.0625)
}

fn numbers(to: &mut impl Write) -> io::Result<()> {
    everywhere(to, "1/16", 0.0625)?;
    everywhere(to, "1/32", 0.03125)?;
    everywhere(to, "-0.0", -0.0)?;
    everywhere(to, "least subnormal", 5e-324)?;
    everywhere(to, "largest subnormal", 2.225073858507201e-308)?;
    everywhere(to, "NaN", 0.0 / 0.0)?;
    everywhere(to, "infinity", f64::INFINITY)?;
    everywhere(to, "-infinity", f64::NEG_INFINITY)?;
    everywhere(to, "largest float", 1.7976931348623157e308)
}

fn print_refusal(to: &mut impl Write, proxy: Proxy) -> io::Result<()> {
    write!(to, " {}", refusal(proxy))
}

// 1/32 at each place by itself.
fn places(to: &mut impl Write) -> io::Result<()> {
    write!(to, "1/32 at each place of a Box, and at none:")?;
    for place in 0..10 {
        print_refusal(to, box_with(place, 0.03125))?;
    }
    write!(to, "\n1/32 at each place of a Cut, and at none:")?;
    for place in 0..8 {
        print_refusal(to, cut_with(place, 0.03125))?;
    }
    write!(to, "\n1/16 at each near and each far place:")?;
    for place in 0..6 {
        print_refusal(to, box_with(place, 0.0625))?;
    }
    writeln!(to)
}

fn order(to: &mut impl Write) -> io::Result<()> {
    write!(to, "near = far")?;
    answer(to, box_along_x(2.5, 2.5, 0.0))?;
    write!(to, "near 1/16 short of far")?;
    answer(to, box_along_x(2.4375, 2.5, 0.0))?;
    write!(to, "near 1/16 past far")?;
    answer(to, box_along_x(2.5625, 2.5, 0.0))
}

// A Box with all its rows; a Cut; and each asked for the other's rows.
fn rows(to: &mut impl Write) -> io::Result<()> {
    let moving = box_along_x(2.5, 4.0, -0.25);
    write!(to, "Box, near x 2.5, far x 4, v -0.25")?;
    answer(to, moving)?;
    print_six(to, standin::box_rows(moving))?;
    writeln!(to, " asked for the row of a Cut")?;
    print_row(to, standin::cut_row(moving))?;
    let cut = cut_along_x(-1.5, 2.25, 0.5);
    write!(to, "Cut, n -1.5, c 2.25, v 0.5")?;
    answer(to, cut)?;
    print_row(to, standin::cut_row(cut))?;
    writeln!(to, " asked for the rows of a Box")?;
    print_six(to, standin::box_rows(cut))?;
    let bad = box_along_x(2.5, 2.0, -0.25);
    write!(to, "Box, near x 2.5, far x 2")?;
    answer(to, bad)?;
    print_six(to, standin::box_rows(bad))
}

// The largest numbers of a Cut.
fn largest(to: &mut impl Write) -> io::Result<()> {
    let normal = triple(64.0, -64.0, 64.0);
    let displacement = triple(-64.0, 64.0, -64.0);
    let proxy = cut_of(normal, 4096.0, displacement);
    write!(to, "Cut, every number at its limit")?;
    answer(to, proxy)?;
    print_row(to, standin::cut_row(proxy))
}

// A corner in sixteenths: whether it is taken, and its numbers.
fn in_sixteenths(to: &mut impl Write, name: &str, corner: Triple) -> io::Result<()> {
    match standin::corner_sixteenths(corner) {
        Some(Numbers { x, y, z }) => writeln!(to, "{name} in sixteenths: taken, {x} {y} {z}"),
        None => writeln!(to, "{name} in sixteenths: not taken, 0 0 0"),
    }
}

fn corners_in_sixteenths(to: &mut impl Write) -> io::Result<()> {
    in_sixteenths(to, "(4096, -4096, 1/16)", triple(4096.0, -4096.0, 0.0625))?;
    in_sixteenths(to, "(4096 and 1/16, 1, 1)", triple(4096.0625, 1.0, 1.0))?;
    in_sixteenths(to, "(1, -4096 and -1/16, 1)", triple(1.0, -4096.0625, 1.0))?;
    in_sixteenths(to, "(1, 1, 1/32)", triple(1.0, 1.0, 0.03125))?;
    in_sixteenths(to, "(1, NaN, 1)", triple(1.0, 0.0 / 0.0, 1.0))?;
    in_sixteenths(to, "(infinity, 1, 1)", triple(f64::INFINITY, 1.0, 1.0))?;
    in_sixteenths(to, "(-0.0, 2.5, -0.0)", triple(-0.0, 2.5, -0.0))
}

// The rows between (near, 0, 0) and (0, far, 0), with the displacement (0, 0, v), all in sixteenths.
fn between(to: &mut impl Write, name: &str, near: i64, far: i64, v: i64) -> io::Result<()> {
    writeln!(to, "Between, {name}")?;
    print_six(
        to,
        standin::rows_between(
            sixteenths(near, 0, 0),
            sixteenths(0, far, 0),
            sixteenths(0, 0, v),
        ),
    )
}

fn rows_in_sixteenths(to: &mut impl Write) -> io::Result<()> {
    between(
        to,
        "each number at a halfspace's limit",
        Universe::OFFSET_LIMIT,
        -Universe::OFFSET_LIMIT,
        Universe::COEFFICIENT_LIMIT,
    )?;
    between(to, "near past it", -Universe::OFFSET_LIMIT - 1, 0, 0)?;
    between(to, "far past it", 0, Universe::OFFSET_LIMIT + 1, 0)?;
    between(to, "step past it", 0, 0, -Universe::COEFFICIENT_LIMIT - 1)?;
    between(to, "the least i64s", i64::MIN, i64::MIN, i64::MIN)
}

fn main(rt: HostRuntime) -> io::Result<()> {
    let to = &mut rt.stdout();
    limits(to)?;
    numbers(to)?;
    places(to)?;
    order(to)?;
    rows(to)?;
    largest(to)?;
    corners_in_sixteenths(to)?;
    rows_in_sixteenths(to)
}
