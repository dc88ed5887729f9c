// The README's example: the curve x + 1/2 squared, its radius and its range, printed in units of 1/U.
#![tactic(auto)]

use model::Model;
use std::io;

// 1/2 in units of 1/U.
const HALF: i64 = (fixed::UNIT / 2) as i64;

fn main(rt: HostRuntime) -> io::Result<()> {
    // A call answers a struct: the model, and beside it a verdict that names the refusal, if there is one.
    let x = Model::variable(1, 1);
    let half = Model::constant(1, HALF);
    let sum = model::add(x.model, half.model);
    let square = model::multiply(2, sum.model, sum.model);
    let curve = square.model;
    let ends = model::range(curve);
    println!(rt; "radius {}", curve.radius)?;
    println!(rt; "range {} {}", ends.low, ends.high)?;
    Ok(())
}
