// A coefficient times a constant from -U to U, for Horner's rule at a point. That a model's product with a constant is
// one pass of these over its terms, since nothing of it is collected, is ScalingLaws `multiply_scaled`.
#![tactic(auto)]

ghost use Rattle.std.specs.Prelude.{◌≡◌, ◌*◌, ◌^◌, ◌<◌, nat_abs};
ghost use Rattle.model_scaling.specs.Scaling.{scaled_coefficient, scaled_residual};

// What a coefficient becomes.
pub fn scaled_coefficient(x: i64, c: i64) -> i64
    requires { nat_abs c * nat_abs x < 2 ^ 63 }
    ensures { result ≡ scaled_coefficient x c }
{
    let r = fixed::round(fixed::product(c, x));
    r.coefficient
}

// And what that leaves.
pub fn scaled_residual(x: i64, c: i64) -> u64
    requires { nat_abs c * nat_abs x < 2 ^ 63 }
    ensures { result ≡ scaled_residual x c }
{
    let r = fixed::round(fixed::product(c, x));
    r.residual
}
