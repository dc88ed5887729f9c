// Rows of coefficients: each coefficient times its row of a table, all added.
#![tactic(auto)]

ghost use Rattle.std.specs.Prelude.{◌≡◌, map, ◌+◌, ◌*◌, ◌^◌, ◌<◌, T, nat_abs, length, replicate};
ghost use Rattle.chebyshev.specs.Coefficients.{sum, scale, size};
ghost use Rattle.chebyshev.specs.PowerRows.{zeros, combine};
ghost use Rattle.model_curve_rows.specs.SmallRows.{rows_small};

// A row times c added to what is there, place by place.
fn add_scaled(total: &mut [i64; 16], c: i64, row: &[i64; 16])
    requires total_len { length total.old ≡ 16 }
    requires row_len { length row.now ≡ 16 }
    requires total_bound { nat_abs c * size row.now + size total.old < 2 ^ 63 }
    ensures { total.new ≡ sum (scale c row.now) total.old }
{
    for j in (0..16).rev() {
        let part = fixed::product(c, row[j]);
        let x = fixed::sum(part, total[j]);
        total[j] = x;
    }
}

// Each coefficient times its row of the table, all added into zeros, from the last one down.
pub fn combine_rows(total: &mut [i64; 16], cs: &[i64; 16], rows: &[[i64; 16]; 16])
    requires total_value { total.old ≡ zeros }
    requires cs_len { length cs.now ≡ 16 }
    requires cs_bound { size cs.now < 2 ^ 31 }
    requires t { T (rows_small rows.now) }
    ensures { total.new ≡ combine cs.now rows.now }
{
    for k in (0..16).rev() {
        let c = cs[k];
        add_scaled(total, c, &rows[k]);
    }
}
