//! Who is kept.
ghost use Rattle.std.specs.Prelude.{◌≡◌, ℕ, ◌<◌, pos, get_or, length};
ghost use Rattle.pl_spec.specs.Rounding.{IsCell};
ghost use Rattle.pl_spec.specs.Cells.{is_true, truth};
ghost use Rattle.pl_values.specs.Arrays.{kept_or};

/// 1 for true, 0 for false.
pub fn truth_of(holds: bool) -> i64
    ensures { result ≡ truth holds }
{
    if holds { 1 } else { 0 }
}

/// Is a cell 1?
pub fn is_one(cell: i64) -> bool
    ensures { result ≡ is_true cell }
{
    cell == 1
}

/// Puts the empty value where the asset is not kept, and leaves the rest as it is.
/// `empty` is that value, 0 or `MISSING`; `keep` is 1 where the asset exists and passes the mask, else 0.
pub fn keep_values(keep: &[i64], empty: i64, out: &mut [i64])
    requires { length keep.now ≡ length out.old }
    ensures length { length out.new ≡ length out.old }
    ensures each { (i : ℕ) → i < length out.old → get_or out.new i (pos 0)
        ≡ kept_or empty keep.now (λ j. get_or out.old j (pos 0)) i }
{
    for i in 0..keep.len() {
        if keep[i] != 1 {
            out[i] = empty;
        }
    }
}
