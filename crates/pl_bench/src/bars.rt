//! The bars.

ghost use Rattle.std.specs.Prelude.{◌≡◌, ◌≤◌, ◌++◌, ◌^◌, ◌*ℤ◌, unsigned_abs, IfOk, OnOk};
ghost use Rattle.pl_spec.specs.Rounding.{div_round};
ghost use Rattle.pl_bench.specs.Draws.{behind};
ghost use Rattle.pl_bench.specs.StatedWorld.{IsPrice, bars_from, bars_of_asset, next_price};

use crate::draws::Draws;
use crate::world::{ASSETS, SESSIONS};
use pl_bars::{BarRow, Bars};
use pl_fixed::div_round;
use std::alloc::{AllocError, Global};

const MILLION: i64 = 1_000_000;

/// The bars of each asset by ascending sid.
pub(crate) fn draw_bars(alloc: Global, draws: &mut Draws) -> Result<Bars, AllocError>
    ensures bars { IfOk result (λ b. b ≡ bars_from draws.old) }
    ensures draws { OnOk result (draws.new ≡ behind draws.old 480400) }
{
    let mut rows = Vec::new(alloc);
    for col in 0..ASSETS {
        draw_asset(col, draws, &mut rows)?;
    }
    Ok(Bars::from_rows(rows))
}

// Puts the bars of the asset in a column, one for each session, after the rows.
fn draw_asset(col: u32, draws: &mut Draws, rows: &mut Vec<BarRow>) -> Result<(), AllocError>
    ensures rows { OnOk result (rows.new.items ≡ rows.old.items ++ bars_of_asset draws.old col) }
    ensures draws { OnOk result (draws.new ≡ behind draws.old 1201) }
{
    let mut price = (20 + i64::from(draws.draw(80))) * MILLION;
    for session in 0..SESSIONS {
        price = next_price(price, draws.draw(401));
        let volume = (1000 + i64::from(draws.draw(100_000))) * MILLION;
        let cells = [price, price, price, price, volume];
        rows.push(BarRow {
            col,
            session,
            cells,
        })?;
    }
    Ok(())
}

// The price of the next session, whose draw says how it changes.
fn next_price(price: i64, draw: u32) -> i64
    requires price { IsPrice (10 ^ 15) price }
    requires draw { draw ≤ 400 }
    ensures { result ≡ next_price price draw }
{
    let grown = price + change_of(price, i64::from(draw) - 200);
    if grown < MILLION { MILLION } else { grown }
}

// So many ten-thousandths of a price.
fn change_of(price: i64, parts: i64) -> i64
    requires price { IsPrice (10 ^ 15) price }
    requires parts { unsigned_abs parts ≤ 200 }
    ensures value { result ≡ div_round (price *ℤ parts) 10000 }
    ensures small { unsigned_abs result ≤ 10 ^ 15 }
{
    div_round(i128::from(price) * i128::from(parts), 10_000) as i64
}
