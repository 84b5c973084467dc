//! Who is kept on a day.
ghost use Rattle.std.specs.Prelude.{◌≡◌, ◌≤◌, ◌<◌, length, vec_capacity, All, IfSome};
ghost use Rattle.pl_cross.specs.Listing.{labels_in};
ghost use Rattle.pl_terms.specs.Checked.{IsChecked, pipeline_of};
ghost use Rattle.pl_daily.specs.TermDays.{number_row};
ghost use Rattle.pl_daily.specs.Kept.{kept_places};

use crate::leaves::is_kept;
use crate::term_day::TermCells;
use pl_assets::Assets;
use pl_terms::Checked;

/// Puts the columns of the assets that live on the day and pass the screen, ascending, into room for all. The
/// screen is given by its row. It takes no memory.
pub(crate) fn put_kept(assets: &Assets, day: i32, screen: Option<&[i64]>, kept: &mut Vec<u32>)
    requires room { length assets.now ≤ vec_capacity kept.old }
    requires screen { IfSome screen (λ row. length row.now ≡ length assets.now) }
    ensures kept { kept.new.items ≡ kept_places assets.now day (labels_in screen.entry) }
    ensures room { length assets.now ≤ vec_capacity kept.new }
    ensures within { All (λ c. c < length assets.now) kept.new.items }
{
    kept.clear();
    for col in 0..assets.len() {
        if is_kept(assets, day, screen, col) {
            kept.push(col as u32).unwrap();
        }
    }
}

/// The row of the screen, where there is one.
pub(crate) fn screen_row<'t>(checked: &Checked, terms: &'t [TermCells]) -> Option<&'t [i64]>
    requires checked { IsChecked (pipeline_of checked.now) }
    requires many { length terms.now ≡ length (pipeline_of checked.now).graph }
    ensures { labels_in result ≡ number_row terms.now (pipeline_of checked.now).screen }
{
    match checked.screen() {
        Some(t) => Some(&terms[t.0 as usize].row),
        None => None,
    }
}
