//! How the sums of a window move when it loses its first cell and gains a last one.

ghost use Rattle.pl_factors.specs.Laws.{SumSlides, CountSlides, ProductsSlide, PlacedSlides, GainsSlide, LossesSlide, GreatestSlides, LeastSlides, WindowsSlide};

/// The sum, the count, the products, the placed sum, the gains and the losses of a window, from those of the
/// window before it: what the lost cell gave is taken off, and what the new one gives is added.
pub fn sums_slide()
    ensures sum { SumSlides }
    ensures count { CountSlides }
    ensures products { ProductsSlide }
    ensures placed { PlacedSlides }
    ensures gains { GainsSlide }
    ensures losses { LossesSlide }
{}

/// The greatest and the least cell of a window, from those of the window before it, where the lost cell was
/// not the extreme.
pub fn extremes_slide()
    ensures greatest { GreatestSlides }
    ensures least { LeastSlides }
{}

/// A list one cell longer than the window, newest last, holds the window before, which is all but its last
/// cell, and the window after, which is all but its first.
pub fn windows_slide()
    ensures { WindowsSlide }
{}
