// The pixel that the pen touches.
ghost use Rattle.std.specs.Prelude.{◌≡◌, false, Some};
ghost use Rattle.refusal.specs.Refusal.{answer, answered, first_met};
ghost use Rattle.pen.specs.Touching.{not_finite, rounded_out, point_conditions, pixel_of, touch_answer};

use crate::report::{Point, Report};
use crate::rounding::{rounded, rounds_out};
use coordinate::Pixel;
use refusal::Refusal;

// Whether a float of the point is infinite or a NaN.
#[tactic(auto, unfolding(crate::specs::Touching::not_finite), using(crate::proofs::Finite::finite_same))]
fn not_finite(point: Point) -> bool
    ensures { result ≡ not_finite point }
{
    !point.column.is_finite() || !point.row.is_finite()
}

// Whether a rounded coordinate of the point is out of range.
#[tactic(auto, unfolding(crate::specs::Touching::rounded_out))]
fn rounded_out(point: Point) -> bool
    requires { not_finite point ≡ false }
    ensures { result ≡ rounded_out point }
{
    rounds_out(point.column) || rounds_out(point.row)
}

// Whether the point can be rounded to a pixel, or refusal 13 or 14.
#[tactic(auto, unfolding(refusal::specs::Refusal::first_met))]
fn check_point(point: Point) -> Result<(), Refusal>
    ensures { answered result ≡ answer (first_met (point_conditions point)) tt }
{
    if not_finite(point) {
        return Err(Refusal::NotFinite);
    }
    if rounded_out(point) {
        return Err(Refusal::PenRange);
    }
    Ok(())
}

// The pixel nearest to a point, or refusal 13 or 14.
fn touched_at(point: Point) -> Result<Option<Pixel>, Refusal>
    ensures { answered result ≡ answer (first_met (point_conditions point)) (Some (pixel_of point)) }
{
    check_point(point)?;
    Ok(Some(Pixel {
        column: rounded(point.column),
        row: rounded(point.row),
    }))
}

// The pixel that the pen of a report touches; a pen that hovers or is lifted touches none, wherever it is. A touching pen's
// point is refused where a float is infinite or a NaN (13), else where a rounded coordinate is out of range (14).
pub fn touched(report: Report) -> Result<Option<Pixel>, Refusal>
    ensures { answered result ≡ touch_answer report }
{
    match report {
        Report::Touching(point) => touched_at(point),
        Report::Hovering(_) | Report::Lifted => Ok(None),
    }
}
