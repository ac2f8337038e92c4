// The run painter.
ghost use Rattle.std.specs.Prelude.{◌≡◌, ◌/◌, ◌^◌, ◌<◌, length, None};
ghost use Rattle.refusal.specs.Refusal.{answered};
ghost use Rattle.runs.specs.Painting.{first_bad, runs_figure, paint_answer, paint_after};
ghost use Rattle.runs.specs.Parts.{bad_check};
ghost use Rattle.runs.specs.Drawable.{runs_drawable};

use crate::run::paint_run;
use crate::stored::{Stored, run_bad};
use coordinate::Axis;
use drawing::counts::Counts;
use drawing::draw::Draw;
use raster::grid::Grid;
use raster::window::Window;
use refusal::Refusal;

// Whether the list's runs, which a `u32` counts, are lawful, or refusal 8 with the place of the first that is not.
fn check_runs(list: &[i32]) -> Result<(), Refusal>
    requires { length list.now / 3 < 2 ^ 32 }
    ensures { result ≡ bad_check (first_bad list.now (length list.now / 3)) }
{
    let (runs, _) = list.as_chunks::<3>();
    for (k, &run) in runs.iter().enumerate() {
        if run_bad(Stored::from(run)) {
            return Err(Refusal::Run(k as u32));
        }
    }
    Ok(())
}

// The runs of a list along an axis, all of them lawful and counted by a `u32`.
#[derive(Clone, Copy)]
pub struct Runs<'a> {
    pub axis: Axis,
    pub list: &'a [i32],
    pub ghost none_bad: { first_bad list.now (length list.now / 3) ≡ None },
    pub ghost few: { length list.now / 3 < 2 ^ 32 },
}

impl Draw for Runs<'_> {
    ghost figure = { λ it. runs_figure it.axis it.list.now (length it.list.now / 3) };

    ghost drawable = { λ it. runs_drawable it.axis it.list.now (length it.list.now / 3) };

    // What refuses a run is tested where the list is.
    #[tactic(auto, unfolding(refusal::specs::Refusal::first_met))]
    fn check(self) -> Result<(), Refusal> {
        Ok(())
    }

    fn mark(self, grid: Grid, raster: &mut [u8]) -> Counts {
        let (runs, _) = self.list.as_chunks::<3>();
        let mut count: u64 = 0;
        let mut fresh: u64 = 0;
        for &run in runs {
            let counts = paint_run(self.axis, Stored::from(run), grid, raster);
            count += counts.count;
            fresh += counts.fresh;
        }
        Counts { count, fresh }
    }
}

// Marks the pixels of the first `count` runs of the list that lie in the window, and answers their sum over the runs, an
// overlap counted each time, and how many pixels are fresh, an overlap once. All runs are checked before the first bit changes;
// numbers after the counted runs are not looked at. Refused (2, 3, 4, 7, and 8 with the place of the first bad run) it marks
// nothing.
pub fn paint_runs(
    axis: Axis,
    count: u32,
    list: &[i32],
    window: Window,
    raster: &mut [u8],
) -> Result<Counts, Refusal>
    ensures answered { answered result ≡ paint_answer axis count list.now window raster.old }
    ensures raster_after { raster.new ≡ paint_after axis count list.now window raster.old }
{
    window.check_frame(raster.len())?;
    let Some(counted) = list.get(..3 * count as usize) else {
        return Err(Refusal::RunCount);
    };
    check_runs(counted)?;
    let runs = Runs {
        axis,
        list: counted,
    };
    Ok(runs.mark(Grid { window }, raster))
}
