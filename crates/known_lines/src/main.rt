// Runs document 01's known lines by every drawer and by a second drawer that rounds each coordinate by itself; document 02's
// pairs of lines, a nudge of the second end and an exchange of the ends; lines by lists of bands, and both ways; then every
// line of a small square. Prints a line for each, with `differ` at its end where a drawer's raster or count is not the second
// drawer's, where not all refuse alike, where a refusal changes a buffer, or where a pair is not as document 02 says.
#![tactic(auto)]

mod banded;
mod both;
mod distance;
mod drawers;
mod exchanged;
mod lettered;
mod limits;
mod nudge;
mod placed;
mod print;
mod second;
mod small;
mod square;

use std::io;

fn main(rt: HostRuntime) -> io::Result<()> {
    lettered::show_all(&rt)?;
    limits::show_all(&rt)?;
    nudge::show_all(&rt)?;
    exchanged::show_all(&rt)?;
    banded::show_all(&rt)?;
    both::show_all(&rt)?;
    square::show_all(&rt)
}
