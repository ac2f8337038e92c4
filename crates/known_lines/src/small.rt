// Lines near (0,0): the window for all of them, and a list for each.
use line::ends::Ends;
use line_list::list::list_runs;
use raster::window::Window;

// The numbers of a list: it has room for 8 runs.
pub const LIST: usize = 24;

// Holds the lettered lines and those whose ends are exchanged.
pub const WINDOW: Window = Window {
    left: -12,
    top: -12,
    width: 24,
    height: 24,
};

// The length of the window's raster: 24 rows of 3 bytes.
pub const BYTES: usize = 72;

// Lists the line and answers its runs, none where the lister refuses it.
pub fn list_line(ends: Ends, list: &mut [i32]) -> &[[i32; 3]] {
    let count = list_runs(ends, list).map_or(0, |listing| listing.runs as usize);
    let (runs, _) = list.as_chunks::<3>();
    runs.get(..count).unwrap_or(&[])
}
