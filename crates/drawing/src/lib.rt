// What every drawing is made of, whatever is drawn: the whole window's, a band's, and a list of bands'. The definitions say once, of any
// figure, what a drawing answers and leaves. `draw_whole`, `draw_in_band` and `draw_by_bands` take every input.
#![tactic(auto)]

pub mod band;
pub mod calls;
pub mod counts;
pub mod draw;
