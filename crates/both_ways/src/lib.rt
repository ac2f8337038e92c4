// Drawing a line both ways, listed and painted in one raster and band by band in another, with the equal-raster rule.
#![tactic(auto)]

pub mod draw;
