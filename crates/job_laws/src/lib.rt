//! Laws of what a deck denotes: its areas are decided, and the height of its bands doesn't change them.
#![tactic(auto)]

mod areas;
mod bands;

pub use areas::area_laws;
pub use bands::band_law;
