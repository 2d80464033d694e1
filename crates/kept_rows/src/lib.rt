//! A shelf that keeps all rows but the documents in memory, over any shelf, and a sketch of each document.
//!
//! To read first: [`KeptRows`]. It is a `Shelf` of `hub_state` with the content, the failures and the crashes of the
//! shelf below it. It answers from its rows whatever needs no document, and by a sketch that a page may pass over an
//! incident without reading it. `specs/Drawn` says what is kept.
//!
//! The modules, from the outside in:
//!
//! - `kept_rows`: the shelf; `look_ups`: what it looks up in its rows;
//! - `sketches`: the sketches by the incidents' numbers; `seen`: the person whose page is made.
#![tactic(auto)]

mod kept_rows;
mod look_ups;
mod seen;
mod sketches;

pub use kept_rows::KeptRows;
