// The library for other languages: document 01's calls and runs on numbers and slices. Each exported function takes
// anything that its types can hold. A slice that is too short, or a code that names no call, is answered with MISUSED,
// and nothing is changed then; every other answer is document 01's, its number 0 where nothing is refused.
#![tactic(auto)]

pub mod calls; // calls.rt: the single calls
pub mod quotients; // quotients.rt: the single call of four models
pub mod books; // books.rt: books written
pub mod runs; // runs.rt: sheets and books run
pub mod shares; // shares.rt: the same with where each radius came from
pub mod sheets; // sheets.rt: sheets printed and taken apart
pub mod curves; // curves.rt: calls on curves in Chebyshev polynomials, and their conversion
pub mod cut_ranges; // cut_ranges.rt: the range of a cut box
pub mod double_curves; // double_curves.rt: curves that are delivered in doubles
pub mod reading_rows; // reading_rows.rt: rows of readings held against a model
pub mod archived_models; // archived_models.rt: models in the archive
