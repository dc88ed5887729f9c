// Single calls on models in slices, for other languages: each reads its models where they lie, and makes the tests in
// document 01's order. Those that answer with a model store all its 64 places and the numbers into slices, and answer
// with the number of the refusal.
#![tactic(auto)]

// ---- for the layer above: slices that have the places which their counts name
// The sum of two models. 5 at place 0 or 1, 10, 8, 7.
pub use model_sum_slices::add;

// Their difference. 5 at place 0 or 1, 10, 8, 7.
pub use model_sum_slices::subtract;

// All signs turned. 5.
pub use model_term_slices::negate;

// Small terms swept into the radius. 5, 6.
pub use model_term_slices::sweep;

// The antiderivative in one variable. 3, 5, 6.
pub use model_term_slices::antiderivative;

// The range over the box. 5.
pub use model_term_slices::range;

// The integral over the box. 5.
pub use model_term_slices::integral;

// The numbers of any answer: a refusal's place, n, the count and the radius.
pub use model_slice_answers::store_numbers;
