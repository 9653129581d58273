//! Certificates checked: the answer is true exactly where the certificate is valid for the matrix.
//!
//! It holds for every modulus, and nothing of what makes echelon forms, factors or kernels is used: a certificate is seen to be
//! valid by a look at its sizes and at where rows begin and end, and by the products A = L U, U = U' E and A times K transposed.
//! Time is that of these products, and memory is by entries and pivots: sizes that a header claims cost nothing by themselves.
#![tactic(auto)]

mod checking;
mod diagonal;
mod factoring;
mod outer_ones;
mod product;
mod showing;

pub use checking::check;
