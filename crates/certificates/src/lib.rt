//! Certificates of rank, of echelon forms and of kernel bases.
//!
//! A certificate is a claim of a matrix A with what shows it: factors of A with their pivots, in the PLUQ form of Bouillaguet,
//! Delaplace and Voge, PASCO 2017, and the echelon form or the kernel basis where one is claimed. That it is valid can be seen by a
//! few products, without an elimination.
#![tactic(auto)]

mod cert_kind;
mod certificate;
mod certificate_title;
mod claim;
mod laws;
mod reading;
mod writing;

pub use cert_kind::CertKind;
pub use certificate::Certificate;
pub use claim::Claim;
pub use laws::written_certificate_reads_back;
pub use reading::read;
pub use writing::write;
