//! What is found of a certificate and files.
use jn_accept::Accepted;
use jn_base::{Row, Seq};
use jn_cert::CertFault;
use jn_index::BaseTyped;

/// What is found of a certificate and the files that it is of.
#[derive(Drop)]
pub enum CertVerdict {
    /// The files are not of the subset, or don't fit together: the rows of the first phase that has any, in order.
    Refused(Seq<Row>),
    /// The files have a program, and the certificate has more bytes than one may have.
    TooLarge,
    /// The certificate doesn't hold of the files' program, by the first that fails.
    Faulty(BaseTyped, CertFault),
    /// It holds of their program.
    Certified(Accepted),
}
