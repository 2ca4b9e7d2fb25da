//! What files come to where a certificate is asked for.
use jn_base::{Row, Seq};

/// What files come to where a certificate is asked for.
#[derive(Drop)]
pub enum CertMade {
    /// A phase before the rules has these rows, in order.
    Refused(Seq<Row>),
    /// Rules are broken: their rows, in order.
    Rejected(Seq<Row>),
    /// The certificate has more bytes than one may have.
    TooLarge,
    /// The certificate.
    Made(Seq<u8>),
}
