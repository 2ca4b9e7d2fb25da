//! What has numbers of 32 bits: a program, one of its bodies, and the bytes of a certificate.
ghost use Rattle.std.specs.Prelude.{◌<◌, ◌^◌, length};
ghost use Rattle.jn_env.specs.ClassFields.{AreOwnFields};
ghost use Rattle.jn_cert_form.specs.OneFact.{own_fields_prop};

use jn_base::BodyNo;
use jn_env::OwnFields;
use jn_points::Program;

/// A program whose fields and bodies have numbers of 32 bits.
#[derive(Clone, Copy)]
pub struct NumberedProgram<'a> {
    pub program: &'a Program,
    ghost few: { length program.now.fields < 2 ^ 32 },
    ghost bodies: { length program.now.bodies < 2 ^ 32 },
}

/// A body of a program whose fields have numbers of 32 bits, with the reference fields of the program's classes.
#[derive(Clone, Copy)]
pub struct NumberedBody<'a> {
    pub program: &'a Program,
    pub own: &'a OwnFields,
    pub body: BodyNo,
    ghost inside: { body.0 < length program.now.bodies },
    ghost few: { length program.now.fields < 2 ^ 32 },
    ghost fields: { AreOwnFields program.now own.now } by { own_fields_prop program.now own.now },
}

/// Bytes of a certificate, fewer than 2^32.
#[derive(Clone, Copy)]
pub struct ShortCert<'a> {
    pub bytes: &'a [u8],
    ghost short: { length bytes.now < 2 ^ 32 },
}
