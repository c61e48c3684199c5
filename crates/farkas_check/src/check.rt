//! The test of a certificate.
ghost use Rattle.std.specs.Prelude.{◌≡◌, ◌<◌, ◌≤◌, ◌^◌, pos, ◌*ℤ◌, ◌↔◌, length, unsigned_abs, All, IsOk, IfErr};
ghost use Rattle.farkas_check.specs.Rows.{hypothesis, width, IsNarrow, Entails};
ghost use Rattle.farkas_check.specs.Places.{number_at};
ghost use Rattle.farkas_check.specs.Certificates.{combined, mention_faults, coefficient_faults, constant_faults, faults, verdict, IsValid, IsWithin};

use crate::cert::{Cert, CertFault, Mention, Row, Rows};

/// Where a number of a row stands.
#[derive(Clone, Copy)]
enum Place {
    Variable(usize),
    Constant,
}

fn number(row: &Row, place: Place) -> i64
    ensures { result ≡ number_at place row.now }
{
    match place {
        Place::Variable(variable) => row.coefficients.get(variable).copied().unwrap_or(0),
        Place::Constant => row.constant,
    }
}

fn product(factor: i64, number: i64) -> i128
    requires { unsigned_abs factor < 2 ^ 31 }
    ensures value { result ≡ factor *ℤ number }
    ensures bound { unsigned_abs result ≤ 2 ^ 94 }
{
    i128::from(factor) * i128::from(number)
}

fn claimed(cert: &Cert, claim: &Row, place: Place) -> i128
    ensures value { result ≡ pos cert.now.divisor *ℤ number_at place claim.now }
    ensures bound { unsigned_abs result ≤ 2 ^ 94 }
{
    product(i64::from(cert.divisor), number(claim, place))
}

/// What a mention adds to the sum.
fn weigh(mention: Mention, hyps: &[Row], place: Place) -> i128
    requires bounded { unsigned_abs mention.factor < 2 ^ 31 }
    requires indexed { mention.index < length hyps.now }
    ensures value { result ≡ mention.factor *ℤ number_at place (hypothesis hyps.now mention.index) }
    ensures bound { unsigned_abs result ≤ 2 ^ 94 }
{
    product(mention.factor, number(&hyps[mention.index as usize], place))
}

fn combine(cert: &Cert, hyps: &[Row], place: Place) -> i128
    requires { All (λ m. m.index < length hyps.now) cert.now.mentions }
    ensures value { result ≡ combined (number_at place) hyps.now cert.now.mentions }
    ensures bound { unsigned_abs result ≤ 2 ^ 102 }
{
    let mut sum = 0;
    for mention in cert.mentions.as_slice() {
        sum += weigh(*mention, hyps, place);
    }
    sum
}

fn widest(hyps: &[Row], claim: &Row) -> usize
    ensures { result ≡ width hyps.now claim.now }
{
    hyps.iter().fold(
        claim.coefficients.len(),
        |most, row| most.max(row.coefficients.len()),
    )
}

fn check_mentions(mentions: &[Mention], hyps: &[Row]) -> Result<(), CertFault>
    ensures { result ≡ verdict (mention_faults hyps.now mentions.now) }
{
    for mention in mentions {
        if mention.index as usize >= hyps.len() {
            return Err(CertFault::BadIndex(mention.index));
        }
        if mention.factor < 0 {
            return Err(CertFault::Negative(mention.index));
        }
    }
    Ok(())
}

fn check_coefficients(cert: &Cert, hyps: &[Row], claim: &Row) -> Result<(), CertFault>
    requires indexed { All (λ m. m.index < length hyps.now) cert.now.mentions }
    requires narrow { width hyps.now claim.now < 2 ^ 32 }
    ensures { result ≡ verdict (coefficient_faults cert.now.divisor cert.now.mentions hyps.now claim.now) }
{
    for variable in 0..widest(hyps, claim) {
        let left = claimed(cert, claim, Place::Variable(variable));
        let right = combine(cert, hyps, Place::Variable(variable));
        if left != right {
            return Err(CertFault::NotEqual {
                variable: variable as u32,
                left,
                right,
            });
        }
    }
    Ok(())
}

fn check_constant(cert: &Cert, hyps: &[Row], claim: &Row) -> Result<(), CertFault>
    requires { All (λ m. m.index < length hyps.now) cert.now.mentions }
    ensures { result ≡ verdict (constant_faults cert.now.divisor cert.now.mentions hyps.now claim.now) }
{
    let constant = claimed(cert, claim, Place::Constant) - combine(cert, hyps, Place::Constant);
    if constant > i128::from(cert.divisor) - 1 {
        return Err(CertFault::Constant {
            constant,
            divisor: cert.divisor,
        });
    }
    Ok(())
}

fn first_fault(cert: &Cert, hyps: &[Row], claim: &Row) -> Result<(), CertFault>
    requires { width hyps.now claim.now < 2 ^ 32 }
    ensures { result ≡ verdict (faults cert.now.divisor cert.now.mentions hyps.now claim.now) }
{
    check_mentions(cert.mentions.as_slice(), hyps)?;
    check_coefficients(cert, hyps, claim)?;
    check_constant(cert, hyps, claim)
}

/// Whether the certificate shows that the claim follows from the hypotheses.
pub fn holds(cert: &Cert, hyps: &Rows, claim: &Row) -> Result<(), CertFault>
    requires hypotheses { All IsNarrow hyps.now }
    requires claim { IsNarrow claim.now }
    ensures verdict { result ≡ verdict (faults cert.now.divisor cert.now.mentions hyps.now claim.now) }
    ensures valid { IsOk result ↔ IsValid cert.now.divisor cert.now.mentions hyps.now claim.now }
    ensures within { IfErr result (IsWithin (width hyps.now claim.now)) }
    ensures entails { IsOk result → Entails hyps.now claim.now }
{
    first_fault(cert, hyps.as_slice(), claim)
}
