//! Certificates, and the rows that they show.
ghost use Rattle.std.specs.Prelude.{◌<◌, ◌≤◌, ◌^◌, unsigned_abs, length, IfOk};
ghost use Rattle.farkas_check.specs.Rows.{IsNarrow};

use farkas_check::{Cert, CertFault, Coefficients, Mention, Mentions, Row, Rows, holds};
use std::alloc::{AllocError, Global};
use std::test::Fail;

fn row(alloc: Global, coefficients: &[i64], constant: i64) -> Result<Row, AllocError>
    requires { length coefficients.now ≤ 256 }
    ensures { IfOk result IsNarrow }
{
    Ok(Row {
        coefficients: Coefficients::from_slice(alloc, coefficients)?,
        constant,
    })
}

/// A certificate that mentions one hypothesis.
fn cert(alloc: Global, divisor: u32, factor: i64, index: u32) -> Result<Cert, AllocError>
    requires positive { 1 ≤ divisor }
    requires small { divisor < 2 ^ 31 }
    requires bounded { unsigned_abs factor < 2 ^ 31 }
{
    Ok(Cert {
        divisor,
        mentions: Mentions::from_slice(alloc, &[Mention { factor, index }])?,
    })
}

#[test]
fn halves_are_rounded_down(rt: HostRuntime) -> Result<(), Fail> {
    let alloc = rt.alloc();
    for (cert, constant, want) in [
        (cert(alloc, 2, 1, 0)?, -1, Ok(())),
        (
            cert(alloc, 2, 1, 0)?,
            -2,
            Err(CertFault::Constant {
                constant: 2,
                divisor: 2,
            }),
        ),
        (cert(alloc, 2, 1, 1)?, -1, Err(CertFault::BadIndex(1))),
        (cert(alloc, 2, -1, 0)?, -1, Err(CertFault::Negative(0))),
        (
            cert(alloc, 1, 1, 0)?,
            -1,
            Err(CertFault::NotEqual {
                variable: 0,
                left: 1,
                right: 2,
            }),
        ),
    ] {
        let hyps = Rows::from_vec(vec![in alloc; row(alloc, &[2], constant)?]?);
        assert_eq!(rt; holds(&cert, &hyps, &row(alloc, &[1], 0)?), want);
    }
    Ok(())
}

#[test]
fn the_largest_numbers_are_exact(rt: HostRuntime) -> Result<(), Fail> {
    let alloc = rt.alloc();
    let cert = cert(alloc, 2147483647, 2147483647, 0)?;
    let hyps = Rows::from_vec(vec![in alloc; row(alloc, &[i64::MIN, i64::MAX], i64::MIN)?]?);
    let same = row(alloc, &[i64::MIN, i64::MAX, 0], i64::MIN)?;
    assert_eq!(rt; holds(&cert, &hyps, &same), Ok(()));

    let higher = row(alloc, &[i64::MIN, i64::MAX], i64::MAX)?;
    let constant = 39614081238685424720914939905;
    assert_eq!(rt;
        holds(&cert, &hyps, &higher),
        Err(CertFault::Constant {
            constant,
            divisor: 2147483647
        })
    );

    let shorter = row(alloc, &[i64::MIN], i64::MIN)?;
    let right = 19807040619342712359383728129;
    assert_eq!(rt;
        holds(&cert, &hyps, &shorter),
        Err(CertFault::NotEqual {
            variable: 1,
            left: 0,
            right
        })
    );
    Ok(())
}
