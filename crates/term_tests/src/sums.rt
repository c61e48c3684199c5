//! Sums past 128 bits.
use std::test::Fail;
use wide_sums::Wide;

#[test]
fn sums_come_back_from_beyond_128_bits(rt: HostRuntime) -> Result<(), Fail> {
    let mut sum = Wide::zero();
    sum.add_product(9223372036854775807, 5316911983139663491615228241121378304);
    assert_eq!(rt; sum.to_i64(), None);
    sum.add_product(-9223372036854775807, 5316911983139663491615228241121378304);
    assert_eq!(rt; sum.to_i64(), Some(0));
    sum.add_product(-9223372036854775808, 1);
    assert_eq!(rt; sum.to_i64(), Some(-9223372036854775808));
    sum.add_product(-1, 1);
    assert_eq!(rt; sum.to_i64(), None);
    Ok(())
}
