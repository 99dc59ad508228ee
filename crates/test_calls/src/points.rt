//! Points, printed and read back.
use pg_scaled::{Front, print_scaled, read_scaled};
use std::test::Fail;

#[test]
fn scaled_numbers_print_and_read_back(rt: HostRuntime) -> Result<(), Fail> {
    let alloc = rt.alloc();
    for (value, text) in [
        (1, "0.00002"),
        (65535, "0.99998"),
        (1073741823, "16383.99998"),
        (-1, "-0.00002"),
        (0, "0.0"),
    ] {
        let mut printed = Vec::new(alloc);
        print_scaled(i128::from(value), &mut printed)?;
        assert_eq!(rt; printed.as_slice(), text.as_bytes());
        let len = text.len();
        assert_eq!(rt; read_scaled(text.as_bytes()), Front::Value { value, len });
    }
    assert_eq!(rt; read_scaled(b"16384.0"), Front::TooLarge { len: 7 });
    assert_eq!(rt; read_scaled(b".5"), Front::NotNumber);
    Ok(())
}
