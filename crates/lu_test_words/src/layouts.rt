//! Layouts, of which the expected values were computed by hand, and the wording of their errors.

use lu_layout::Layout;
use std::test::Fail;

#[test]
fn two_stripes_take_units_in_turn(rt: HostRuntime) -> Result<(), Fail> {
    let layout = Layout::make(65536, &[2, 1])?;
    assert_eq!(rt; layout.place(196613), (1, 65541));
    assert_eq!(rt; layout.position(1, 65541), 196613);
    assert_eq!(rt; layout.file_size(&[5, 1]), 65537);
    assert_eq!(rt; layout.below(0, 70000), 65536);
    assert_eq!(rt; layout.below(1, 70000), 4464);
    Ok(())
}

/// Stripe sizes and stripes that make no layout, and why.
const REFUSED: [(u64, &[u16], &str); 5] = [
    (0, &[], "bad stripe size"),
    (65535, &[1], "bad stripe size"),
    (4294967296, &[1], "bad stripe size"),
    (65536, &[], "bad stripes"),
    (65536, &[1, 1], "bad stripes"),
];

#[test]
fn errors_have_their_wording(rt: HostRuntime) -> Result<(), Fail> {
    let alloc = rt.alloc();
    for (size, stripes, wording) in REFUSED {
        if let Err(error) = Layout::make(size, stripes) {
            let said = format!(in alloc; "{error}")?;
            assert!(rt; said.as_str() == wording, "{size} {wording}");
        } else {
            assert!(rt; false, "{size} {wording}");
        }
    }
    Ok(())
}
