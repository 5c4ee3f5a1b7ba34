use crate::{Tenths, tenths_of_percent};
use std::test::Fail;

#[test]
fn a_share_with_its_decimal(rt: HostRuntime) -> Result<(), Fail> {
    let share = Tenths(tenths_of_percent(3, 7).unwrap_or(0));
    let text = format!(in rt.alloc(); "{share}|{share:>6}|{share:>3}")?;
    assert_eq!(rt; text.as_str(), "42.9|  42.9|42.9");
    let whole = Tenths(1000).to_string(rt.alloc())?;
    assert_eq!(rt; whole.as_str(), "100.0");
    Ok(())
}
