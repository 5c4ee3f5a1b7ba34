use crate::OneFlow;
use reference::Reference;
use rounds::{count_marks, two_rounds};
use std::test::Fail;

#[test]
fn two_rounds_of_one_flow(rt: HostRuntime) -> Result<(), Fail> {
    let mut reference = OneFlow::new();
    assert_eq!(rt; reference.turn(), None);
    let marks = two_rounds(rt.alloc(), &mut reference)?;
    assert_eq!(rt; marks.len(), 2);
    assert_eq!(rt; count_marks(&marks, 0), 2);
    reference.leave(1);
    assert_eq!(rt; reference.turn(), Some(0));
    reference.leave(0);
    assert_eq!(rt; reference.turn(), None);
    Ok(())
}
